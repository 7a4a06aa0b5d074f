//! [`Unread`]: the bytes of a log that are still to be read.
ghost use Rattle.std.specs.Prelude.{◌≡◌, ◌≤◌, ◌<◌, ◌++◌, [], length, take, drop, IfOk, OnOk, IfSome, cond};
ghost use Rattle.uc_batch.specs.Unread.{bytes_ahead};

use crate::pieces::Pieces;
use std::alloc::{AllocError, Global};

/// The least bytes of the next piece that are copied after the end of a piece: 64 KiB.
const LEAST_FRONT: usize = 1 << 16;

/// The bytes of a log that are still to be read: those of one piece from an offset on, and those of the pieces after it.
#[derive(Drop)]
pub(crate) struct Unread {
    /// The piece.
    pub piece: Vec<u8>,
    /// The offset in the piece.
    pub at: usize,
    /// The pieces after it.
    pub rest: Pieces,
}

impl Unread {
    /// All bytes of a log.
    pub(crate) fn new(alloc: Global, log: Pieces) -> Unread
        ensures bytes { bytes_ahead result ≡ log }
        ensures at { result.at ≡ 0 }
    {
        Unread {
            piece: Vec::new(alloc),
            at: 0,
            rest: log,
        }
    }

    /// The bytes that are left of the piece, and after them a front of the next one: as many again, but at least 64 KiB.
    /// `None` if none are left, or if the next piece has no more.
    pub(crate) fn border(&self, alloc: Global) -> Result<Option<Vec<u8>>, AllocError>
        requires { self.now.at ≤ length self.now.piece.items }
        ensures { IfOk result (λ found. IfSome found (λ border.
            border.items ≡ take (length border.items) (bytes_ahead self.now))) }
    {
        let (_, left) = self.piece.split_at(self.at);
        let next = self.rest.first();
        let size = left.len().max(LEAST_FRONT);
        if left.is_empty() || next.len() <= size {
            return Ok(None);
        }
        let (front, _) = next.split_at(size);
        let mut border = Vec::with_capacity(alloc, left.len() + size)?;
        border.extend_from_slice(left)?;
        border.extend_from_slice(front)?;
        Ok(Some(border))
    }

    /// Skips `size` bytes, and frees the pieces that end within them.
    pub(crate) fn skip(&mut self, size: usize)
        requires within { self.old.at ≤ length self.old.piece.items }
        requires ahead { size ≤ length (bytes_ahead self.old) }
        ensures within { self.new.at ≤ length self.new.piece.items }
        ensures bytes { bytes_ahead self.new ≡ drop size (bytes_ahead self.old) }
    {
        let mut left = size;
        while self.piece.len() - self.at < left {
            let Some(next) = self.rest.pop_first() else {
                return;
            };
            left -= self.piece.len() - self.at;
            self.piece = next;
            self.at = 0;
        }
        self.at += left;
    }

    /// Replaces the piece by a larger one: the bytes that are left of this one, and pieces after them, so that it has four times as
    /// many. If none are left, the next piece is taken as it is. Returns `false` if there is none.
    ///
    /// After an `Err` the bytes that are ahead are the same.
    pub(crate) fn enlarge(&mut self, alloc: Global) -> Result<bool, AllocError>
        requires { self.old.at ≤ length self.old.piece.items }
        ensures within { self.new.at ≤ length self.new.piece.items }
        ensures same { bytes_ahead self.new ≡ bytes_ahead self.old }
        ensures cases { IfOk result (λ more. cond more (length self.new.rest < length self.old.rest) (self.old.rest ≡ [])) }
    {
        if self.at == self.piece.len() {
            let Some(next) = self.rest.pop_first() else {
                return Ok(false);
            };
            self.piece = next;
            self.at = 0;
            return Ok(true);
        }
        if self.rest.is_empty() {
            return Ok(false);
        }
        let (_, left) = self.piece.split_at(self.at);
        let enough = left.len().saturating_mul(4);
        let mut larger = Vec::with_capacity(alloc, left.len() + self.rest.first().len())?;
        larger.extend_from_slice(left)?;
        self.piece = larger;
        self.at = 0;
        gather(&mut self.piece, &mut self.rest, enough)?;
        Ok(true)
    }
}

/// Moves pieces after the bytes of one: the first, and others until it has enough bytes.
fn gather(piece: &mut Vec<u8>, rest: &mut Pieces, enough: usize) -> Result<(), AllocError>
    ensures same { piece.new.items ++ rest.new ≡ piece.old.items ++ rest.old }
    ensures moved { OnOk result (0 < length rest.old → length rest.new < length rest.old) }
{
    rest.move_first(piece)?;
    while piece.len() < enough && !rest.is_empty() {
        rest.move_first(piece)?;
    }
    Ok(())
}
