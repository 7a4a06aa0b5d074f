//! [`Payload`]: where a payload's bytes are; and reading one in a piece.
ghost use Rattle.std.specs.Prelude.{◌≡◌, ◌≤◌, ◌<◌, ◌+◌, ◌-◌, ◌^◌, length, IfOk, OnOk, IfSome};
ghost use Rattle.uc_batch.specs.Unread.{bytes_ahead};
ghost use Rattle.uc_batch.specs.PiecePosition.{payload_in, LiesIn, PassesOver, ReadsIn};

use crate::unread::Unread;
use std::alloc::{AllocError, Global};
use uc_logrec::{Ending, Next, next_payload_at};

/// Where a payload's bytes are.
#[derive(Clone, Copy)]
pub(crate) enum Payload {
    /// In the piece, from one offset to another.
    Within(usize, usize),
    /// In the reader's buffer.
    Joined,
}

/// The outcome of reading at a place of the log.
#[derive(Clone, Copy)]
pub(crate) enum Read {
    /// A payload, and the number of bytes that it takes in the log.
    Payload(Payload, usize),
    /// The end of the bytes.
    Ended(Ending),
}

impl Payload {
    /// No bytes.
    pub(crate) const EMPTY: Payload = Payload::Within(0, 0);

    /// The bytes; `joined` is the buffer.
    pub(crate) fn bytes<'a>(self, piece: &'a [u8], joined: &'a [u8]) -> &'a [u8]
        requires { LiesIn self piece.now }
        ensures { result.now ≡ payload_in self piece.now joined.now }
    {
        match self {
            Payload::Within(from, to) => &piece[from..to],
            Payload::Joined => joined,
        }
    }

    /// Puts the bytes into the buffer, unless they are there.
    fn join(self, piece: &[u8], joined: &mut Vec<u8>) -> Result<(), AllocError>
        requires { LiesIn self piece.now }
        ensures { OnOk result (joined.new.items ≡ payload_in self piece.now joined.old.items) }
    {
        if let Payload::Within(from, to) = self {
            joined.clear();
            joined.extend_from_slice(&piece[from..to])?;
        }
        Ok(())
    }
}

/// Reads a payload that begins in a piece and ends in the next one, if there is one there, and copies it to the buffer. Returns the
/// number of bytes that it takes in the log.
pub(crate) fn read_over(
    alloc: Global,
    unread: &Unread,
    place: usize,
    joined: &mut Vec<u8>,
) -> Result<Option<usize>, AllocError>
    requires within { unread.now.at ≤ length unread.now.piece.items }
    requires fits { place + length (bytes_ahead unread.now) < 2 ^ 63 }
    ensures { IfOk result (λ found. IfSome found (λ size. PassesOver size joined.new.items place (bytes_ahead unread.now))) }
{
    let Some(border) = unread.border(alloc)? else {
        return Ok(None);
    };
    match read_in(&border, 0, place, joined)? {
        Read::Payload(payload, size) => {
            payload.join(&border, joined)?;
            Ok(Some(size))
        }
        Read::Ended(_) => Ok(None),
    }
}

/// Reads at an offset of a piece, which is this place of the log. A payload of several records is joined in the buffer.
pub(crate) fn read_in(
    piece: &[u8],
    at: usize,
    place: usize,
    joined: &mut Vec<u8>,
) -> Result<Read, AllocError>
    requires within { at ≤ length piece.now }
    requires fits { place + (length piece.now - at) < 2 ^ 63 }
    ensures { IfOk result (λ read. ReadsIn read joined.new.items piece.now at place) }
{
    let (_, left) = piece.split_at(at);
    let (next, behind, _) = next_payload_at(joined, place, left)?;
    match next {
        Next::Whole(payload) => {
            let size = behind - place;
            let end = at + size;
            Ok(Read::Payload(Payload::Within(end - payload.len(), end), size))
        }
        Next::Joined => Ok(Read::Payload(Payload::Joined, behind - place)),
        Next::Ended(ending) => Ok(Read::Ended(ending)),
    }
}
