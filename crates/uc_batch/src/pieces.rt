//! [`Pieces`]: bytes in pieces.
ghost use Rattle.std.specs.Prelude.{◌≡◌, ◌≤◌, ◌<◌, ◌+◌, ◌++◌, ◌^◌, ◌==◌, [], length, take, drop, nat_lt};
ghost use Rattle.std.specs.Prelude.{IfOk, OnOk, OnErr, IfSome, IfNone};
ghost use Rattle.uc_batch.specs.Pieces.{bytes_of, size_of_first, AreFilled};

use std::alloc::{AllocError, Global};
use std::collections::VecDeque;
use std::marker::Model;

/// The bytes of a piece, if others follow it: a MiB.
const PIECE_SIZE: usize = 1 << 20;

/// Bytes in pieces of a MiB. A contract sees them as one list.
#[derive(Drop)]
pub struct Pieces {
    // In their order. None is empty.
    pieces: VecDeque<Vec<u8>>,
    length: usize,
}

impl Model for Pieces {
    ghost use Rattle.std.specs.Prelude.{List, ℕ, ◌≡◌, ◌<◌, ◌^◌, length};
    ghost use Rattle.uc_batch.specs.Pieces.{bytes_of, ArePieces};

    ghost Value = { List ℕ };

    ghost view = { λ p. bytes_of p.pieces.items };

    ghost invariant = { λ p. ArePieces p.pieces.items p.length };
}

impl Pieces {
    /// No bytes. It doesn't allocate.
    pub fn new(alloc: Global) -> Pieces
        ensures { result ≡ [] }
    {
        Pieces {
            pieces: VecDeque::new(alloc),
            length: 0,
        }
    }

    /// The number of bytes.
    pub fn len(&self) -> usize
        ensures { result ≡ length self.now }
    {
        self.length
    }

    /// Whether there are no bytes.
    pub fn is_empty(&self) -> bool
        ensures { result ≡ (length self.now == 0) }
    {
        self.length == 0
    }

    /// Adds bytes after those that are there. An `Err` comes also at 2^63 bytes. After it some of the bytes may be there.
    pub fn push_bytes(&mut self, alloc: Global, bytes: &[u8]) -> Result<(), AllocError>
        ensures { OnOk result (self.new ≡ self.old ++ bytes.now) }
    {
        let mut left = bytes;
        while !left.is_empty() {
            let count = self.push_some(alloc, left, PIECE_SIZE)?;
            left = &left[count..];
        }
        Ok(())
    }

    /// Puts bytes before those that are there, as a piece of their own. An `Err` comes also at 2^63 bytes.
    pub fn push_front(&mut self, bytes: Vec<u8>) -> Result<(), AllocError>
        ensures { OnOk result (self.new ≡ bytes.items ++ self.old) }
    {
        if bytes.is_empty() {
            return Ok(());
        }
        let count = bytes.len();
        if !may_hold(self.length, count) {
            return Err(AllocError);
        }
        self.pieces.push_front(bytes)?;
        self.length += count;
        Ok(())
    }

    /// All bytes in one piece. Each piece is freed once it is copied. A single piece is returned without a copy.
    pub fn into_vec(mut self, alloc: Global) -> Result<Vec<u8>, AllocError>
        ensures { IfOk result (λ bytes. bytes.items ≡ self) }
    {
        let size = self.len();
        self.split_front(alloc, size)
    }

    /// Removes the first `size` bytes and returns them. Frees the pieces that end within them.
    pub fn split_front(&mut self, alloc: Global, size: usize) -> Result<Vec<u8>, AllocError>
        requires { size ≤ length self.old }
        ensures front { IfOk result (λ front. front.items ≡ take size self.old) }
        ensures rest { OnOk result (self.new ≡ drop size self.old) }
    {
        if let Some(front) = self.pop_sized(size) {
            return Ok(front);
        }
        let mut front = Vec::with_capacity(alloc, size)?;
        while front.len() < size {
            let missing = size - front.len();
            self.move_some(&mut front, missing)?;
        }
        Ok(front)
    }

    /// Adds the first of some bytes, and returns how many. After an `Err` nothing was added.
    fn push_some(&mut self, alloc: Global, bytes: &[u8], size: usize) -> Result<usize, AllocError>
        requires size { 0 < size }
        requires some { 0 < length bytes.now }
        ensures count { IfOk result (λ count. (0 < count) × (count ≤ length bytes.now)) }
        ensures added { IfOk result (λ count. self.new ≡ self.old ++ take count bytes.now) }
        ensures err { OnErr result (self.new ≡ self.old) }
    {
        let room = room_behind(&self.pieces, size);
        let most = if room > 0 { room } else { size };
        let (front, _) = bytes.split_at(most.min(bytes.len()));
        if !may_hold(self.length, front.len()) {
            return Err(AllocError);
        }
        if room > 0 {
            extend_last(&mut self.pieces, front)?;
        } else {
            push_piece(&mut self.pieces, alloc, size, front)?;
        }
        self.length += front.len();
        Ok(front.len())
    }

    /// Takes the first piece out. There is one unless there are no bytes.
    pub(crate) fn pop_first(&mut self) -> Option<Vec<u8>>
        ensures some { IfSome result (λ piece. (self.old ≡ piece.items ++ self.new) × (0 < length piece.items)) }
        ensures none { IfNone result ((self.old ≡ []) × (self.new ≡ [])) }
    {
        let piece = self.pieces.pop_front()?;
        self.length -= piece.len();
        Some(piece)
    }

    /// Takes the first piece out, if it has this size.
    fn pop_sized(&mut self, size: usize) -> Option<Vec<u8>>
        ensures some { IfSome result (λ piece. (self.old ≡ piece.items ++ self.new) × (length piece.items ≡ size)) }
        ensures none { IfNone result (self.new ≡ self.old) }
    {
        if first_size(&self.pieces) != size {
            return None;
        }
        let piece = self.pieces.pop_front()?;
        self.length -= size;
        Some(piece)
    }

    /// The first piece: no bytes if there is none.
    pub(crate) fn first(&self) -> &[u8]
        ensures { result.now ≡ take (length result.now) self.now }
    {
        match self.pieces.front() {
            Some(first) => first,
            None => &[],
        }
    }

    /// Appends the first piece to `target` and frees it. An `Err` moves nothing.
    pub(crate) fn move_first(&mut self, target: &mut Vec<u8>) -> Result<(), AllocError>
        ensures same { target.new.items ++ self.new ≡ target.old.items ++ self.old }
        ensures moved { OnOk result (0 < length self.old → length self.new < length self.old) }
    {
        let Some(first) = self.pieces.front() else {
            return Ok(());
        };
        let size = first.len();
        target.extend_from_slice(first)?;
        let _ = self.pieces.pop_front();
        self.length -= size;
        Ok(())
    }

    /// Moves the first bytes after others: at most this many, and only of the first piece. After an `Err` nothing was moved.
    fn move_some(&mut self, target: &mut Vec<u8>, most: usize) -> Result<(), AllocError>
        ensures same { target.new.items ++ self.new ≡ target.old.items ++ self.old }
        ensures most { length target.new.items ≤ length target.old.items + most }
        ensures moved { OnOk result (0 < length self.old → 0 < most → length self.new < length self.old) }
    {
        let Some(first) = self.pieces.front() else {
            return Ok(());
        };
        let size = first.len();
        if most < size {
            target.extend_from_slice(&first[..most])?;
            cut_first(&mut self.pieces, most);
            self.length -= most;
        } else {
            target.extend_from_slice(first)?;
            let _ = self.pieces.pop_front();
            self.length -= size;
        }
        Ok(())
    }
}

/// Whether this many bytes more fit.
fn may_hold(length: usize, more: usize) -> bool
    requires { length < 2 ^ 63 }
    ensures { result ≡ nat_lt (length + more) (2 ^ 63) }
{
    more < (1 << 63) - length
}

/// The bytes of the first piece; 0 if there are none.
fn first_size(pieces: &VecDeque<Vec<u8>>) -> usize
    ensures { result ≡ size_of_first pieces.now.items }
{
    match pieces.front() {
        Some(first) => first.len(),
        None => 0,
    }
}

/// The number of bytes that may be added to the last piece, if a piece has this size: 0 if there is none.
fn room_behind(pieces: &VecDeque<Vec<u8>>, size: usize) -> usize
    ensures { 0 < result → 0 < length pieces.now.items }
{
    match pieces.back() {
        Some(last) => size.saturating_sub(last.len()),
        None => 0,
    }
}

/// Adds bytes to the last piece. After an `Err` the bytes are as before.
fn extend_last(pieces: &mut VecDeque<Vec<u8>>, bytes: &[u8]) -> Result<(), AllocError>
    requires { 0 < length pieces.old.items }
    ensures ok { OnOk result (bytes_of pieces.new.items ≡ bytes_of pieces.old.items ++ bytes.now) }
    ensures err { OnErr result (bytes_of pieces.new.items ≡ bytes_of pieces.old.items) }
    ensures filled { AreFilled pieces.old.items → AreFilled pieces.new.items }
{
    let last = pieces.len() - 1;
    pieces[last].extend_from_slice(bytes)
}

/// Adds a piece with these bytes. The first piece grows with them, each other one has its size from the start.
fn push_piece(
    pieces: &mut VecDeque<Vec<u8>>,
    alloc: Global,
    size: usize,
    bytes: &[u8],
) -> Result<(), AllocError>
    ensures ok { OnOk result (bytes_of pieces.new.items ≡ bytes_of pieces.old.items ++ bytes.now) }
    ensures err { OnErr result (pieces.new.items ≡ pieces.old.items) }
    ensures filled { 0 < length bytes.now → AreFilled pieces.old.items → AreFilled pieces.new.items }
{
    let capacity = if pieces.is_empty() { bytes.len() } else { size };
    let mut piece = Vec::with_capacity(alloc, capacity)?;
    piece.extend_from_slice(bytes)?;
    pieces.push_back(piece)?;
    Ok(())
}

/// Takes bytes away from the front of a piece.
fn cut(piece: &mut Vec<u8>, count: usize)
    requires { count ≤ length piece.old.items }
    ensures { piece.new.items ≡ drop count piece.old.items }
{
    let left = piece.len() - count;
    piece.rotate_left(count);
    piece.truncate(left);
}

/// Takes bytes away from the front of the first piece, but not all of them.
fn cut_first(pieces: &mut VecDeque<Vec<u8>>, count: usize)
    requires { count < size_of_first pieces.old.items }
    ensures bytes { bytes_of pieces.new.items ≡ drop count (bytes_of pieces.old.items) }
    ensures filled { AreFilled pieces.old.items → AreFilled pieces.new.items }
{
    cut(&mut pieces[0], count);
}
