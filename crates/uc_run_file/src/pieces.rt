//! The checksums of a file's pieces.
ghost use Rattle.std.specs.Prelude.{◌≡◌, ℕ, ◌*◌, ◌+◌, ◌<◌, ◌≤◌, ◌^◌, ◌++◌, length, take, drop, IsTrue, OnOk, MatchOption, ◌↔◌};
ghost use Rattle.uc_logrec.specs.Crc.{crc_of};
ghost use Rattle.uc_run_file.specs.Pieces as pieces;
ghost use Rattle.uc_run_file.specs.Pieces.{table_of, sums, IsDamagedAt};

use crate::words::push_half;
use std::alloc::AllocError;
use uc_logrec::{crc32c, extend};

/// The size of a checksum in bytes.
const SUM_SIZE: usize = 4;

/// The number of bytes of each piece; the last may have fewer.
#[tactic(auto, unfolding(crate::specs::Pieces::piece_len))]
fn piece_len() -> usize
    ensures len { result ≡ pieces.piece_len }
    ensures value { result ≡ 65536 }
{
    65_536
}

/// The number of pieces of this many bytes.
pub(crate) fn pieces_of(len: usize) -> usize
    ensures { result ≡ pieces.pieces_of len }
{
    len.div_ceil(65_536)
}

/// This many bytes at the front, and those after them; all and none if there are fewer.
pub(crate) fn split_front(bytes: &[u8], count: usize) -> (&[u8], &[u8])
    ensures front { result.0.now ≡ take count bytes.now }
    ensures rest { result.1.now ≡ drop count bytes.now }
{
    bytes.split_at(count.min(bytes.len()))
}

/// Bytes in two parts, one after the other.
#[derive(Clone, Copy)]
struct Joined<'a> {
    first: &'a [u8],
    second: &'a [u8],
}

impl<'a> Joined<'a> {
    /// The checksum of the first bytes, this many, and the bytes after them.
    fn sum_front(self, count: usize) -> (u32, Joined<'a>)
        ensures sum { result.0 ≡ crc_of (take count (self.entry.first.now ++ self.entry.second.now)) }
        ensures rest { result.1.first.now ++ result.1.second.now ≡ drop count (self.entry.first.now ++ self.entry.second.now) }
    {
        let (front, first) = split_front(self.first, count);
        let (more, second) = split_front(self.second, count - front.len());
        (extend(crc32c(front), more), Joined { first, second })
    }
}

/// Pushes the checksum of each piece of bytes that are in two parts. An `Err` may leave some of them pushed.
pub(crate) fn push_sums(table: &mut Vec<u8>, first: &[u8], second: &[u8]) -> Result<(), AllocError>
    requires { length first.now + length second.now < 2 ^ 64 }
    ensures { OnOk result (table.new.items ≡ table.old.items ++ table_of (first.now ++ second.now)) }
{
    let mut rest = Joined { first, second };
    for _ in 0..pieces_of(first.len() + second.len()) {
        let (sum, after) = rest.sum_front(piece_len());
        push_half(table, sum)?;
        rest = after;
    }
    Ok(())
}

/// Whether these four bytes are the checksum of a piece.
#[tactic(auto, unfolding(crate::specs::Words::half_text))]
fn is_sum(bytes: &[u8], piece: &[u8]) -> bool
    ensures { IsTrue result ↔ (bytes.now ≡ pieces.sum_text piece.now) }
{
    bytes == crc32c(piece).to_le_bytes().as_slice()
}

/// The offset of the first piece whose checksum isn't the one in the table.
pub(crate) fn first_damaged(bytes: &[u8], table: &[u8]) -> Option<usize>
    requires { length table.now ≡ 4 * pieces.pieces_of (length bytes.now) }
    ensures { MatchOption result (table.now ≡ table_of bytes.now) (IsDamagedAt bytes.now table.now) }
{
    let (mut rest, mut sums) = (bytes, table);
    for piece in 0..pieces_of(bytes.len()) {
        let (sum, more) = split_front(sums, SUM_SIZE);
        let (front, after) = split_front(rest, piece_len());
        if !is_sum(sum, front) {
            return Some(piece * piece_len());
        }
        rest = after;
        sums = more;
    }
    None
}
