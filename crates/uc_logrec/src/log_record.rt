//! A record of the log, and what is at a place where one may begin.
ghost use Rattle.std.specs.Prelude.{◌≡◌, ◌+◌, ◌-◌, ◌<◌, ◌≤◌, ◌^◌, ◌==◌, length, take, drop, Ok, Err, IfOk, IfErr};
ghost use Rattle.std.specs.List.{list_all};
ghost use Rattle.uc_logrec.specs.Format as format;
ghost use Rattle.uc_logrec.specs.Format.{header_place, record_of};

use crate::checksum::{crc32c, extend};
use crate::fault::LogFault;
use crate::kind::Kind;
use crate::masking::mask;

/// The bytes of a block.
pub(crate) const BLOCK_SIZE: usize = 32768;

/// The bytes of a header: checksum 4, length 2, type 1.
pub(crate) const HEADER_SIZE: usize = 7;

/// The most data that a record has: the rest of a block after a header.
pub(crate) const MAX_FRAGMENT: usize = BLOCK_SIZE - HEADER_SIZE;

/// A record: a part of a payload.
#[derive(Clone, Copy)]
pub(crate) struct Record<'a> {
    /// The part of the payload.
    pub(crate) kind: Kind,
    /// Its data.
    pub(crate) fragment: &'a [u8],
}

/// Why there is no record at a place.
#[derive(Clone, Copy)]
pub(crate) enum Stop {
    /// The log is over: nothing but zero bytes follows.
    End,
    /// The log ends inside the record.
    Cut,
    /// The bytes are no record.
    Bad(LogFault),
}

/// The bytes from an offset to the end of its block.
pub(crate) fn room(offset: usize) -> usize
    ensures { result ≡ format.room offset }
{
    BLOCK_SIZE - offset % BLOCK_SIZE
}

/// The most data for a record at a header place: the rest of its block after the header.
pub(crate) fn fragment_room(place: usize) -> usize
    requires { 7 ≤ format.room place }
    ensures { result ≡ format.room place - 7 }
{
    MAX_FRAGMENT - place % BLOCK_SIZE
}

/// The masked checksum of a record.
pub(crate) fn checksum_of(code: u8, fragment: &[u8]) -> u32
    ensures { result ≡ format.checksum_of code fragment.now }
{
    mask(extend(crc32c(&[code]), fragment))
}

/// The first place at or after an offset where a header may begin, and the bytes from there. If no header fits the
/// block, the rest of the block is a trailer, which is skipped unread.
pub(crate) fn skip_trailer(offset: usize, rest: &[u8]) -> (usize, &[u8])
    requires { offset + length rest.now < 2 ^ 63 }
    ensures place { result.0 ≡ header_place offset }
    ensures rest { result.1.now ≡ drop (header_place offset - offset) rest.now }
    ensures fits { 7 ≤ format.room result.0 }
{
    let space = room(offset);
    if space >= HEADER_SIZE {
        return (offset, rest);
    }
    (offset + space, rest.get(space..).unwrap_or(&[]))
}

/// Whether all bytes are zero.
fn is_zero(bytes: &[u8]) -> bool
    ensures { result ≡ list_all (λ byte. byte == 0) bytes.now }
{
    bytes.iter().all(|byte| *byte == 0)
}

/// Reads the record at a header place, from the bytes there, and returns the bytes after it too.
#[tactic(auto, unfolding(crate::specs::Format::record_of))]
pub(crate) fn read_record(place: usize, rest: &[u8]) -> Result<(Record<'_>, &[u8]), Stop>
    requires { 7 ≤ format.room place }
    ensures found { IfOk result (λ found.
        record_of (format.room place) rest.now ≡ Ok (found.0.kind, length found.0.fragment.now)) }
    ensures none { IfErr result (λ stop. record_of (format.room place) rest.now ≡ Err stop) }
    ensures within { IfOk result (λ found. 7 + length found.0.fragment.now ≤ length rest.now) }
    ensures fragment { IfOk result (λ found.
        found.0.fragment.now ≡ take (length found.0.fragment.now) (drop 7 rest.now)) }
    ensures behind { IfOk result (λ found. found.1.now ≡ drop (length found.0.fragment.now) (drop 7 rest.now)) }
{
    if is_zero(rest) {
        return Err(Stop::End);
    }
    let Some((header, rest)) = rest.split_first_chunk::<HEADER_SIZE>() else {
        return Err(Stop::Cut);
    };
    let [c0, c1, c2, c3, l0, l1, code] = *header;
    let len = usize::from(u16::from_le_bytes([l0, l1]));
    if len > fragment_room(place) {
        return Err(Stop::Bad(LogFault::BadLength));
    }
    let Some((fragment, behind)) = rest.split_at_checked(len) else {
        return Err(Stop::Cut);
    };
    if u32::from_le_bytes([c0, c1, c2, c3]) != checksum_of(code, fragment) {
        return Err(Stop::Bad(LogFault::BadChecksum));
    }
    match Kind::of_code(code) {
        Some(kind) => Ok((Record { kind, fragment }, behind)),
        None => Err(Stop::Bad(LogFault::UnsupportedType)),
    }
}
