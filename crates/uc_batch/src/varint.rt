//! Numbers of 32 bits, in one to five bytes.
ghost use Rattle.std.specs.Prelude.{◌<◌, ◌≤◌, length, IfOk};
ghost use Rattle.uc_batch.specs.Reads.{Exactly};
ghost use Rattle.uc_batch.specs.Varint.{varint_from, room_for};

use crate::error::BatchError;

/// The most bytes of a number after its first: five hold any of 32 bits.
pub(crate) const MORE_BYTES: u32 = 4;

/// Reads a number of one byte and at most `more` others, low seven bits first, and returns the bytes after it too.
///
/// The high bit of a byte says that another follows; the last of five bytes holds four bits (RocksDB, `coding.h`, `GetVarint32`).
/// For the faults, `start` is the offset of the record's tag and `here` that of the number.
#[tactic(auto, unfolding(crate::specs::Varint::varint_from))]
pub(crate) fn read_varint(
    bytes: &[u8],
    more: u32,
    start: u64,
    here: u64,
) -> Result<(u32, &[u8]), BatchError>
    requires { more ≤ 4 }
    ensures value { Exactly (λ read. (read.0, read.1.now)) result (varint_from more start here bytes.now) }
    ensures small { IfOk result (λ read. read.0 < room_for more) }
    ensures shorter { IfOk result (λ read. length read.1.now < length bytes.now) }
{
    let [first, rest @ ..] = bytes else {
        return Err(BatchError::Cut(start));
    };
    let low = u32::from(*first);
    if more == 0 {
        return if low < 16 {
            Ok((low, rest))
        } else {
            Err(BatchError::BadVarint(here))
        };
    }
    if low < 128 {
        return Ok((low, rest));
    }
    let (high, rest) = read_varint(rest, more - 1, start, here)?;
    Ok((low - 128 + 128 * high, rest))
}
