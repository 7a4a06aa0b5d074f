//! [`tells`]: whether a batch says that a log was on the device.
ghost use Rattle.std.specs.Prelude.{◌≡◌, ◌<◌, ◌≤◌, ◌↔◌, false, IsTrue, IfOk, length, drop, nat_lt};
ghost use Rattle.uc_logrec.specs.Format.{room, stored_code};
ghost use Rattle.uc_log_crash.specs.Marks.{Tells, SaysBeyond, mark_of, sequence_of};

use crate::mark::mark_of;
use std::alloc::AllocError;
use uc_logrec::{Next, next_payload};

/// The last place of a block where a header fits.
const LAST_PLACE: u64 = 32_761;

/// The size of a block in bytes.
const BLOCK_SIZE: u64 = 32_768;

/// Whether a batch has a sequence after the last one.
#[tactic(auto, unfolding(crate::specs::Marks::sequence_of))]
fn is_later(payload: &[u8], last: u64) -> bool
    requires { 12 ≤ length payload.now }
    ensures { IsTrue result ↔ (last < sequence_of payload.now) }
{
    let Some(first) = payload.first_chunk() else {
        unreachable!();
    };
    last < u64::from_le_bytes(*first)
}

/// Whether a batch at an offset has a sequence after the last one, and a mark that says that the log was on the device beyond a place.
fn says_beyond(payload: &[u8], end: u64, last: u64, offset: u64) -> bool
    ensures { IsTrue result ↔ ((last < sequence_of payload.now) × SaysBeyond (mark_of payload.now) end offset) }
{
    match mark_of(payload) {
        Some(unsynced) => {
            is_later(payload, last) && unsynced <= offset && end < offset - unsynced
        }
        None => false,
    }
}

/// Whether a record would begin at an offset whose type is zero. Then there is no payload, which is found here without a look at the
/// zeros that follow.
fn is_blank(log: &[u8], offset: u64) -> bool
    ensures fits { IsTrue result → nat_lt (room offset) 7 ≡ false }
    ensures blank { IsTrue result → stored_code (drop offset log.now) ≡ 0 }
{
    if offset % BLOCK_SIZE > LAST_PLACE {
        return false;
    }
    match log.get(offset as usize..) {
        Some([_, _, _, _, _, _, code, ..]) => *code == 0,
        _ => false,
    }
}

/// Whether a whole batch lies at an offset of a log, with a sequence after the last one, whose mark says that the log was on the device
/// beyond a place when it was written.
///
/// The buffer is for a batch of several records, as at [`next_payload`]. After an `Err` the call can be made again.
pub fn tells(
    log: &[u8],
    end: u64,
    last: u64,
    offset: u64,
    joined: &mut Vec<u8>,
) -> Result<bool, AllocError>
    ensures { IfOk result (λ told. IsTrue told ↔ Tells log.now end last offset) }
{
    if is_blank(log, offset) {
        return Ok(false);
    }
    let (next, _) = next_payload(log, offset, joined)?;
    Ok(match next {
        Next::Whole(payload) => says_beyond(payload, end, last, offset),
        Next::Joined => says_beyond(joined, end, last, offset),
        Next::Ended(_) => false,
    })
}
