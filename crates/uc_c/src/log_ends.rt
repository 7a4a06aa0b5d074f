//! The ends of logs that C keeps: marks, by which a batch tells how far its log was durable, and the batch that tells damage.
ghost use Rattle.std.specs.Prelude.{◌≡◌, ◌⊎◌, true};
ghost use Rattle.uc_log_crash.specs.Marks as marks;
ghost use Rattle.uc_c.specs.declared.status.TheConstants.{OK};
ghost use Rattle.uc_c.specs.LogEnds.{FindsTold, IsStored, LaysMark};

use crate::logs::lay;
use crate::status::{BAD_PLACE, OK, OUT_OF_MEMORY};
use std::alloc::Global;
use uc_log_crash::{first_told, mark_bytes, mark_of};

/// The least number that is no length of a log.
pub const LENGTHS: u64 = 1 << 63;

/// The most bytes by which a header may begin after the end of a batch, and one more.
const STEP: u64 = 8;

/// Finds the first batch after the last whole one of a log whose mark says that the log was durable beyond that. The whole batches
/// end at `end`, with the sequence number `last`. If there is such a batch, stores its offset: a batch that was durable isn't whole,
/// which no crash leaves. Fails if `end` is past the end of the log, or if allocation fails.
#[unsafe(no_mangle)]
pub extern "C" fn ucstore_log_first_told(
    alloc: Global,
    log: &[u8],
    end: u64,
    last: u64,
    told: &mut bool,
    place: &mut u64,
) -> i32
    ensures finds { FindsTold result log.now end last told.new place.new }
    ensures told_untold { (result ≡ OK) ⊎ (told.new ≡ told.old) }
    ensures place_untold { ((result ≡ OK) × (told.new ≡ true)) ⊎ (place.new ≡ place.old) }
{
    if end > log.len() as u64 || end > LENGTHS - STEP {
        return BAD_PLACE;
    }
    let mut joined = Vec::new(alloc);
    let Ok(found) = first_told(log, end, last, &mut joined) else {
        return OUT_OF_MEMORY;
    };
    store(found, told, place);
    OK
}

/// Stores whether a batch has a mark, and then the number of bytes before the batch's record that weren't durable for certain when
/// it was written.
#[unsafe(no_mangle)]
pub extern "C" fn ucstore_log_mark(batch: &[u8], marked: &mut bool, unsynced: &mut u64) -> i32
    ensures stored { IsStored (marks.mark_of batch.now) marked.new unsynced.new }
    ensures untold { (marked.new ≡ true) ⊎ (unsynced.new ≡ unsynced.old) }
    ensures ok { result ≡ OK }
{
    store(mark_of(batch), marked, unsynced);
    OK
}

/// Copies the bytes of a mark into the buffer, and stores their number. They go right after a batch's header, and tell how many bytes
/// before its record aren't durable for certain. If they don't fit, only their number is stored. Fails if `unsynced` is 2^63 or
/// more, or if allocation fails.
#[unsafe(no_mangle)]
pub extern "C" fn ucstore_log_mark_bytes(
    alloc: Global,
    unsynced: u64,
    room: &mut [u8],
    size: &mut usize,
) -> i32
    ensures { LaysMark result unsynced room.old room.new size.old size.new }
{
    if unsynced >= LENGTHS {
        return BAD_PLACE;
    }
    match mark_bytes(alloc, unsynced) {
        Ok(bytes) => lay(bytes.as_slice(), room, size),
        Err(_) => OUT_OF_MEMORY,
    }
}

/// Stores whether there is a number, and the number if there is one.
fn store(found: Option<u64>, flag: &mut bool, number: &mut u64)
    ensures stored { IsStored found flag.new number.new }
    ensures untold { (flag.new ≡ true) ⊎ (number.new ≡ number.old) }
{
    match found {
        Some(told) => {
            *flag = true;
            *number = told;
        }
        None => *flag = false,
    }
}
