//! Logs that C keeps in its files: a walk over one.
ghost use Rattle.std.specs.Prelude.{◌≡◌, ◌⊎◌, ◌<◌, ◌≤◌, length};
ghost use Rattle.uc_batch.specs.Log.{log_writes};
ghost use Rattle.uc_c.specs.declared.status.TheConstants.{OK, ROOM, LOG_ENDS};
ghost use Rattle.uc_c.specs.LogWalk.{ahead_of, start, Walks};
ghost use Rattle.uc_c.specs.Room.{filled};

use crate::c_ended::CEnded;
use crate::c_log_place::CLogPlace;
use crate::log_step::{LaidWrites, LogStep, step_from};
use crate::room::fill;
use crate::status::{BAD_PLACE, LOG_ENDS, OK, OUT_OF_MEMORY, ROOM};
use std::alloc::Global;

/// Advances a position in a log past the next batch, and encodes its writes into the buffer, one after the other: 8 bytes for the
/// sequence number, low byte first, 1 for the tag of the operation, 8 for the length of the first byte string, its bytes, 8 for the
/// length of the second, and its bytes. Stores the number of writes and the number of bytes.
///
/// If they don't fit the buffer, the position stays, and only the size is stored. If the log ends there, or the next batch isn't
/// valid, the position stays too, and how far the log was read is stored. Fails if the position has more batches than bytes before
/// it or is past the end of the log, or if allocation fails.
#[unsafe(no_mangle)]
pub extern "C" fn ucstore_log_next(
    alloc: Global,
    log: &[u8],
    place: &mut CLogPlace,
    room: &mut [u8],
    size: &mut usize,
    count: &mut u64,
    ended: &mut CEnded,
) -> i32
    ensures walks { Walks result log.now place.old place.new room.old room.new size.new count.new ended.new }
    // A walk goes over the writes that a store opened from the log has.
    ensures begins { place.old ≡ start → ahead_of log.now place.old ≡ log_writes log.now }
    ensures untold { (result ≡ OK)
        ⊎ ((place.new ≡ place.old) × (room.new ≡ room.old) × (count.new ≡ count.old)) }
    ensures size_untold { (result ≡ OK) ⊎ ((result ≡ ROOM) ⊎ (size.new ≡ size.old)) }
    ensures ended_untold { (result ≡ LOG_ENDS) ⊎ (ended.new ≡ ended.old) }
{
    if place.batches > place.offset || place.offset > log.len() as u64 {
        return BAD_PLACE;
    }
    match step_from(alloc, log, *place) {
        Ok(LogStep::Batch(laid, behind)) => show(&laid, behind, place, room, size, count),
        Ok(LogStep::Ended(found)) => {
            *ended = CEnded::of(found);
            LOG_ENDS
        }
        Err(_) => OUT_OF_MEMORY,
    }
}

/// Copies bytes into the buffer, if they fit, and stores their number.
pub(crate) fn lay(bytes: &[u8], room: &mut [u8], size: &mut usize) -> i32
    ensures size { size.new ≡ length bytes.now }
    ensures fits { length bytes.now ≤ length room.old →
        (result ≡ OK) × (room.new ≡ filled bytes.now room.old) }
    ensures lacks { length room.old < length bytes.now → (result ≡ ROOM) × (room.new ≡ room.old) }
{
    *size = bytes.len();
    if bytes.len() > room.len() {
        return ROOM;
    }
    fill(room, bytes);
    OK
}

/// Encodes writes into the buffer, and moves the place after them, if they fit.
fn show(
    laid: &LaidWrites,
    behind: CLogPlace,
    place: &mut CLogPlace,
    room: &mut [u8],
    size: &mut usize,
    count: &mut u64,
) -> i32
    ensures size { size.new ≡ length laid.now.bytes.items }
    ensures fits { length laid.now.bytes.items ≤ length room.old →
        (result ≡ OK) × (place.new ≡ behind)
        × (room.new ≡ filled laid.now.bytes.items room.old) × (count.new ≡ laid.now.count) }
    ensures lacks { length room.old < length laid.now.bytes.items →
        (result ≡ ROOM) × (place.new ≡ place.old) × (room.new ≡ room.old) × (count.new ≡ count.old) }
{
    let status = lay(laid.bytes.as_slice(), room, size);
    if status == OK {
        *count = laid.count;
        *place = behind;
    }
    status
}
