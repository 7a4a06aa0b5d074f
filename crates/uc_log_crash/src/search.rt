//! [`first_told`]: the first batch after a fault that says that the log was on the device there.
ghost use Rattle.std.specs.Prelude.{◌≡◌, ◌<◌, ◌≤◌, ◌^◌, ◌*◌, ◌+◌, ◌-◌, length, IfOk, IfSome};
ghost use Rattle.uc_logrec.specs.Format as format;
ghost use Rattle.uc_logrec.specs.Format.{room};
ghost use Rattle.uc_log_crash.specs.Places as places;
ghost use Rattle.uc_log_crash.specs.Places.{places_from, in_blocks, block_count, all_places, IsFirst};

use crate::telling::tells;
use std::alloc::AllocError;

/// The size of a block in bytes.
const BLOCK_SIZE: u64 = 32_768;

/// The size of a record's header in bytes.
const HEADER_SIZE: u64 = 7;

/// The bytes that a block has from a place on.
fn room_at(place: u64) -> u64
    ensures { result ≡ room place }
{
    BLOCK_SIZE - place % BLOCK_SIZE
}

/// The place after the record at a place, if it is in the same block, and a header fits after it.
#[tactic(auto, unfolding(crate::specs::Places::next_place))]
fn next_place(log: &[u8], place: u64) -> Option<u64>
    requires { place < 2 ^ 63 }
    ensures value { result ≡ places.next_place log.now place }
    ensures less { IfSome result (λ next. room next < room place) }
    ensures small { IfSome result (λ next. next < 2 ^ 63) }
{
    let [_, _, _, _, low, high, code, ..] = log.get(place as usize..)? else {
        return None;
    };
    let length = u64::from(*low) + 256 * u64::from(*high);
    if *code == 0 && length == 0 || 2 * HEADER_SIZE + length > room_at(place) {
        return None;
    }
    Some(place + HEADER_SIZE + length)
}

/// The first place of a block, from one on, with a batch whose mark says that the log was durable beyond `end`.
fn first_in_block(
    log: &[u8],
    end: u64,
    last: u64,
    start: u64,
    joined: &mut Vec<u8>,
) -> Result<Option<u64>, AllocError>
    requires { start < 2 ^ 63 }
    ensures { IfOk result (λ found. IsFirst log.now end last (places_from log.now start) found) }
{
    let mut place = start;
    loop {
        if tells(log, end, last, place, joined)? {
            return Ok(Some(place));
        }
        match next_place(log, place) {
            Some(next) => place = next,
            None => return Ok(None),
        }
    }
}

/// The first place of the blocks, from one on, with a batch whose mark says that the log was durable beyond `end`.
fn first_in_blocks(
    log: &[u8],
    end: u64,
    last: u64,
    begin: u64,
    joined: &mut Vec<u8>,
) -> Result<Option<u64>, AllocError>
    ensures { IfOk result (λ found. IsFirst log.now end last (in_blocks (block_count log.now - begin) log.now begin) found) }
{
    let count = (log.len() as u64 + (BLOCK_SIZE - 1)) / BLOCK_SIZE;
    for block in begin..count {
        if let Some(place) = first_in_block(log, end, last, BLOCK_SIZE * block, joined)? {
            return Ok(Some(place));
        }
    }
    Ok(None)
}

/// The place of a header at a place or after it.
fn header_place(place: u64) -> u64
    requires { place + 8 ≤ 2 ^ 63 }
    ensures value { result ≡ format.header_place place }
    ensures small { result < 2 ^ 63 }
{
    let room = room_at(place);
    if room < HEADER_SIZE {
        place + room
    } else {
        place
    }
}

/// The first place after the last whole batch of a log, which ends at `end` with the sequence `last`, where a batch says that the log
/// was on the device beyond that. If there is one, the log is damaged: a batch that was on the device isn't whole. No crash leaves such
/// a log, as [`crash_is_no_damage`](crate::crash_is_no_damage) says.
///
/// It looks where a batch may begin alone: after records whose lengths are right, and at the starts of blocks, so that no bytes of a value
/// count. It costs a checksum of each record there. The buffer is for batches of several records. After an `Err` the call can be made
/// again.
pub fn first_told(
    log: &[u8],
    end: u64,
    last: u64,
    joined: &mut Vec<u8>,
) -> Result<Option<u64>, AllocError>
    requires { end + 8 ≤ 2 ^ 63 }
    ensures { IfOk result (λ found. IsFirst log.now end last (all_places log.now end) found) }
{
    let place = header_place(end);
    if let Some(found) = first_in_block(log, end, last, place, joined)? {
        return Ok(Some(found));
    }
    first_in_blocks(log, end, last, place / BLOCK_SIZE + 1, joined)
}
