//! [`mark_of`]: the mark of a batch; [`mark_bytes`], its bytes; and [`with_mark`], a batch that has one.
ghost use Rattle.std.specs.Prelude.{◌≡◌, ◌≤◌, ◌<◌, ◌+◌, ◌++◌, drop, length, IfSome, IfOk, OnOk};
ghost use Rattle.uc_log_crash.specs.Marks as marks;
ghost use Rattle.uc_log_crash.specs.Marks.{bound_of, mark_text, number_text};

use std::alloc::{AllocError, Global};

/// The tag of log data in a batch: bytes that are no operation (RocksDB, `write_batch.cc`).
const LOG_DATA: u8 = 3;

/// The first byte of the data of a mark.
const KIND: u8 = b's';

/// The size of a batch's header in bytes.
const HEADER_SIZE: usize = 12;

/// The most bytes of a mark's data.
const MOST_SIZE: usize = 10;

/// The most bytes of a mark.
const MOST_MARK: usize = 12;

/// The number that bytes encode, seven bits in each.
#[tactic(auto, unfolding(crate::specs::Marks::number_in))]
fn number_in(bytes: &[u8]) -> Option<u64>
    requires { length bytes.now ≤ 9 }
    ensures value { result ≡ marks.number_in bytes.now }
    ensures small { IfSome result (λ number. number < bound_of (length bytes.now)) }
{
    let [first, rest @ ..] = bytes else {
        return None;
    };
    let low = u64::from(*first);
    if rest.is_empty() {
        return if low < 128 { Some(low) } else { None };
    }
    if low < 128 {
        return None;
    }
    let high = number_in(rest)?;
    Some(low - 128 + 128 * high)
}

/// The mark in the records of a batch.
#[tactic(auto, unfolding(crate::specs::Marks::mark_in))]
fn mark_in(records: &[u8]) -> Option<u64>
    ensures { result ≡ marks.mark_in records.now }
{
    let [tag, size, kind, rest @ ..] = records else {
        return None;
    };
    let size = usize::from(*size);
    if *tag != LOG_DATA || *kind != KIND || size < 1 || size > MOST_SIZE || size - 1 > rest.len() {
        return None;
    }
    number_in(&rest[..size - 1])
}

/// The mark of a batch: the number of bytes before its record that weren't on the device for certain when it was written. None if the
/// batch has no mark.
pub fn mark_of(payload: &[u8]) -> Option<u64>
    ensures value { result ≡ marks.mark_of payload.now }
    ensures long { IfSome result (λ _. 12 ≤ length payload.now) }
{
    match payload.get(HEADER_SIZE..) {
        Some(records) => mark_in(records),
        None => None,
    }
}

/// The number of bytes that [`push_number`] pushes.
#[tactic(auto, unfolding(crate::specs::Marks::number_text))]
fn number_size(more: u32, number: u64) -> u8
    requires { more ≤ 8 }
    ensures size { result ≡ length (number_text more number) }
    ensures small { result ≤ 1 + more }
{
    if more == 0 {
        return 1;
    }
    if number < 128 {
        return 1;
    }
    1 + number_size(more - 1, number / 128)
}

/// Pushes the bytes of a number, at most this many after the first.
#[tactic(auto, unfolding(crate::specs::Marks::number_text))]
fn push_number(bytes: &mut Vec<u8>, more: u32, number: u64) -> Result<(), AllocError>
    requires { number < bound_of (1 + more) }
    ensures { OnOk result (bytes.new.items ≡ bytes.old.items ++ number_text more number) }
{
    if more == 0 {
        bytes.push(number as u8)?;
        return Ok(());
    }
    if number < 128 {
        bytes.push(number as u8)?;
        return Ok(());
    }
    bytes.push(128 + (number % 128) as u8)?;
    push_number(bytes, more - 1, number / 128)
}

/// Pushes the records of a mark.
fn push_mark(bytes: &mut Vec<u8>, unsynced: u64) -> Result<(), AllocError>
    requires { unsynced < 9223372036854775808 }
    ensures { OnOk result (bytes.new.items ≡ bytes.old.items ++ mark_text unsynced) }
{
    bytes.push(LOG_DATA)?;
    bytes.push(1 + number_size(8, unsynced))?;
    bytes.push(KIND)?;
    push_number(bytes, 8, unsynced)
}

/// The records of a mark, which go right after a batch's header: this many bytes before its record aren't on the device for certain.
pub fn mark_bytes(alloc: Global, unsynced: u64) -> Result<Vec<u8>, AllocError>
    requires { unsynced < 9223372036854775808 }
    ensures { IfOk result (λ bytes. bytes.items ≡ mark_text unsynced) }
{
    let mut bytes = Vec::with_capacity(alloc, MOST_MARK)?;
    push_mark(&mut bytes, unsynced)?;
    Ok(bytes)
}

/// A batch with a mark right after its header.
pub fn with_mark(alloc: Global, batch: &[u8], unsynced: u64) -> Result<Vec<u8>, AllocError>
    requires { unsynced < 9223372036854775808 }
    ensures { IfOk result (λ bytes. bytes.items ≡ marks.with_mark batch.now unsynced) }
{
    let mut bytes = Vec::with_capacity(alloc, batch.len().saturating_add(MOST_MARK))?;
    bytes.extend_from_slice(batch.get(..HEADER_SIZE).unwrap_or(batch))?;
    push_mark(&mut bytes, unsynced)?;
    bytes.extend_from_slice(batch.get(HEADER_SIZE..).unwrap_or(&[]))?;
    Ok(bytes)
}
