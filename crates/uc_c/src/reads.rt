//! Reads of a transaction that C holds: keys, and ranges as far as they were walked.
ghost use Rattle.std.specs.Prelude.{◌≡◌, None, Some, [], IfOk, IfErr, length, option_map, if◌then◌else◌};
ghost use Rattle.uc_serial.specs.declared.read.Read.TheVariants.{Key, Range};
ghost use Rattle.uc_c.specs.Transactions.{Notes, reads_held};
ghost use Rattle.uc_c.specs.declared.status.TheConstants.{OK};

use crate::scanning::bound;
use crate::status::{OK, OUT_OF_MEMORY};
use std::alloc::{AllocError, Global};
use uc_engine::{Read, ReadSet};
use uc_handle::ReadsHandle;

/// The reads that were taken out of their handle.
pub fn reads_of(held: &Option<Box<ReadSet>>) -> &[Read]
    ensures { result.now ≡ reads_held (option_map (λ b. b.value) held.now) }
{
    match held {
        Some(reads) => reads.as_slice(),
        None => &[],
    }
}

/// Puts reads back into their handle, if there were any.
pub fn put_back(reads: &mut ReadsHandle, held: Option<Box<ReadSet>>)
    requires { reads.old.held ≡ None }
    ensures { reads.new.held ≡ option_map (λ b. b.value) held }
{
    match held {
        Some(held) => reads.put(held),
        None => {}
    }
}

/// Takes the reads out of their handle, or makes none in a box.
fn take(alloc: Global, reads: &mut ReadsHandle) -> Result<Box<ReadSet>, AllocError>
    ensures taken { IfOk result (λ held. held.value ≡ reads_held reads.old.held) }
    ensures left { reads.new.held ≡ None }
    ensures none { IfErr result (λ _. reads.old.held ≡ None) }
{
    match reads.take(alloc) {
        Some(held) => Ok(held),
        None => match Box::new(alloc, ReadSet::new(alloc)) {
            Ok(held) => Ok(held),
            Err(_) => Err(AllocError),
        },
    }
}

/// Notes that a key was read. Fails if allocation fails.
#[unsafe(no_mangle)]
pub extern "C" fn ucstore_reads_key(alloc: Global, reads: &mut ReadsHandle, key: &[u8]) -> i32
    ensures { Notes result reads.old.held reads.new.held (Key key.now) }
{
    let Ok(mut held) = take(alloc, reads) else {
        return OUT_OF_MEMORY;
    };
    let done = held.push_key(alloc, key);
    reads.put(held);
    match done {
        Ok(()) => OK,
        Err(_) => OUT_OF_MEMORY,
    }
}

/// Notes that the keys from `low` to below `high`, or to the last one if they aren't bounded, were walked over. Fails if allocation
/// fails.
#[unsafe(no_mangle)]
pub extern "C" fn ucstore_reads_range(
    alloc: Global,
    reads: &mut ReadsHandle,
    low: &[u8],
    high: &[u8],
    bounded: bool,
) -> i32
    ensures { Notes result reads.old.held reads.new.held (Range low.now (if bounded then Some high.now else None)) }
{
    let Ok(high) = bound(alloc, high, bounded) else {
        return OUT_OF_MEMORY;
    };
    let Ok(mut held) = take(alloc, reads) else {
        return OUT_OF_MEMORY;
    };
    let done = held.push_range(alloc, low, high);
    reads.put(held);
    match done {
        Ok(()) => OK,
        Err(_) => OUT_OF_MEMORY,
    }
}

/// Removes the reads, and keeps the memory that their list had.
#[unsafe(no_mangle)]
pub extern "C" fn ucstore_reads_clear(alloc: Global, reads: &mut ReadsHandle) -> i32
    ensures ok { result ≡ OK }
    ensures none { reads_held reads.new.held ≡ [] }
{
    if let Some(mut held) = reads.take(alloc) {
        held.clear();
        reads.put(held);
    }
    OK
}

/// The number of reads.
#[unsafe(no_mangle)]
pub extern "C" fn ucstore_reads_count(
    alloc: Global,
    reads: &mut ReadsHandle,
    count: &mut usize,
) -> i32
    ensures ok { result ≡ OK }
    ensures count { count.new ≡ length (reads_held reads.old.held) }
    ensures stays { reads.new.held ≡ reads.old.held }
{
    let held = reads.take(alloc);
    *count = reads_of(&held).len();
    put_back(reads, held);
    OK
}

/// Frees the reads. There are none then.
#[unsafe(no_mangle)]
pub extern "C" fn ucstore_reads_close(alloc: Global, reads: &mut ReadsHandle) -> i32
    ensures ok { result ≡ OK }
    ensures none { reads.new.held ≡ None }
{
    let _held = reads.take(alloc);
    OK
}
