//! Inputs of `ask`: queries, and a log of changes.
use std::alloc::Global;
use std::slice;
use uc_batch::{fits_batch, write_batch};
use uc_bytes::OpRef;
use uc_logrec::LogWriter;

/// Queries of all keys.
const HEAD: &[u8] = b"get 6b last\nget 6c last\nget 6d last\nlog\n";

/// Returns a change of the log, by its number.
fn change(number: u64) -> OpRef<'static> {
    match number % 3 {
        1 => OpRef::put(b"k", b"a"),
        2 => OpRef::merge(b"l", b"b"),
        _ => OpRef::delete(b"m"),
    }
}

/// Appends the batch of a change to a log.
fn add_change(alloc: Global, log: &mut LogWriter, number: u64) -> Option<()> {
    let op = change(number).to_op(alloc).ok()?;
    if !fits_batch(number, slice::from_ref(&op)) {
        return None;
    }
    let payload = write_batch(alloc, number, slice::from_ref(&op)).ok()?;
    log.add(payload.as_slice()).ok()
}

/// Returns a log of changes, numbered from 1.
fn log_of(alloc: Global, changes: u64) -> Option<Vec<u8>> {
    let mut log = LogWriter::new(alloc);
    for number in 0..changes {
        add_change(alloc, &mut log, number.saturating_add(1))?;
    }
    Some(log.finish())
}

/// Returns the queries, and then a log of changes.
pub(crate) fn input_of(alloc: Global, changes: u64) -> Option<Vec<u8>> {
    let log = log_of(alloc, changes)?;
    let mut input = Vec::from_slice(alloc, HEAD).ok()?;
    input.extend_from_slice(log.as_slice()).ok()?;
    Some(input)
}

/// Returns the answers from a log of no, three or twenty changes.
pub(crate) fn answers_of(changes: u64) -> &'static [u8] {
    match changes {
        0 => b"none\nnone\nnone\n",
        20 => b"value 61\nvalue 622c622c622c622c622c622c62\nnone\n",
        _ => b"value 61\nvalue 62\nnone\n",
    }
}
