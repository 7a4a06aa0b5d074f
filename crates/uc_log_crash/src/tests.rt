//! A log of two batches with marks, written and damaged by hand.
use crate::{first_told, mark_bytes, mark_of};
use std::alloc::Global;
use std::test::Fail;
use uc_logrec::LogWriter;

/// A batch without operations: its sequence, and a mark.
fn batch_of(alloc: Global, sequence: u64, unsynced: u64) -> Result<Vec<u8>, Fail> {
    let mut batch = Vec::new(alloc);
    batch.extend_from_slice(&sequence.to_le_bytes())?;
    batch.extend_from_slice(&[0; 4])?;
    if unsynced < 1 << 62 {
        batch.extend_from_slice(&mark_bytes(alloc, unsynced)?)?;
    }
    Ok(batch)
}

/// A log of a batch at 0 that nothing was on the device before, and of one at 23 that says that the first was.
fn log_of_two(alloc: Global) -> Result<Vec<u8>, Fail> {
    let mut log = LogWriter::new(alloc);
    log.add(&batch_of(alloc, 1, 0)?)?;
    log.add(&batch_of(alloc, 2, 0)?)?;
    Ok(log.finish())
}

/// The first of the two.
fn first_of(log: &[u8]) -> &[u8] {
    log.get(..23).unwrap_or(&[])
}

/// The first place with a batch whose mark says that a log was durable beyond its start.
fn told_in(alloc: Global, log: &[u8]) -> Result<Option<u64>, Fail> {
    Ok(first_told(log, 0, 0, &mut Vec::new(alloc))?)
}

#[test]
fn marks_are_read(rt: HostRuntime) -> Result<(), Fail> {
    let alloc = rt.alloc();
    let read = mark_of(&batch_of(alloc, 1, 300)?) == Some(300);
    let none = mark_of(&batch_of(alloc, 1, u64::MAX)?) == None;
    assert!(rt; read && none);
    Ok(())
}

#[test]
fn later_batch_tells_of_an_earlier_one(rt: HostRuntime) -> Result<(), Fail> {
    let alloc = rt.alloc();
    let log = log_of_two(alloc)?;
    let told = told_in(alloc, &log)? == Some(23);
    let alone = told_in(alloc, first_of(&log))? == None;
    assert!(rt; log.len() == 46 && told && alone);
    Ok(())
}
