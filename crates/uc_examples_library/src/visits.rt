//! Batches that count visits, and the number that was counted.
use anyhow::Result;
use std::alloc::{AllocError, Global};
use uc_store::{Answer, Bytes, Op, Query};

/// The key that is counted under.
pub(crate) const VISITS: &[u8] = b"visits";

/// A batch that counts this many visits.
pub(crate) fn batch_of(alloc: Global, visits: u64) -> Result<Vec<Op>, AllocError> {
    let operand = Bytes::from_slice(alloc, &visits.to_le_bytes())?;
    let op = Op::Merge(Bytes::from_slice(alloc, VISITS)?, operand);
    Ok(vec![in alloc; op]?)
}

/// A lookup of the visits at a sequence.
pub(crate) fn lookup(alloc: Global, at: u64) -> Result<Query, AllocError> {
    Ok(Query::Get {
        key: Bytes::from_slice(alloc, VISITS)?,
        at,
    })
}

/// Two lookups of the visits at a sequence.
pub(crate) fn lookups(alloc: Global, at: u64) -> Result<[Query; 2], AllocError> {
    Ok([lookup(alloc, at)?, lookup(alloc, at)?])
}

/// The number that a value is, or 0 if there is none.
pub(crate) fn number_of(value: &Option<Bytes>) -> Result<u64> {
    match value {
        Some(bytes) => Ok(u64::from_le_bytes(bytes.as_slice().try_into()?)),
        None => Ok(0),
    }
}

/// The number that an answer has.
pub(crate) fn number(answer: &Answer) -> Result<u64> {
    match answer {
        Answer::Value(value) => number_of(value),
        _ => Ok(0),
    }
}
