//! Compactions of a version's runs without claims.
use crate::out::Halt;
use std::alloc::{AllocError, Global};
use std::marker::Sync;
use std::sync::Arc;
use std::thread::Threads;
use uc_compact::{Compacted, compact_by_parts, inputs_stand};
use uc_oper::Operator;
use uc_run::Run;
use uc_version_state::{Placed, Stretch};

/// Number of parts of a compaction.
const PARTS: usize = 3;

/// Returns shares of the runs of a stretch.
pub(crate) fn shares(
    alloc: Global,
    runs: &[Placed],
    stretch: Stretch,
) -> Result<Vec<Arc<Run>>, AllocError> {
    let mut shares = Vec::new(alloc);
    for placed in runs.iter().skip(stretch.first).take(stretch.count) {
        shares.push(placed.run().clone()?)?;
    }
    Ok(shares)
}

/// Compacts a stretch in parts, for these keeps, and as the oldest runs or not.
pub(crate) fn made_by_parts<O: Operator + Sync>(
    rt: &(impl Threads + Sync),
    alloc: Global,
    runs: &[Placed],
    stretch: Stretch,
    (keeps, oldest): (&[u64], bool),
) -> Result<Compacted<O>, Halt> {
    let inputs = shares(alloc, runs, stretch)?;
    if !inputs_stand(&inputs, keeps) {
        return Err(Halt::Refused);
    }
    Ok(compact_by_parts::<O>(rt, alloc, &inputs, keeps, oldest, PARTS)?)
}
