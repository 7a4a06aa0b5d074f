//! The compaction of a stretch, and its install.
ghost use Rattle.std.specs.Prelude.{◌≡◌, ◌+◌, ◌≤◌, IfOk, length, map};
ghost use Rattle.std.specs.Arc.{arc_value};
ghost use Rattle.uc_compact.specs.Inputs.{Stand};
ghost use Rattle.uc_version_state.specs.Versions.{ids_of};
ghost use Rattle.uc_version_compact.specs.Compacting.{compaction_at, install_for};

use crate::asked::Asked;
use std::alloc::{AllocError, Global};
use std::marker::Sync;
use std::sync::Arc;
use std::thread::Threads;
use uc_compact::{By, Compacted, Merger, merge_in_threads};
use uc_oper::Operator;
use uc_run::Run;
use uc_version_state::{Install, Placed, Stretch, Version};

/// Compacts a stretch of a version, under its keeps, and with the oldest run exactly if that is the last of them.
pub fn compact_stretch_by<O: Operator, M: Merger<O>>(
    merger: &M,
    alloc: Global,
    version: &Version,
    stretch: Stretch,
) -> Result<Compacted<O>, AllocError>
    requires can { M.can_merge merger.now }
    requires two { 2 ≤ stretch.count }
    requires within { stretch.first + stretch.count ≤ length version.now.runs }
    ensures { IfOk result (λ made. made ≡ compaction_at version.now stretch) }
{
    let asked = Asked::of(alloc, version, stretch)?;
    asked.compact_by::<O, M>(merger, alloc)
}

/// Compacts a stretch of a version as [`compact_stretch_by`] does, in threads.
pub fn compact_stretch<O: Operator + Sync>(
    rt: &(impl Threads + Sync),
    alloc: Global,
    version: &Version,
    stretch: Stretch,
) -> Result<Compacted<O>, AllocError>
    requires two { 2 ≤ stretch.count }
    requires within { stretch.first + stretch.count ≤ length version.now.runs }
    ensures { IfOk result (λ made. made ≡ compaction_at version.now stretch) }
{
    let merger = By(
        |alloc: Global, inputs: &[Arc<Run>], keeps: &[u64], oldest: bool|
            requires { Stand (map arc_value inputs.now) keeps.now }
        { merge_in_threads::<O>(rt, alloc, inputs, keeps, oldest) },
    );
    compact_stretch_by::<O, _>(&merger, alloc, version, stretch)
}

/// The ids of the runs.
fn ids_in(alloc: Global, runs: &[Placed]) -> Result<Vec<u64>, AllocError>
    ensures { IfOk result (λ ids. ids.items ≡ ids_of runs.now) }
{
    let mut ids = Vec::with_capacity(alloc, runs.len())?;
    for placed in runs {
        ids.push(placed.id())?;
    }
    Ok(ids)
}

/// The install that replaces claimed runs by what they were compacted to. It shares the run.
pub fn install_of<O: Operator>(
    alloc: Global,
    claimed: &[Placed],
    made: &Compacted<O>,
) -> Result<Install, AllocError>
    requires { 2 ≤ length claimed.now }
    ensures { IfOk result (λ install. install ≡ install_for O.meaning claimed.now made.now) }
{
    made.recall_standing();
    let ids = ids_in(alloc, claimed)?;
    let keeps = made.keeps().to_vec(alloc)?;
    let output = made.output().clone()?;
    Ok(Install::new(ids, keeps, made.oldest(), output))
}
