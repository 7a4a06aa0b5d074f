//! [`Asked`]: what is asked of a compaction.
ghost use Rattle.std.specs.Prelude.{◌≡◌, ◌+◌, ◌≤◌, ◌==◌, IfOk, length, map};
ghost use Rattle.std.specs.Arc.{arc_value};
ghost use Rattle.uc_version_compact.specs.Compacting.{compaction_at, size_of_runs};

use crate::runs::{shared_runs, stretch_runs};
use std::alloc::{AllocError, Global};
use std::marker::Model;
use std::sync::Arc;
use uc_compact::{Compacted, Merger, compact_by};
use uc_oper::Operator;
use uc_run::Run;
use uc_version_state::{Stretch, Version};

/// The request for a compaction: shares of the runs, the keeps, and whether the oldest run of all is among them. It holds no
/// version, so it can be carried out anywhere.
#[derive(Drop)]
pub struct Asked {
    inputs: Vec<Arc<Run>>,
    keeps: Vec<u64>,
    oldest: bool,
}

impl Model for Asked {
    ghost use Rattle.uc_compact.specs.Inputs.{Compaction};
    ghost use Rattle.uc_version_compact.specs.Asked.{asked, IsAsked};

    ghost Value = { Compaction };

    ghost view = { asked };

    ghost invariant = { IsAsked };
}

/// Whether the last run of a stretch is the oldest of all.
fn has_oldest(version: &Version, stretch: Stretch) -> bool
    requires { stretch.first + stretch.count ≤ length version.now.runs }
    ensures { result ≡ (stretch.first + stretch.count == length version.now.runs) }
{
    let runs = version.runs().len();
    stretch.first + stretch.count == runs
}

/// The size of runs together in bytes, at most 2^64 - 1.
fn size_of_runs(runs: &[Arc<Run>]) -> u64
    ensures { result ≡ size_of_runs (map arc_value runs.now) }
{
    let mut size = 0_u64;
    for run in runs {
        size = size.saturating_add(run.size());
    }
    size
}

impl Asked {
    /// The request for the compaction of a stretch of a version: under the version's keeps, and with the oldest run exactly if
    /// that is the last of the stretch. It copies no run.
    pub fn of(alloc: Global, version: &Version, stretch: Stretch) -> Result<Asked, AllocError>
        requires two { 2 ≤ stretch.count }
        requires within { stretch.first + stretch.count ≤ length version.now.runs }
        ensures { IfOk result (λ asked. asked ≡ compaction_at version.now stretch) }
    {
        version.recall();
        let inputs = shared_runs(alloc, stretch_runs(version, stretch))?;
        let keeps = version.keeps().to_vec(alloc)?;
        let oldest = has_oldest(version, stretch);
        Ok(Asked {
            inputs,
            keeps,
            oldest,
        })
    }

    /// The size of its runs together in bytes, with 8 for each sequence, at most 2^64 - 1.
    pub fn input_size(&self) -> u64
        ensures { result ≡ size_of_runs self.now.inputs }
    {
        size_of_runs(&self.inputs)
    }

    /// The compaction, by this merger.
    pub fn compact_by<O: Operator, M: Merger<O>>(
        &self,
        merger: &M,
        alloc: Global,
    ) -> Result<Compacted<O>, AllocError>
        requires { M.can_merge merger.now }
        ensures { IfOk result (λ made. made ≡ self.now) }
    {
        compact_by::<O, M>(merger, alloc, &self.inputs, &self.keeps, self.oldest)
    }
}
