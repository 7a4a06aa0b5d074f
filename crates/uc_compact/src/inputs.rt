//! The runs that may be compacted together.
ghost use Rattle.std.specs.Prelude.{◌≡◌, ◌↔◌, IsTrue, IfOk, map};
ghost use Rattle.std.specs.Arc.{arc_value};
ghost use Rattle.uc_compact.specs.Inputs.{AreRuns, AreNewestFirst, Stand, low_of, high_of};

use crate::keeps_rise;
use std::alloc::{AllocError, Global};
use std::sync::Arc;
use uc_run::Run;

/// Each is a run. This fact costs a look at each.
pub(crate) fn are_runs(inputs: &[Arc<Run>])
    ensures { AreRuns (map arc_value inputs.now) }
{
    for run in inputs {
        run.recall();
    }
}

/// Whether the sequences of each run are all above those of the runs after it.
fn are_newest_first(inputs: &[Arc<Run>]) -> bool
    ensures { IsTrue result ↔ AreNewestFirst (map arc_value inputs.now) }
{
    are_runs(inputs);
    inputs.is_sorted_by(|newer, older| newer.low_seq() > older.high_seq())
}

/// Whether runs may be compacted together: there is at least one, the sequences of each are all above those of the runs
/// after it, and the keeps rise.
pub fn inputs_stand(inputs: &[Arc<Run>], keeps: &[u64]) -> bool
    ensures { IsTrue result ↔ Stand (map arc_value inputs.now) keeps.now }
{
    !inputs.is_empty() && are_newest_first(inputs) && keeps_rise(keeps)
}

/// The least sequence of the runs' range; 0 if there is no run.
pub(crate) fn low_seq(inputs: &[Arc<Run>]) -> u64
    ensures { result ≡ low_of (map arc_value inputs.now) }
{
    match inputs.last() {
        None => 0,
        Some(oldest) => oldest.low_seq(),
    }
}

/// The greatest sequence of the runs' range; 0 if there is no run.
pub(crate) fn high_seq(inputs: &[Arc<Run>]) -> u64
    ensures { result ≡ high_of (map arc_value inputs.now) }
{
    match inputs.first() {
        None => 0,
        Some(newest) => newest.high_seq(),
    }
}

/// Shares of the runs.
pub(crate) fn shared(alloc: Global, inputs: &[Arc<Run>]) -> Result<Vec<Arc<Run>>, AllocError>
    ensures { IfOk result (λ copies. map arc_value copies.items ≡ map arc_value inputs.now) }
{
    let mut copies = Vec::new(alloc);
    for run in inputs {
        copies.push(run.clone()?)?;
    }
    Ok(copies)
}
