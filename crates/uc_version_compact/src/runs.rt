//! Stretches of runs.
ghost use Rattle.std.specs.Prelude.{◌≡◌, ◌+◌, ◌≤◌, Some, None, IfOk, IfErr, length, map, take};
ghost use Rattle.std.specs.Arc.{arc_value};
ghost use Rattle.uc_claims.specs.declared.table.TheConstants.{MOST_SLOTS};
ghost use Rattle.uc_version_state.specs.Versions as versions;
ghost use Rattle.uc_version_state.specs.Versions.{contents_of, ids_of};
ghost use Rattle.uc_version_state.specs.Installs.{part_of};
ghost use Rattle.uc_version_compact.specs.Ranges.{range_refusal};
ghost use Rattle.uc_version_compact.specs.Compacting.{runs_at};

use crate::claim_error::ClaimError;
use std::alloc::{AllocError, Global};
use std::sync::Arc;
use uc_claims::MOST_SLOTS;
use uc_run::Run;
use uc_version_state::{Placed, Stretch, Version};

/// The runs of a stretch, if there are at least two and all are there.
pub fn runs_of(runs: &[Placed], stretch: Stretch) -> Result<&[Placed], ClaimError>
    ensures ok { IfOk result (λ part.
        (range_refusal (length runs.now) stretch ≡ None)
        × (part.now ≡ part_of stretch.first stretch.count runs.now)) }
    ensures err { IfErr result (λ error. range_refusal (length runs.now) stretch ≡ Some error) }
{
    if runs.len() < stretch.first || runs.len() - stretch.first < stretch.count {
        return Err(ClaimError::OutOfRange);
    }
    if stretch.count < 2 {
        return Err(ClaimError::TooNarrow);
    }
    Ok(&runs[stretch.first..stretch.first + stretch.count])
}

/// The runs of a stretch.
pub fn stretch_runs(version: &Version, stretch: Stretch) -> &[Placed]
    requires { stretch.first + stretch.count ≤ length version.now.runs }
    ensures { result.now ≡ runs_at version.now stretch }
{
    &version.runs()[stretch.first..stretch.first + stretch.count]
}

/// Shares of the runs.
pub(crate) fn shared_runs(alloc: Global, runs: &[Placed]) -> Result<Vec<Arc<Run>>, AllocError>
    ensures { IfOk result (λ shared. map arc_value shared.items ≡ contents_of runs.now) }
{
    let mut shared = Vec::with_capacity(alloc, runs.len())?;
    for placed in runs {
        shared.push(placed.run().clone()?)?;
    }
    Ok(shared)
}

/// Their slots; the places after them are ignored.
pub fn slots_of(runs: &[Placed]) -> [usize; MOST_SLOTS]
    requires { length runs.now ≤ MOST_SLOTS }
    ensures { take (length runs.now) result ≡ versions.slots_of runs.now }
{
    let mut slots = [0; MOST_SLOTS];
    for (place, placed) in runs.iter().enumerate() {
        slots[place] = placed.slot();
    }
    slots
}

/// Their ids; the places after them are ignored.
pub fn run_ids(runs: &[Placed]) -> [u64; MOST_SLOTS]
    requires { length runs.now ≤ MOST_SLOTS }
    ensures { take (length runs.now) result ≡ ids_of runs.now }
{
    let mut ids = [0; MOST_SLOTS];
    for (place, placed) in runs.iter().enumerate() {
        ids[place] = placed.id();
    }
    ids
}
