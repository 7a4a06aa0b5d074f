//! [`runs_found_in`]: the run files of a folder that an opening reads.
ghost use Rattle.std.specs.Prelude.{◌≡◌, not};
ghost use Rattle.uc_run_folder.specs.Listing as listing;
ghost use Rattle.uc_run_folder.specs.Steps.{has_run};

use crate::run_folder::has_run;

/// The greatest number that a run may have, so that a number follows it.
const LAST: u64 = (1 << 63) - 2;

/// A folder whose runs can't be opened.
#[derive(Debug, Clone, Copy, PartialEq, Eq)]
pub enum RunFault {
    /// The number of a run that the list names and the folder doesn't have: the opening is rejected.
    Missing(u64),
    /// The number of a run after which no number is left: the opening is rejected.
    Spent(u64),
}

/// The number of the next run of a folder that lists some run files, in any order, where the list that is read names the runs in `named`:
/// it is above all of these. The files of other runs are orphans ([`is_orphan`]), which may be removed.
///
/// An `Err` names a run that is missing: the first one of the list. Or it names a run with the greatest number, which is too large.
pub fn runs_found_in(named: &[u64], listed: &[u64]) -> Result<u64, RunFault>
    ensures { listing.AreFound named.now listed.now result }
{
    if let Some(run) = missing_in(named, listed) {
        return Err(RunFault::Missing(run));
    }
    let last = greatest_in(listed);
    if last > LAST {
        return Err(RunFault::Spent(last));
    }
    Ok(last + 1)
}

/// Whether the list that is read doesn't name a run.
pub fn is_orphan(run: u64, named: &[u64]) -> bool
    ensures { result ≡ not (has_run run named.now) }
{
    !has_run(run, named)
}

/// The first run of a list that isn't there.
fn missing_in(named: &[u64], listed: &[u64]) -> Option<u64>
    ensures { result ≡ listing.missing_in named.now listed.now }
{
    named.iter().copied().find(|run| !has_run(*run, listed))
}

/// The greatest number of a run; 0 if there is none.
fn greatest_in(listed: &[u64]) -> u64
    ensures { result ≡ listing.greatest_in listed.now }
{
    listed.iter().fold(0, |most, run| most.max(*run))
}
