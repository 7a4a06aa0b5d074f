//! [`pick`]: which stretch of a version's runs is compacted next.
ghost use Rattle.std.specs.Prelude.{◌≡◌, ◌≤◌, ◌<◌, false, length, map, slice_index_or, take};
ghost use Rattle.std.specs.List.{AllByRecursion};
ghost use Rattle.uc_claims.specs.declared.table.TheConstants.{MOST_SLOTS};
ghost use Rattle.uc_version_state.specs.Picks.{picked};
ghost use Rattle.uc_version_state.specs.Versions.{slots_of};
ghost use Rattle.uc_version_compact.specs.Picking.{candidate_of, candidates_of};

use uc_claims::MOST_SLOTS;
use uc_version_state::{Candidate, Options, Placed, Stretch, Version, pick_among};

/// A run as the picker sees it.
fn candidate(placed: &Placed, busy: &[bool; MOST_SLOTS]) -> Candidate
    requires { placed.now.slot < MOST_SLOTS }
    ensures { result ≡ candidate_of (λ slot. slice_index_or busy.now slot false) placed.now }
{
    Candidate {
        size: placed.run().size(),
        claimed: busy[placed.slot()],
    }
}

/// The runs as candidates; the places after them are ignored.
fn candidates(runs: &[Placed], busy: &[bool; MOST_SLOTS]) -> [Candidate; MOST_SLOTS]
    requires few { length runs.now ≤ MOST_SLOTS }
    requires below { AllByRecursion (λ slot. slot < MOST_SLOTS) (slots_of runs.now) }
    ensures { take (length runs.now) result ≡ map (candidate_of (λ slot. slice_index_or busy.now slot false)) runs.now }
{
    let mut all = [Candidate {
        size: 0,
        claimed: false,
    }; MOST_SLOTS];
    for (place, placed) in runs.iter().enumerate() {
        all[place] = candidate(placed, busy);
    }
    all
}

/// The neighbouring runs of a version that are compacted next; `busy` has the slots of claimed runs (RocksDB wiki,
/// "Universal Compaction"). It doesn't allocate.
pub fn pick(version: &Version, options: &Options, busy: &[bool; MOST_SLOTS]) -> Option<Stretch>
    ensures { result ≡ picked options.now (candidates_of version.now (λ slot. slice_index_or busy.now slot false)) }
{
    version.recall();
    let runs = version.runs();
    pick_among(options, &candidates(runs, busy)[..runs.len()])
}
