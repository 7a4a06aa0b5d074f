//! The places of given runs in a version.
ghost use Rattle.std.specs.Prelude.{◌≡◌, ◌≢◌, ◌+◌, ◌≤◌, ◌↔◌, ℕ, IsTrue, IfSome, IfNone, length};
ghost use Rattle.uc_version_state.specs.Versions.{ids_of};
ghost use Rattle.uc_version_state.specs.Installs as installs;
ghost use Rattle.uc_version_state.specs.Installs.{part_of};

use crate::placed::Placed;
use crate::version::Version;

/// The number of runs before the one with an id; all if none has it.
pub(crate) fn place_of(runs: &[Placed], id: u64) -> usize
    ensures place { result ≡ installs.place_of id runs.now }
    ensures within { result ≤ length runs.now }
{
    for (place, placed) in runs.iter().enumerate() {
        if placed.id() == id {
            return place;
        }
    }
    runs.len()
}

/// The newest of some ids; 0 if there is none.
pub(crate) fn newest_id(ids: &[u64]) -> u64
    ensures { result ≡ installs.newest_id ids.now }
{
    ids.first().map_or(0, |id| *id)
}

/// `count` runs after the first ones, as far as they are there.
fn part(runs: &[Placed], first: usize, count: usize) -> &[Placed]
    requires { first ≤ length runs.now }
    ensures { result.now ≡ part_of first count runs.now }
{
    let behind = &runs[first..];
    let count = count.min(behind.len());
    &behind[..count]
}

/// Whether the runs have these ids, in this order.
fn have_ids(runs: &[Placed], ids: &[u64]) -> bool
    ensures { IsTrue result ↔ (ids_of runs.now ≡ ids.now) }
{
    if runs.len() != ids.len() {
        return false;
    }
    for (place, placed) in runs.iter().enumerate() {
        if placed.id() != ids[place] {
            return false;
        }
    }
    true
}

/// Whether the runs with these ids are neighbours in this order, from the one with the newest id on.
pub(crate) fn are_in_place(runs: &[Placed], ids: &[u64]) -> bool
    ensures { IsTrue result ↔ (ids_of (installs.standing ids.now runs.now) ≡ ids.now) }
{
    let place = place_of(runs, newest_id(ids));
    have_ids(part(runs, place, ids.len()), ids)
}

impl Version {
    /// The place of the runs with these ids as neighbours in this order: the number of runs before them. It doesn't
    /// allocate.
    pub fn place_of(&self, ids: &[u64]) -> Option<usize>
        ensures some { IfSome result (λ first.
            (first + length ids.now ≤ length self.now.runs)
            × (ids_of (part_of first (length ids.now) self.now.runs) ≡ ids.now)) }
        ensures none { IfNone result ((first : ℕ) → ids_of (part_of first (length ids.now) self.now.runs) ≢ ids.now) }
    {
        self.recall();
        let runs = self.runs();
        if are_in_place(runs, ids) {
            Some(place_of(runs, newest_id(ids)))
        } else {
            None
        }
    }
}
