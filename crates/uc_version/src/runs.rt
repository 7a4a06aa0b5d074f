//! The runs of held claims.
ghost use Rattle.std.specs.Prelude.{◌≡◌, ◌+◌, ◌≤◌, length};
ghost use Rattle.uc_version_state.specs.Versions.{ids_of};
ghost use Rattle.uc_version_state.specs.Installs as installs;
ghost use Rattle.uc_version.specs.Owners as owners;
ghost use Rattle.uc_version.specs.Owners.{runs_held};

use crate::held_stretch::HeldStretch;
use uc_version_compact::stretch_runs;
use uc_version_state::{Placed, Version};

/// The id of the newest of some runs; 0 if there is none.
pub(crate) fn newest_id(runs: &[Placed]) -> u64
    ensures { result ≡ installs.newest_id (ids_of runs.now) }
{
    runs.first().map_or(0, Placed::id)
}

/// The id of the oldest of some runs; 0 if there is none.
pub(crate) fn last_id(runs: &[Placed]) -> u64
    ensures { result ≡ owners.last_id (ids_of runs.now) }
{
    match runs.last() {
        None => 0,
        Some(oldest) => oldest.id(),
    }
}

/// The runs of a held claim.
pub(crate) fn held_runs<'a>(version: &'a Version, held: &HeldStretch) -> &'a [Placed]
    requires { held.now.first + held.now.count ≤ length version.now.runs }
    ensures { result.now ≡ runs_held version.now held.now }
{
    stretch_runs(version, held.place())
}
