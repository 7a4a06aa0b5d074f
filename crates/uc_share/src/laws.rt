//! Laws about a store's steps.
ghost use Rattle.std.specs.Prelude.{◌≡◌, ◌⊎◌, ◌↔◌, ◌+◌, ◌<◌, ◌≤◌, List, true, fold, length};
ghost use mathlib.Core.List.{IsPrefix};
ghost use Rattle.uc_compact.specs.Inputs.{Compaction, Stand};
ghost use Rattle.uc_version_state.specs.declared.event.Event.{Event};
ghost use Rattle.uc_version_state.specs.declared.stretch.Stretch.{Stretch};
ghost use Rattle.uc_version_state.specs.Versions.{IsVersion, PlacedRun, Stored, ids_of};
ghost use Rattle.uc_version_state.specs.Refusals.{AreInPlace};
ghost use Rattle.uc_version_state.specs.Histories.{MayFollow, after};
ghost use Rattle.uc_version_compact.specs.Compacting.{IsInstallable, IsNotInstallable, compaction_at, install_for, runs_at};
ghost use Rattle.uc_version_compact.specs.declared.install_error.InstallError.{InstallError};
ghost use Rattle.uc_version_compact.specs.declared.install_error.InstallError.TheVariants.{IdsSpent, Stale};
ghost use Rattle.uc_version_state.specs.Machine.{IsMadeFor, still_stand};

use uc_oper::Operator;
use uc_version_compact::own_compactions_stay_installable;

/// The machine of `uc_version_state`, of which `never_stale` speaks, asks of its steps what this store asks of its own: a look finds
/// claimed runs in place exactly if the machine's does, and an output that may be installed is one that the machine's compactor
/// may publish.
pub fn steps_are_those_of_the_machine<O: Operator>()
    ensures look { (noted : List PlacedRun) (v : Stored) → (still_stand noted v ≡ true) ↔ AreInPlace v (ids_of noted) }
    ensures install { (v : Stored) (noted : List PlacedRun) (made : Compaction) → Stand made.inputs made.keeps →
        IsInstallable v noted made → IsMadeFor O.meaning v noted (install_for O.meaning noted made) }
{}

/// The run that a stretch of a pinned version was compacted to can fail to be installed in a later version of the store's history
/// for two reasons alone: its runs are gone, or run IDs are exhausted. Whatever was fed, kept, released and installed since, it has
/// each keep that it must have, and if it was made for the oldest run, no run comes after its own.
pub fn own_compactions_are_refused_for_two_reasons<O: Operator>()
    ensures { (base : Stored) (seen now : List Event) (s : Stretch) (error : InstallError) → IsVersion (fold after base seen) →
        IsPrefix seen now → MayFollow O.meaning base now →
        0 < s.count → s.first + s.count ≤ length (fold after base seen).runs →
        IsNotInstallable (fold after base now) (runs_at (fold after base seen) s) (compaction_at (fold after base seen) s) error →
        (error ≡ Stale) ⊎ (error ≡ IdsSpent) }
{
    own_compactions_stay_installable::<O>();
}
