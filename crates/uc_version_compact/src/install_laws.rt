//! Laws about installs in place of claimed runs.
ghost use Rattle.std.specs.Prelude.{◌≡◌, ◌≤◌, ◌<◌, ◌+◌, ◌++◌, ◌∷◌, ◌⊎◌, List, [], fold, length};
ghost use Rattle.uc_compact.specs.Inputs.{Compaction, Stand};
ghost use Rattle.uc_version_state.specs.declared.stretch.Stretch.{Stretch};
ghost use Rattle.uc_version_state.specs.Versions.{PlacedRun, Stored, IsVersion, contents_of, ids_of};
ghost use Rattle.uc_version_state.specs.Courses.{LookApart, LookThen, noted_at};
ghost use Rattle.uc_version_state.specs.Installs.{MayInstall, IdLeft, installed, standing};
ghost use Rattle.uc_version_state.specs.Openings.{Opening, opened};
ghost use Rattle.uc_version_state.specs.Refusals.{AreInPlace};
ghost use Rattle.uc_version_state.specs.declared.event.Event.{Event};
ghost use Rattle.uc_version_state.specs.declared.event.Event.TheVariants.{Installed};
ghost use Rattle.uc_version_state.specs.Histories.{MayFollow, after, version_after};
ghost use Rattle.uc_version_compact.specs.declared.install_error.InstallError.{InstallError};
ghost use Rattle.uc_version_compact.specs.declared.install_error.InstallError.TheVariants.{Stale, IdsSpent};
ghost use Rattle.uc_version_compact.specs.Compacting.{runs_at, compaction_at, IsInstallable, IsNotInstallable};
ghost use Rattle.uc_version_compact.specs.Compacting.{install_for};

use uc_oper::Operator;
use uc_version_state::{opening_gives_a_version, two_compactors_install_beside_others};

/// If a version still has the claimed runs under their ids, and a compaction of them is installable there, its install
/// is an event that may happen to that version.
pub fn what_fits_may_be_installed<O: Operator>()
    ensures { (v : Stored) (claimed : List PlacedRun) (made : Compaction) → 2 ≤ length claimed →
        Stand made.inputs made.keeps →
        contents_of (standing (ids_of claimed) v.runs) ≡ contents_of claimed → IsInstallable v claimed made →
        MayInstall O.meaning v (install_for O.meaning claimed made) }
{}

/// The run that a stretch of a version was compacted to may be installed at any later time while its runs are there as neighbours,
/// if an id is left. Feeds, keeps, releases and installs of others may come between. Only missing runs can make it fail: it has
/// each keep that it must have, and if it was made for the oldest run, no run comes after its own.
pub fn own_compactions_stay_installable<O: Operator>()
    ensures may { (v : Stored) (s : Stretch) (events : List Event) → IsVersion v →
        0 < s.count → s.first + s.count ≤ length v.runs → MayFollow O.meaning v events →
        AreInPlace (fold after v events) (ids_of (runs_at v s)) → IdLeft (fold after v events) →
        IsInstallable (fold after v events) (runs_at v s) (compaction_at v s) }
    ensures refused { (v : Stored) (s : Stretch) (events : List Event) (error : InstallError) → IsVersion v →
        0 < s.count → s.first + s.count ≤ length v.runs → MayFollow O.meaning v events →
        IsNotInstallable (fold after v events) (runs_at v s) (compaction_at v s) error →
        (error ≡ Stale) ⊎ (error ≡ IdsSpent) }
    ensures in_place { (v : Stored) (s : Stretch) (events : List Event) (error : InstallError) → IsVersion v →
        0 < s.count → s.first + s.count ≤ length v.runs → MayFollow O.meaning v events →
        AreInPlace (fold after v events) (ids_of (runs_at v s)) →
        IsNotInstallable (fold after v events) (runs_at v s) (compaction_at v s) error →
        (error ≡ IdsSpent) × ¬ IdLeft (fold after v events) }
{}

/// Two compactors that look at two stretches of an opening that share no run, and compact them under its keeps, install what they
/// made, the one and then the other, whatever was fed, kept and released since they looked, if an id is left for each.
pub fn two_own_compactions_install_beside_others<O: Operator>()
    ensures { (o : Opening) (s t : Stretch) (meanwhile : List Event) →
        let v = version_after (record { opening = o; events = meanwhile }) in
        let i = install_for O.meaning (noted_at o s) (compaction_at (opened o) s) in
        let j = install_for O.meaning (noted_at o t) (compaction_at (opened o) t) in
        LookApart O.meaning o s t meanwhile → IdLeft v → IdLeft (installed i v) →
        LookThen O.meaning o (noted_at o s ∷ noted_at o t ∷ []) (meanwhile ++ Installed i ∷ Installed j ∷ []) }
{
    opening_gives_a_version();
    two_compactors_install_beside_others();
    own_compactions_stay_installable::<O>();
}
