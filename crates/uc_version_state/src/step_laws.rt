//! Laws about every course of steps.
ghost use Rattle.std.specs.Prelude.{◌≡◌, ◌≢◌, ◌≤◌, ◌+◌, ℕ, List, [], ◌∷◌, ◌++◌, Contains, length};
ghost use Rattle.uc_oper.specs.Operation.{Operation, IsLawful};
ghost use Rattle.uc_version_state.specs.Versions.{PlacedRun, ids_of};
ghost use Rattle.uc_version_state.specs.Openings.{Opening, MayOpen, opened};
ghost use Rattle.uc_version_state.specs.Installs.{Install, installed, part_of, standing};
ghost use Rattle.uc_version_state.specs.Refusals.{AreInPlace};
ghost use Rattle.uc_version_state.specs.declared.stretch.Stretch.{Stretch};
ghost use Rattle.uc_version_state.specs.declared.event.Event.{Event};
ghost use Rattle.uc_version_state.specs.declared.event.Event.TheVariants.{Installed};
ghost use Rattle.uc_version_state.specs.Histories.{History, IsLegal, MayHappen, version_after};
ghost use Rattle.uc_version_state.specs.Machine.{Checked, IsMadeFor, present, phase_of, slots_held};
ghost use Rattle.uc_version_state.specs.Courses.{Course, IsPossible, machine_after};
ghost use Rattle.uc_version_state.specs.Courses.{LookApart, LookThen, noted_at};

use crate::laws::opening_gives_a_version;
use uc_run::flushed_writes_are_a_run;

/// A checked compactor is never displaced, whatever steps any number of compactors make, in any order, and whatever is
/// fed, kept and released between them. The runs that a checked compactor noted are in the present version, the same, as
/// neighbours and in order. No slot is held by two compactors. Every install that a checked compactor made may happen, so
/// the history is legal.
pub fn never_stale()
    ensures in_place { (m : Operation) (course : Course) (c : ℕ) (noted : List PlacedRun) →
        IsLawful m → IsPossible m course → phase_of c (machine_after course) ≡ Checked noted →
        AreInPlace (present (machine_after course)) (ids_of noted) }
    ensures same { (m : Operation) (course : Course) (c : ℕ) (noted : List PlacedRun) →
        IsLawful m → IsPossible m course → phase_of c (machine_after course) ≡ Checked noted →
        standing (ids_of noted) (present (machine_after course)).runs ≡ noted }
    ensures apart { (m : Operation) (course : Course) (c other slot : ℕ) →
        IsLawful m → IsPossible m course → c ≢ other →
        Contains (slots_held (phase_of c (machine_after course))) slot →
        ¬ Contains (slots_held (phase_of other (machine_after course))) slot }
    ensures may_happen { (m : Operation) (course : Course) (c : ℕ) (noted : List PlacedRun) (i : Install) →
        IsLawful m → IsPossible m course → phase_of c (machine_after course) ≡ Checked noted →
        IsMadeFor m (present (machine_after course)) noted i →
        MayHappen m (present (machine_after course)) (Installed i) }
    ensures legal { (m : Operation) (course : Course) →
        IsLawful m → IsPossible m course → IsLegal m (machine_after course).history }
{
    flushed_writes_are_a_run();
    opening_gives_a_version();
}

/// The machine isn't empty: a compactor alone looks and installs its output, for any stretch of any opening.
pub fn a_lone_compactor_installs()
    ensures { (m : Operation) (o : Opening) (first count : ℕ) (i : Install) → IsLawful m → MayOpen o →
        2 ≤ count → first + count ≤ length (opened o).runs →
        IsMadeFor m (opened o) (part_of first count (opened o).runs) i →
        LookThen m o (part_of first count (opened o).runs ∷ []) (Installed i ∷ []) }
{
    flushed_writes_are_a_run();
    opening_gives_a_version();
}

/// Nor is it empty with concurrent compactors. Two compactors look, with any two stretches of any opening that share no run.
/// Whatever is then fed, kept and released, the one installs its output, and after it the other. The runs of each stay in place
/// until it does. `uc_version_compact::two_own_compactions_install_beside_others` says that these installs may happen.
pub fn two_compactors_install_beside_others()
    ensures installs { (m : Operation) (o : Opening) (s t : Stretch) (meanwhile : List Event) (i j : Install) →
        let history : History = record { opening = o; events = meanwhile } in
        LookApart m o s t meanwhile →
        IsMadeFor m (version_after history) (noted_at o s) i →
        IsMadeFor m (installed i (version_after history)) (noted_at o t) j →
        LookThen m o (noted_at o s ∷ noted_at o t ∷ []) (meanwhile ++ Installed i ∷ Installed j ∷ []) }
    ensures stays { (m : Operation) (o : Opening) (s t : Stretch) (meanwhile : List Event) →
        LookApart m o s t meanwhile →
        AreInPlace (version_after (record { opening = o; events = meanwhile })) (ids_of (noted_at o s)) }
    ensures beside { (m : Operation) (o : Opening) (s t : Stretch) (meanwhile : List Event) (i : Install) →
        let history : History = record { opening = o; events = meanwhile } in
        LookApart m o s t meanwhile → IsMadeFor m (version_after history) (noted_at o s) i →
        IsLegal m (record { opening = o; events = meanwhile ++ Installed i ∷ [] })
        × AreInPlace (installed i (version_after history)) (ids_of (noted_at o t)) }
{
    flushed_writes_are_a_run();
    opening_gives_a_version();
}
