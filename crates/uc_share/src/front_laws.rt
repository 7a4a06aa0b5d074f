//! Laws about a store's history and about the part of it that was seen.
ghost use Rattle.std.specs.Prelude.{◌≡◌, ◌++◌, List, Contains, fold};
ghost use Rattle.std.specs.List.{AllByRecursion};
ghost use mathlib.Core.List.{IsPrefix};
ghost use Rattle.uc_version_state.specs.Versions.{PlacedRun, Stored, IsVersion, ids_of};
ghost use Rattle.uc_version_state.specs.Installs.{standing};
ghost use Rattle.uc_version_state.specs.Refusals.{AreInPlace};
ghost use Rattle.uc_version_state.specs.declared.event.Event.{Event};
ghost use Rattle.uc_version_state.specs.Histories.{MayFollow, after, History, IsLegal, all_ids_replaced, version_after};
ghost use Rattle.uc_claims.specs.Holding.{AreDistinct};

use uc_oper::Operator;
use uc_version_state::runs_are_replaced_once;

/// The events that were seen go after every legal history with which the store was opened: the longer history is legal, and the version
/// after it is the one that those events lead to.
pub fn fronts_go_behind_histories<O: Operator>()
    ensures legal { (h : History) (base : Stored) (events : List Event) → IsLegal O.meaning h →
        version_after h ≡ base → MayFollow O.meaning base events →
        IsLegal O.meaning (record h { events = h.events ++ events }) }
    ensures after { (h : History) (base : Stored) (events : List Event) → version_after h ≡ base →
        version_after (record h { events = h.events ++ events }) ≡ fold after base events }
{}

/// No run is replaced twice, in no front: after every legal history with which the store was opened, the ids of all runs that the
/// events of a front replace are distinct, and they were replaced by none before.
pub fn fronts_replace_runs_once<O: Operator>()
    ensures { (h : History) (base : Stored) (events : List Event) → IsLegal O.meaning h →
        version_after h ≡ base → MayFollow O.meaning base events →
        AreDistinct (all_ids_replaced (record h { events = h.events ++ events })) }
{
    fronts_go_behind_histories::<O>();
    runs_are_replaced_once::<O>();
}

/// Claimed runs stand as they were: if runs with their ids stand as neighbours in a version that comes later in the store's
/// history, these are the claimed runs, with their contents. So no point has to be looked at to know it.
pub fn claimed_runs_stay_the_same<O: Operator>()
    ensures { (base : Stored) (seen now : List Event) (claimed : List PlacedRun) → IsVersion (fold after base seen) →
        IsPrefix seen now → AllByRecursion (λ run. Contains (fold after base seen).runs run) claimed →
        AreInPlace (fold after base now) (ids_of claimed) →
        standing (ids_of claimed) (fold after base now).runs ≡ claimed }
{}
