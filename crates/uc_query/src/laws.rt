//! Laws about lists of calls.
ghost use Rattle.std.specs.Prelude.{◌≡◌, ℕ, Some, true, List, length, take};
ghost use Rattle.std.specs.List.{AllByRecursion};
ghost use Rattle.uc_version_state.specs.Histories.{History, IsLegal, version_after, known};
ghost use Rattle.uc_version_state.specs.Versions.{ids_of};
ghost use Rattle.uc_version_state.specs.Installs.{Install, MayInstall, installed};
ghost use Rattle.uc_version.specs.Owners.{IsOwner};
ghost use Rattle.uc_version.specs.Claiming.{Claim};
ghost use Rattle.uc_version.specs.Installing.{claimed_runs};
ghost use Rattle.uc_query.specs.declared.call.Call.{Call};
ghost use Rattle.uc_query.specs.Names.{State, AreHeld, claim_named};
ghost use Rattle.uc_query.specs.Turns.{Rises, has_id, install_turn};
ghost use Rattle.uc_query.specs.Running.{run_of};
ghost use Rattle.uc_query.specs.Answered.{AreAnswered, LeadsTo};

use uc_oper::Operator;
use uc_query_read::histories_keep_answers;
use uc_version::{
    claimable_stretches_can_be_compacted, claims_are_held, claims_can_be_compacted,
    installs_are_events, owners_stay_owners,
};
use uc_version_state::{
    histories_grow_by_events, histories_say_writes_and_keeps, no_refusal_is_leave_to_feed,
};

/// Whatever calls are made to a store, its version is the one after its history so far and some legal events more. What
/// they feed rises, as all [`Writes`](uc_batch::Writes) do.
pub fn calls_extend_histories<O: Operator>()
    ensures { (h : History) (s : State) (calls : List Call) → AllByRecursion Rises calls → IsLegal O.meaning h →
        IsOwner s.owner → AreHeld s.owner s.names →
        s.owner.version ≡ version_after h →
        LeadsTo O.meaning h (run_of O.meaning s calls).state.owner.version }
{
    owners_stay_owners::<O>();
    claims_are_held();
    claims_can_be_compacted();
    installs_are_events::<O>();
    claimable_stretches_can_be_compacted::<O>();
    no_refusal_is_leave_to_feed();
    histories_grow_by_events::<O>();
}

/// An install under a name is an event that replaces the runs that this name claimed.
pub fn installs_replace_what_was_claimed<O: Operator>()
    ensures { (s : State) (name : ℕ) (c : Claim) → IsOwner s.owner → AreHeld s.owner s.names → claim_named s name ≡ Some c →
        has_id s.owner.version ≡ true → (event : Install) × (event.ids ≡ ids_of (claimed_runs s.owner c)) ×
        MayInstall O.meaning s.owner.version event ×
        ((install_turn O.meaning s name (claim_named s name)).state.owner.version ≡ installed event s.owner.version) }
{
    owners_stay_owners::<O>();
    claims_are_held();
    claims_can_be_compacted();
    installs_are_events::<O>();
    claimable_stretches_can_be_compacted::<O>();
    no_refusal_is_leave_to_feed();
}

/// Wherever queries are asked between feeds, snapshots, claims, installs and compactions, they are answered as from the plain
/// writes that the store was given until then, and the sequences that it keeps then. What is fed rises, as all
/// [`Writes`](uc_batch::Writes) do.
pub fn asks_are_answered_from_plain_writes<O: Operator>()
    ensures { (h : History) (s : State) (calls : List Call) → AllByRecursion Rises calls → IsLegal O.meaning h →
        IsOwner s.owner → AreHeld s.owner s.names →
        s.owner.version ≡ version_after h →
        AreAnswered O.meaning (known h) (take (length (run_of O.meaning s calls).replies) calls)
        (run_of O.meaning s calls).replies }
{
    owners_stay_owners::<O>();
    claims_are_held();
    claims_can_be_compacted();
    installs_are_events::<O>();
    claimable_stretches_can_be_compacted::<O>();
    no_refusal_is_leave_to_feed();
    histories_grow_by_events::<O>();
    histories_say_writes_and_keeps::<O>();
    histories_keep_answers::<O>();
}
