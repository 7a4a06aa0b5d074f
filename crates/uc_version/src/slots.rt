//! The claim words of an owner's runs.
ghost use Rattle.std.specs.Prelude.{◌≡◌, ◌≤◌, ◌<◌, ◌==◌, ◌++◌, ℕ, Some, None, true, false, All, Contains};
ghost use Rattle.std.specs.Prelude.{IfErr, OnOk, length, option_map, slice_index_or};
ghost use Rattle.std.specs.List.{AllByRecursion, list_any};
ghost use Rattle.uc_claims.specs.Holding.{AreDistinct, NoneHeld, without};
ghost use Rattle.uc_claims.specs.declared.table.TheConstants.{MOST_SLOTS};
ghost use Rattle.uc_version_state.specs.Versions as versions;
ghost use Rattle.uc_version.specs.Claiming.{first_busy};
ghost use Rattle.uc_version_compact.specs.declared.claim_error.ClaimError.TheVariants.{Busy};

use uc_claims::{ClaimTable, HeldSlots, MOST_SLOTS};
use uc_version_compact::{ClaimError, slots_of};
use uc_version_state::Placed;

/// Takes the slots of the runs, the newest first, or none of them if one is taken: the first such one is named.
pub(crate) fn claim_slots(
    table: &ClaimTable,
    held: &mut HeldSlots,
    runs: &[Placed],
) -> Result<(), ClaimError>
    requires count { table.now.count ≡ MOST_SLOTS }
    requires table { held.old.table ≡ table.now.table }
    requires whole { held.old.whole ≡ true }
    requires few { length runs.now ≤ MOST_SLOTS }
    requires below { AllByRecursion (λ slot. slot < MOST_SLOTS) (versions.slots_of runs.now) }
    requires distinct { AreDistinct (versions.slots_of runs.now) }
    ensures ok { OnOk result (held.new ≡ record held.old { slots = held.old.slots ++ versions.slots_of runs.now }) }
    ensures apart { OnOk result (NoneHeld (versions.slots_of runs.now) held.old.slots) }
    ensures none { OnOk result (first_busy held.old.slots (versions.slots_of runs.now) ≡ None) }
    ensures err { IfErr result (λ error.
        (held.new ≡ held.old)
        × (option_map Busy (first_busy held.old.slots (versions.slots_of runs.now)) ≡
        Some error)) }
{
    let slots = slots_of(runs);
    match table.take_more_in_place(held, &slots[..runs.len()]) {
        Ok(()) => Ok(()),
        Err(busy) => Err(ClaimError::Busy(busy.0)),
    }
}

/// Gives the slots of the runs back.
pub(crate) fn give_slots(table: &ClaimTable, held: &mut HeldSlots, runs: &[Placed])
    requires table { held.old.table ≡ table.now.table }
    requires few { length runs.now ≤ MOST_SLOTS }
    requires distinct { AreDistinct (versions.slots_of runs.now) }
    requires held { All (Contains held.old.slots) (versions.slots_of runs.now) }
    ensures { held.new ≡ record held.old { slots = without (versions.slots_of runs.now) held.old.slots } }
{
    let slots = slots_of(runs);
    table.give_some_in_place(held, &slots[..runs.len()]);
}

/// A flag for each slot: whether it is held.
pub(crate) fn busy_slots(held: &HeldSlots) -> [bool; MOST_SLOTS]
    ensures { (slot : ℕ) → slot < MOST_SLOTS →
        slice_index_or result slot false ≡ list_any (λ s. s == slot) held.now.slots }
{
    let mut busy = [false; MOST_SLOTS];
    for slot in 0..MOST_SLOTS {
        busy[slot] = held.has(slot);
    }
    busy
}
