//! Conditions on lists of slots: distinct, below the table's number of slots and, before they are returned, held.
ghost use Rattle.std.specs.Prelude.{◌<◌, IsTrue, All, Contains};
ghost use Rattle.uc_claims.specs.Holding.{AreDistinct};

use uc_claims::HeldSlots;

/// Returns true if no slot is listed twice.
pub(crate) fn are_distinct(slots: &[usize]) -> bool
    ensures { IsTrue result → AreDistinct slots.now }
{
    match slots {
        [] => true,
        [slot, rest @ ..] => !rest.contains(slot) && are_distinct(rest),
    }
}

/// Returns true if all slots are below `bound`.
pub(crate) fn are_below(slots: &[usize], bound: usize) -> bool
    ensures { IsTrue result → All (λ slot. slot < bound) slots.now }
{
    slots.iter().all(|slot| *slot < bound)
}

/// Returns true if a seat holds all slots.
pub(crate) fn holds_all(held: &HeldSlots, slots: &[usize]) -> bool
    ensures { IsTrue result → All (Contains held.now.slots) slots.now }
{
    for slot in slots {
        if !held.has(*slot) {
            return false;
        }
    }
    true
}
