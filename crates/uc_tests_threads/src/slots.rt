//! Conditions on the slots that a table takes: distinct, and below its number of slots.
ghost use Rattle.std.specs.Prelude.{◌<◌, IsTrue, All};
ghost use Rattle.uc_claims.specs.Holding.{AreDistinct};

/// Returns true if no slot is listed twice.
pub(crate) fn are_distinct(slots: &[usize]) -> bool
    ensures { IsTrue result → AreDistinct slots.now }
{
    match slots {
        [] => true,
        [slot, rest @ ..] => !rest.contains(slot) && are_distinct(rest),
    }
}

/// Returns true if all slots are below `bound`.
pub(crate) fn are_below(slots: &[usize], bound: usize) -> bool
    ensures { IsTrue result → All (λ slot. slot < bound) slots.now }
{
    slots.iter().all(|slot| *slot < bound)
}
