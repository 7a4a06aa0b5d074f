//! Totals of slots: their size, and their first and last sequence.
ghost use Rattle.std.specs.Prelude.{◌≡◌};
ghost use Rattle.uc_batch.specs.Rising.{last_of};
ghost use Rattle.uc_run.specs.Flush as flush;
ghost use Rattle.uc_run.specs.Size.{memtable_size};

use crate::size::op_size;
use crate::slot_slice::SlotSlice;

/// The size of the slots' writes, as [`Memtable::size`](crate::Memtable::size) counts it.
pub(crate) fn size_of_slots(slots: &SlotSlice<'_>) -> u64
    ensures { result ≡ memtable_size slots.now }
{
    let mut size: u64 = 0;
    for place in 0..slots.len() {
        size = size.saturating_add(op_size(slots.at(place).write().op()));
    }
    size
}

/// The sequence of the first slot, or 0 if there is none.
pub(crate) fn first_seq(slots: &SlotSlice<'_>) -> u64
    ensures { result ≡ flush.first_of slots.now }
{
    match slots.get(0) {
        None => 0,
        Some(slot) => slot.seq(),
    }
}

/// The sequence of the last slot, or 0 if there is none.
pub(crate) fn last_seq(slots: &SlotSlice<'_>) -> u64
    ensures { result ≡ last_of 0 slots.now }
{
    match slots.get(slots.len().saturating_sub(1)) {
        None => 0,
        Some(slot) => slot.seq(),
    }
}
