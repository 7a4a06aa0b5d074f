//! [`SlotSlice`]: the first writes of a memtable.
ghost use Rattle.std.specs.Prelude.{◌≡◌, ◌<◌, ◌≤◌, ◌^◌, Some, length, take, drop};
ghost use Rattle.std.specs.List.{slice_get};
ghost use Rattle.uc_run.specs.Slots as of_slot;
ghost use Rattle.uc_run.specs.Slots.{slot_writes, AreInOrder};

use crate::slot::Slot;
use crate::slot_ref::SlotRef;
use std::marker::Model;

/// Slots, and the arena up to where their bytes end. It takes no memory. A contract sees the list of the writes.
#[derive(Drop)]
pub(crate) struct SlotSlice<'a> {
    text: &'a [u8],
    slots: &'a [Slot],
}

impl<'a> Model for SlotSlice<'a> {
    ghost use Rattle.std.specs.Prelude.{List, length};
    ghost use Rattle.uc_bytes.specs.declared.write.Write.{Write};
    ghost use Rattle.uc_run.specs.Slots.{slot_writes, AreInOrder};

    ghost Value = { List Write };

    ghost view = { λ s. slot_writes s.text.now s.slots.now };

    ghost invariant = { λ s. AreInOrder (length s.text.now) s.slots.now };
}

/// Where the bytes of the first few slots end: where those of the next one start, or at the arena's end.
#[inline]
pub(crate) fn end_of_first(room: usize, slots: &[Slot], count: usize) -> usize
    ensures { result ≡ of_slot.end_before room (drop count slots.now) }
{
    match slots.get(count) {
        None => room,
        Some(next) => next.start(),
    }
}

/// The write of the slot at a place.
#[inline]
fn write_at<'a>(text: &'a [u8], slots: &[Slot], place: usize) -> SlotRef<'a>
    requires order { AreInOrder (length text.now) slots.now }
    requires there { place < length slots.now }
    ensures { slice_get (slot_writes text.now slots.now) place ≡ Some result }
{
    let slot = &slots[place];
    let end = end_of_first(text.len(), slots, place + 1);
    slot.read(&text[slot.start()..end])
}

impl<'a> SlotSlice<'a> {
    /// The writes of slots, whose bytes end with the arena.
    #[inline]
    pub(crate) fn new(text: &'a [u8], slots: &'a [Slot]) -> SlotSlice<'a>
        requires { AreInOrder (length text.now) slots.now }
        ensures { result ≡ slot_writes text.now slots.now }
    {
        SlotSlice { text, slots }
    }

    /// The same writes again.
    #[inline]
    pub(crate) fn again(&self) -> SlotSlice<'a>
        ensures { result ≡ self.now }
    {
        SlotSlice {
            text: self.text,
            slots: self.slots,
        }
    }

    /// The writes before a place.
    pub(crate) fn up_to(&self, place: usize) -> SlotSlice<'a>
        requires { place ≤ length self.now }
        ensures { result ≡ take place self.now }
    {
        let end = end_of_first(self.text.len(), self.slots, place);
        SlotSlice {
            text: &self.text[..end],
            slots: &self.slots[..place],
        }
    }

    /// The number of writes.
    #[inline]
    pub(crate) fn len(&self) -> usize
        ensures count { result ≡ length self.now }
        ensures bound { result < 2 ^ 63 }
    {
        self.slots.len()
    }

    /// The write at a place, at the cost of a look at its slot, at the next one, and at its first byte.
    #[inline]
    pub(crate) fn at(&self, place: usize) -> SlotRef<'a>
        requires { place < length self.now }
        ensures { slice_get self.now place ≡ Some result }
    {
        write_at(self.text, self.slots, place)
    }

    /// The write at a place, if there is one, at the cost of [`at`](SlotSlice::at).
    #[inline]
    pub(crate) fn get(&self, place: usize) -> Option<SlotRef<'a>>
        ensures { result ≡ slice_get self.now place }
    {
        if place < self.len() {
            Some(self.at(place))
        } else {
            None
        }
    }
}
