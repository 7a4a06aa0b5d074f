//! [`Slots`]: writes in one arena, with a slot of 16 bytes for each.
ghost use Rattle.std.specs.Prelude.{◌≡◌, ◌<◌, ◌^◌, ◌∷◌, ◌++◌, [], OnOk, OnErr, length, take};
ghost use Rattle.uc_run.specs.Slots as of_slot;
ghost use Rattle.uc_run.specs.Slots.{Grows};
ghost use mathlib.Core.List.{IsPrefix};

use crate::slot::Slot;
use crate::slot_slice::{SlotSlice, end_of_first};
use std::alloc::{AllocError, Global};
use std::marker::Model;
use uc_bytes::WriteRef;
use uc_run_points::{make_small, push_number};

/// Writes in the order of their insertion, packed. A contract sees their list.
pub(crate) struct Slots {
    /// The arena: the bytes of all writes, one after the other.
    text: Vec<u8>,
    slots: Vec<Slot>,
}

impl Model for Slots {
    ghost use Rattle.std.specs.Prelude.{List, length};
    ghost use Rattle.uc_bytes.specs.declared.write.Write.{Write};
    ghost use Rattle.uc_run.specs.Slots.{slot_writes, AreInOrder};

    ghost Value = { List Write };

    ghost view = { λ s. slot_writes s.text.items s.slots.items };

    ghost invariant = { λ s. AreInOrder (length s.text.items) s.slots.items };
}

impl Drop for Slots {
    fn drop(mut self) {
        make_small(&mut self.text, size_of::<u8>());
        make_small(&mut self.slots, size_of::<Slot>());
        let Slots { text: _, slots: _ } = self;
    }
}

/// Pushes the bytes of a write. An `Err` may leave some of them pushed.
fn push_bytes(text: &mut Vec<u8>, first: &[u8], second: &[u8]) -> Result<(), AllocError>
    ensures pushed { OnOk result (text.new.items ≡ text.old.items ++ of_slot.bytes_of first.now second.now) }
    ensures begins { IsPrefix text.old.items text.new.items }
{
    push_number(text, first.len() as u64)?;
    text.extend_from_slice(first)?;
    text.extend_from_slice(second)?;
    Ok(())
}

/// Pushes the bytes of a write. An `Err` pushes nothing.
fn append_bytes(text: &mut Vec<u8>, first: &[u8], second: &[u8]) -> Result<(), AllocError>
    ensures pushed { OnOk result (text.new.items ≡ text.old.items ++ of_slot.bytes_of first.now second.now) }
    ensures as_it_was { OnErr result (text.new.items ≡ text.old.items) }
{
    let before = text.len();
    if let Err(error) = push_bytes(text, first, second) {
        text.truncate(before);
        return Err(error);
    }
    Ok(())
}

/// Pushes a write: its bytes, and its slot. An `Err` changes nothing.
fn push_write(
    text: &mut Vec<u8>,
    slots: &mut Vec<Slot>,
    write: &WriteRef<'_>,
) -> Result<(), AllocError>
    requires { write.now.seq < 2 ^ 62 }
    ensures ok { OnOk result (Grows text.old.items text.new.items slots.old.items slots.new.items write.now) }
    ensures text_kept { OnErr result (text.new.items ≡ text.old.items) }
    ensures slots_kept { OnErr result (slots.new.items ≡ slots.old.items) }
{
    let (kind, first, second) = write.op().parts();
    // The steps that can fail come first.
    slots.reserve(1)?;
    let start = text.len();
    append_bytes(text, first, second)?;
    slots.push(Slot::new(write.seq(), kind, start))?;
    Ok(())
}

impl Slots {
    /// No writes. It doesn't allocate.
    pub(crate) fn new(alloc: Global) -> Slots
        ensures { result ≡ [] }
    {
        Slots {
            text: Vec::new(alloc),
            slots: Vec::new(alloc),
        }
    }

    /// The number of writes.
    #[inline]
    pub(crate) fn len(&self) -> usize
        ensures count { result ≡ length self.now }
        ensures bound { result < 2 ^ 63 }
    {
        self.slots.len()
    }

    /// All writes.
    #[inline]
    pub(crate) fn as_slice(&self) -> SlotSlice<'_>
        ensures { result ≡ self.now }
    {
        SlotSlice::new(&self.text, &self.slots)
    }

    /// Appends a write, with a copy of its key and value. An `Err` appends nothing.
    pub(crate) fn push(&mut self, write: &WriteRef<'_>) -> Result<(), AllocError>
        requires { write.now.seq < 2 ^ 62 }
        ensures pushed { OnOk result (self.new ≡ self.old ++ write.now ∷ []) }
        ensures as_it_was { OnErr result (self.new ≡ self.old) }
    {
        push_write(&mut self.text, &mut self.slots, write)?;
        Ok(())
    }

    /// Keeps the first writes, and forgets those after them. It takes no memory.
    pub(crate) fn truncate(&mut self, count: usize)
        ensures { self.new ≡ take count self.old }
    {
        let end = end_of_first(self.text.len(), &self.slots, count);
        self.text.truncate(end);
        self.slots.truncate(count);
    }
}
