//! [`Memtable`]: writes in one arena, in the order of their insertion.
ghost use Rattle.std.specs.Prelude.{◌≡◌, ◌<◌, ◌≤◌, ◌^◌, ◌↔◌, ◌∷◌, ◌++◌, [], ◌≢◌, IsTrue, IfOk, IfErr, OnOk, OnErr, length, take};
ghost use Rattle.std.specs.List.{slice_get};
ghost use Rattle.uc_batch.specs.Rising.{last_of};
ghost use Rattle.uc_run.specs.Flush.{flushed};
ghost use Rattle.uc_run.specs.Size.{memtable_size};

use crate::flush::run_of_slots;
use crate::run::Run;
use crate::size::op_size;
use crate::slot_totals::{last_seq, size_of_slots};
use crate::slots::Slots;
use std::alloc::{AllocError, Global};
use std::marker::Model;
use uc_bytes::{Write, WriteRef};

/// The newest writes, before they become a run (RocksDB wiki, "MemTable"). A contract sees it as the list of the
/// writes that were inserted, in order.
#[derive(Drop)]
pub struct Memtable {
    slots: Slots,
    size: u64,
    last: u64,
}

impl Model for Memtable {
    ghost use Rattle.std.specs.Prelude.{List};
    ghost use Rattle.uc_bytes.specs.declared.write.Write.{Write};
    ghost use Rattle.uc_run.specs.HeldWrites.{inserted, IsHeld};

    ghost Value = { List Write };

    ghost view = { inserted };

    ghost invariant = { IsHeld };
}

impl Memtable {
    /// A memtable without writes. It doesn't allocate.
    pub fn new(alloc: Global) -> Memtable
        ensures { result ≡ [] }
    {
        Memtable {
            slots: Slots::new(alloc),
            size: 0,
            last: 0,
        }
    }

    /// Whether nothing was inserted.
    pub fn is_empty(&self) -> bool
        ensures { IsTrue result ↔ (self.now ≡ []) }
    {
        self.slots.len() == 0
    }

    /// The number of writes.
    pub fn len(&self) -> usize
        ensures count { result ≡ length self.now }
        ensures bound { result < 2 ^ 63 }
    {
        self.slots.len()
    }

    /// The write at a place, if there is one.
    pub fn write(&self, place: usize) -> Option<WriteRef<'_>>
        ensures { result ≡ slice_get self.now place }
    {
        Some(self.slots.as_slice().get(place)?.write())
    }

    /// The size of its writes in bytes: for each the lengths of its byte strings, and 8; nothing for a range whose begin isn't
    /// below its end. At most 2^64 - 1.
    pub fn size(&self) -> u64
        ensures { result ≡ memtable_size self.now }
    {
        self.size
    }

    /// The last sequence, or 0 if there is no write.
    pub fn last(&self) -> u64
        ensures { result ≡ last_of 0 self.now }
    {
        self.last
    }

    /// Inserts a write. Its sequence number is above all before it and at most [`MAX_SEQUENCE`](uc_bytes::MAX_SEQUENCE). It costs a
    /// copy of the key and value, amortized. An `Err` inserts nothing.
    pub fn insert(&mut self, write: &Write) -> Result<(), AllocError>
        requires above { last_of 0 self.old < write.now.seq }
        requires below { write.now.seq < 2 ^ 56 }
        ensures ok { OnOk result (self.new ≡ self.old ++ write.now ∷ []) }
        ensures err { OnErr result (self.new ≡ self.old) }
    {
        self.insert_ref(&WriteRef::of(write))
    }

    /// Inserts a write with a borrowed key and value, as [`insert`](Memtable::insert) does.
    pub fn insert_ref(&mut self, write: &WriteRef<'_>) -> Result<(), AllocError>
        requires above { last_of 0 self.old < write.now.seq }
        requires below { write.now.seq < 2 ^ 56 }
        ensures ok { OnOk result (self.new ≡ self.old ++ write.now ∷ []) }
        ensures err { OnErr result (self.new ≡ self.old) }
    {
        self.slots.push(write)?;
        self.size = self.size.saturating_add(op_size(write.op()));
        self.last = write.seq();
        Ok(())
    }

    /// Keeps the first writes, and forgets those after them. It takes no memory, and looks at each write that it keeps.
    pub fn truncate(&mut self, count: usize)
        ensures { self.new ≡ take count self.old }
    {
        if count < self.slots.len() {
            self.slots.truncate(count);
            let kept = self.slots.as_slice();
            self.size = size_of_slots(&kept);
            self.last = last_seq(&kept);
        }
    }

    /// The run of its first `count` writes: the points in order of key, and the range deletions cut into fragments. It costs a sort
    /// of the points, a copy of their keys and values, and the fragments. It sorts numbers, and compares keys only where two
    /// numbers are equal.
    pub fn run_of_first(&self, alloc: Global, count: usize) -> Result<Run, AllocError>
        requires some { 0 < count }
        requires within { count ≤ length self.now }
        ensures { IfOk result (λ run. run ≡ flushed (take count self.now)) }
    {
        run_of_slots(alloc, &self.slots.as_slice().up_to(count))
    }

    /// The run of all its writes, as [`run_of_first`](Memtable::run_of_first) makes it.
    pub fn to_run(&self, alloc: Global) -> Result<Run, AllocError>
        requires { self.now ≢ [] }
        ensures { IfOk result (λ run. run ≡ flushed self.now) }
    {
        self.run_of_first(alloc, self.slots.len())
    }

    /// The run of its writes, as [`to_run`](Memtable::to_run) makes it, in place of the memtable. An `Err` hands the
    /// memtable back with all its writes.
    pub fn flush(self, alloc: Global) -> Result<Run, (Memtable, AllocError)>
        requires { self ≢ [] }
        ensures run { IfOk result (λ run. run ≡ flushed self) }
        ensures kept { IfErr result (λ refused. refused.0 ≡ self) }
    {
        match self.to_run(alloc) {
            Ok(run) => Ok(run),
            Err(error) => Err((self, error)),
        }
    }
}
