//! [`FrozenMemtables`]: memtables that take no more writes, as one list of them.
ghost use Rattle.std.specs.Prelude.{◌≡◌, ◌≢◌, ◌↔◌, ◌++◌, [], IsTrue, IfOk, IfErr, OnOk, OnErr, count_by, length};
ghost use Rattle.uc_batch.specs.Rising.{IsRising, last_of};
ghost use Rattle.uc_model.specs.Meaning.{effect_on};
ghost use Rattle.uc_oper.specs.Composition.{composed};
ghost use Rattle.uc_run.specs.Flush.{flushed};
ghost use Rattle.uc_run.specs.Size.{memtable_size};
ghost use Rattle.uc_memtable.specs.Labels.{deletes_range};

use crate::active_memtable::ActiveMemtable;
use crate::frozen_memtable::FrozenMemtable;
use crate::joining::{copy_of, effect_before, join_small, push_frozen, push_shared, run_of_all};
use std::alloc::{AllocError, Global};
use std::marker::Model;
use std::mem;
use uc_oper::{EffectRef, Operator};
use uc_run::{Run, SoughtKey};

/// Memtables that take no more writes, the oldest first. A contract sees it as all writes that they show, in order.
///
/// They are few: each has more than twice the bytes of the next one, by [`join_small`](FrozenMemtables::join_small).
pub(crate) struct FrozenMemtables {
    memtables: Vec<FrozenMemtable>,
    /// The number of writes that they show.
    len: usize,
    size: u64,
    last: u64,
    /// The number of range deletions among these.
    ranges: usize,
}

impl Model for FrozenMemtables {
    ghost use Rattle.std.specs.Prelude.{List};
    ghost use Rattle.uc_bytes.specs.declared.write.Write.{Write};
    ghost use Rattle.uc_memtable.specs.HeldFrozens.{all_frozen, AreFrozen};

    ghost Value = { List Write };

    ghost view = { all_frozen };

    ghost invariant = { AreFrozen };
}

impl Drop for FrozenMemtables {
    fn drop(self) {
        let FrozenMemtables {
            memtables: _,
            len: _,
            size: _,
            last: _,
            ranges: _,
        } = self;
    }
}

impl FrozenMemtables {
    /// No memtables. It doesn't allocate.
    pub(crate) fn new(alloc: Global) -> FrozenMemtables
        ensures { result ≡ [] }
    {
        FrozenMemtables {
            memtables: Vec::new(alloc),
            len: 0,
            size: 0,
            last: 0,
            ranges: 0,
        }
    }

    /// Drops all of them. It frees none that is shared.
    pub(crate) fn clear(&mut self, alloc: Global)
        ensures { self.new ≡ [] }
    {
        *self = FrozenMemtables::new(alloc);
    }

    /// Whether they show no write.
    pub(crate) fn is_empty(&self) -> bool
        ensures { IsTrue result ↔ (self.now ≡ []) }
    {
        self.len == 0
    }

    /// The number of writes that they show.
    pub(crate) fn len(&self) -> usize
        ensures { result ≡ length self.now }
    {
        self.len
    }

    /// The size of these in bytes, as [`Memtable::size`](uc_run::Memtable::size) counts them.
    pub(crate) fn size(&self) -> u64
        ensures { result ≡ memtable_size self.now }
    {
        self.size
    }

    /// The last sequence, or 0 if there is none.
    pub(crate) fn last(&self) -> u64
        ensures { result ≡ last_of 0 self.now }
    {
        self.last
    }

    /// The number of range deletions among the writes.
    pub(crate) fn ranges(&self) -> usize
        ensures { result ≡ count_by deletes_range self.now }
    {
        self.ranges
    }

    /// The memtables again. They are shared.
    pub(crate) fn shared(&self, alloc: Global) -> Result<FrozenMemtables, AllocError>
        ensures { IfOk result (λ again. again ≡ self.now) }
    {
        let mut memtables = Vec::with_capacity(alloc, self.memtables.len())?;
        push_shared(&mut memtables, &self.memtables)?;
        Ok(FrozenMemtables {
            memtables,
            len: self.len,
            size: self.size,
            last: self.last,
            ranges: self.ranges,
        })
    }

    /// The memtables again, and newer ones after them. They are shared.
    pub(crate) fn with(
        &self,
        alloc: Global,
        newer: &FrozenMemtables,
    ) -> Result<FrozenMemtables, AllocError>
        requires { IsRising 0 (self.now ++ newer.now) }
        ensures { IfOk result (λ all. all ≡ self.now ++ newer.now) }
    {
        let mut memtables = Vec::new(alloc);
        push_shared(&mut memtables, &self.memtables)?;
        push_shared(&mut memtables, &newer.memtables)?;
        Ok(FrozenMemtables {
            memtables,
            len: self.len + newer.len,
            size: self.size.saturating_add(newer.size),
            last: self.last.max(newer.last),
            ranges: self.ranges + newer.ranges,
        })
    }

    /// Freezes a memtable that shows a write, after the others. An `Err` hands it back, and changes nothing.
    fn push(&mut self, alloc: Global, memtable: ActiveMemtable) -> Result<(), ActiveMemtable>
        requires some { memtable.shown ≢ [] }
        requires rising { IsRising 0 (self.old ++ memtable.shown) }
        ensures ok { OnOk result (self.new ≡ self.old ++ memtable.shown) }
        ensures err { IfErr result (λ back. (back ≡ memtable) × (self.new ≡ self.old)) }
    {
        let len = self.len + memtable.len();
        let size = self.size.saturating_add(memtable.size());
        let last = memtable.last();
        let ranges = self.ranges + memtable.ranges();
        push_frozen(alloc, &mut self.memtables, memtable)?;
        self.len = len;
        self.size = size;
        self.last = last;
        self.ranges = ranges;
        Ok(())
    }

    /// Freezes what an active memtable shows, if it shows a write. In its place comes one in which copies of the writes
    /// that wait do so. An `Err` changes nothing.
    pub(crate) fn freeze(
        &mut self,
        alloc: Global,
        active: &mut ActiveMemtable,
    ) -> Result<(), AllocError>
        requires { IsRising 0 (self.old ++ active.old.shown) }
        ensures frozen { OnOk result (self.new ≡ self.old ++ active.old.shown) }
        ensures active { OnOk result (active.new ≡ record { shown = []; waiting = active.old.waiting }) }
        ensures err { OnErr result ((self.new ≡ self.old) × (active.new ≡ active.old)) }
    {
        if active.is_empty() {
            return Ok(());
        }
        let apart = active.with_waiting(alloc)?;
        let shown = mem::replace(active, apart);
        if let Err(shown) = self.push(alloc, shown) {
            *active = shown;
            return Err(AllocError);
        }
        Ok(())
    }

    /// Puts the newest ones together, by a copy, so that each has more than twice the bytes of the next one. A write is
    /// copied once, and then only where its memtable's bytes grow by half. An `Err` leaves them apart.
    pub(crate) fn join_small(&mut self, alloc: Global) -> Result<(), AllocError>
        ensures { self.new ≡ self.old }
    {
        join_small(alloc, &mut self.memtables)
    }

    /// The invariant of all such memtables: the sequences of their writes rise. Proof step: does nothing when it runs.
    pub(crate) fn recall(&self)
        ensures { IsRising 0 self.now }
    {
        let _ = &self.memtables;
    }

    /// One memtable of copies of all writes that they show.
    pub(crate) fn to_memtable(&self, alloc: Global) -> Result<ActiveMemtable, AllocError>
        ensures { IfOk result (λ one. one ≡ record { shown = self.now; waiting = [] }) }
    {
        copy_of(alloc, &self.memtables)
    }

    /// The run of the writes that they show. If these are in several memtables, it costs a copy of all.
    pub(crate) fn to_run(&self, alloc: Global) -> Result<Run, AllocError>
        requires { self.now ≢ [] }
        ensures { IfOk result (λ run. run ≡ flushed self.now) }
    {
        run_of_all(alloc, &self.memtables)
    }

    /// The effect of their writes at or below a sequence on a key, and then of a newer effect. It asks the memtables from the
    /// newest on, and stops where the key is put or deleted.
    pub(crate) fn effect_before<'a, O: Operator>(
        &'a self,
        alloc: Global,
        key: &SoughtKey<'_>,
        at: u64,
        newer: EffectRef<'a>,
    ) -> Result<EffectRef<'a>, AllocError>
        ensures { IfOk result (λ effect.
            effect ≡ composed O.meaning (effect_on O.meaning self.now key.now at) newer.entry) }
    {
        effect_before::<O>(alloc, &self.memtables, key, at, newer)
    }
}
