//! [`GatheredMemtables`]: memtables that are read while they take writes, and whose present contents threads can share.
ghost use Rattle.std.specs.Prelude.{◌≡◌, ◌≢◌, ◌<◌, ◌^◌, ◌↔◌, ◌∷◌, ◌++◌, [], IsTrue, IfOk, IfSome, OnOk, OnErr};
ghost use Rattle.std.specs.Prelude.{length, count_by};
ghost use Rattle.uc_batch.specs.Rising.{IsRising, last_of};
ghost use Rattle.uc_model.specs.Meaning.{effect_on};
ghost use Rattle.uc_run.specs.Flush.{flushed};
ghost use Rattle.uc_run.specs.Size.{memtable_size};
ghost use Rattle.uc_memtable.specs.Labels.{deletes_range};

use crate::active_memtable::ActiveMemtable;
use crate::frozen_memtables::FrozenMemtables;
use std::alloc::{AllocError, Global};
use std::marker::Model;
use uc_bytes::WriteRef;
use uc_model::effects_of_parts_compose;
use uc_oper::{Effect, EffectRef, Operator};
use uc_run::{Memtable, Run, SoughtKey};

/// An active memtable, and memtables before it that take no more writes. A contract sees it as an [`ActiveMemtable`] of
/// all their writes.
///
/// [`share`](GatheredMemtables::share) freezes what is shown. Before its first call each method costs what that of the
/// active memtable does, and a lookup then asks each frozen one in turn, of which there are few.
pub struct GatheredMemtables {
    frozen: FrozenMemtables,
    active: ActiveMemtable,
}

impl Model for GatheredMemtables {
    ghost use Rattle.uc_memtable.specs.Gathering.{Gathering};
    ghost use Rattle.uc_memtable.specs.HeldMemtables.{all_gathered, AreGathered};

    ghost Value = { Gathering };

    ghost view = { all_gathered };

    ghost invariant = { AreGathered };
}

impl Drop for GatheredMemtables {
    fn drop(self) {
        let GatheredMemtables {
            frozen: _,
            active: _,
        } = self;
    }
}

impl GatheredMemtables {
    /// No writes. It doesn't allocate.
    pub fn new(alloc: Global) -> GatheredMemtables
        ensures { result ≡ record { shown = []; waiting = [] } }
    {
        GatheredMemtables {
            frozen: FrozenMemtables::new(alloc),
            active: ActiveMemtable::new(alloc),
        }
    }

    /// Whether no write is shown.
    pub fn is_empty(&self) -> bool
        ensures { IsTrue result ↔ (self.now.shown ≡ []) }
    {
        self.frozen.is_empty() && self.active.is_empty()
    }

    /// The number of writes that are shown.
    pub fn len(&self) -> usize
        ensures { result ≡ length self.now.shown }
    {
        self.frozen.len() + self.active.len()
    }

    /// The size of the shown writes in bytes, as [`Memtable::size`] counts them.
    pub fn size(&self) -> u64
        ensures { result ≡ memtable_size self.now.shown }
    {
        self.frozen.size().saturating_add(self.active.size())
    }

    /// The last sequence that is shown, or 0 if there is none.
    pub fn last(&self) -> u64
        ensures { result ≡ last_of 0 self.now.shown }
    {
        self.frozen.last().max(self.active.last())
    }

    /// The last sequence of all writes, those that wait too, or 0 if there is none.
    pub fn last_prepared(&self) -> u64
        ensures { result ≡ last_of 0 (self.now.shown ++ self.now.waiting) }
    {
        self.frozen.last().max(self.active.last_prepared())
    }

    /// The size of all writes in bytes, those that wait too.
    pub fn size_of_all(&self) -> u64
        ensures { result ≡ memtable_size (self.now.shown ++ self.now.waiting) }
    {
        self.frozen.size().saturating_add(self.active.size_of_all())
    }

    /// Whether a write waits.
    pub fn is_waiting(&self) -> bool
        ensures { IsTrue result ↔ (self.now.waiting ≢ []) }
    {
        self.active.is_waiting()
    }

    /// The number of range deletions among the shown writes.
    pub fn ranges(&self) -> usize
        ensures { result ≡ count_by deletes_range self.now.shown }
    {
        self.frozen.ranges() + self.active.ranges()
    }

    /// The memtable that has all shown writes and no other: there is one if none is frozen and none waits.
    pub fn memtable(&self) -> Option<&Memtable>
        ensures { IfSome result (λ memtable. memtable.now ≡ self.now.shown) }
    {
        if self.frozen.is_empty() && !self.active.is_waiting() {
            Some(self.active.memtable())
        } else {
            None
        }
    }

    /// One memtable of copies of all shown writes.
    pub fn to_memtable(&self, alloc: Global) -> Result<ActiveMemtable, AllocError>
        ensures { IfOk result (λ one. one ≡ record { shown = self.now.shown; waiting = [] }) }
    {
        let mut one = self.frozen.to_memtable(alloc)?;
        one.take_shown(&self.active)?;
        Ok(one)
    }

    /// One memtable of copies of what frozen ones show, and of all shown writes after that.
    pub(crate) fn to_memtable_behind(
        &self,
        alloc: Global,
        older: &FrozenMemtables,
    ) -> Result<ActiveMemtable, AllocError>
        requires { IsRising 0 (older.now ++ self.now.shown) }
        ensures { IfOk result (λ one. one ≡ record { shown = older.now ++ self.now.shown; waiting = [] }) }
    {
        let mut one = older.with(alloc, &self.frozen)?.to_memtable(alloc)?;
        one.take_shown(&self.active)?;
        Ok(one)
    }

    /// The invariant of all such memtables: the sequences of their writes rise. Proof step: does nothing when it runs.
    pub fn recall(&self)
        ensures { IsRising 0 (self.now.shown ++ self.now.waiting) }
    {
        let _ = &self.active;
    }

    /// Takes a write, which then waits after the others, as [`ActiveMemtable::prepare`] does. An `Err` changes
    /// nothing.
    pub fn prepare(&mut self, write: &WriteRef<'_>) -> Result<(), AllocError>
        requires above { last_of 0 (self.old.shown ++ self.old.waiting) < write.now.seq }
        requires below { write.now.seq < 2 ^ 56 }
        ensures ok { OnOk result (self.new ≡
            record { shown = self.old.shown; waiting = self.old.waiting ++ write.now ∷ [] }) }
        ensures err { OnErr result (self.new ≡ self.old) }
    {
        self.active.prepare(write)
    }

    /// Shows the writes that wait. It takes no memory, and can't fail.
    pub fn commit(&mut self)
        ensures { self.new ≡ record { shown = self.old.shown ++ self.old.waiting; waiting = [] } }
    {
        self.active.commit();
    }

    /// Forgets the writes that wait, as [`ActiveMemtable::give_up`] does. It takes no memory.
    pub fn give_up(&mut self)
        ensures { self.new ≡ record { shown = self.old.shown; waiting = [] } }
    {
        self.active.give_up();
    }

    /// Removes all writes, and keeps their memory as [`ActiveMemtable::clear`] does, except for those that are frozen.
    pub fn clear(&mut self, alloc: Global, most: u64)
        ensures { self.new ≡ record { shown = []; waiting = [] } }
    {
        self.frozen.clear(alloc);
        self.active.clear(alloc, most);
    }

    /// Another handle to what is shown, for other threads: it shows the same from now on, whatever is written here. It has no
    /// prepared write.
    ///
    /// Freezes the shown writes. It copies the bytes of small frozen memtables, which are joined, and of prepared writes. Fails
    /// only if allocation fails. No write changes here.
    pub fn share(&mut self, alloc: Global) -> Result<GatheredMemtables, AllocError>
        ensures shared { IfOk result (λ shared. shared ≡ record { shown = self.old.shown; waiting = [] }) }
        ensures same { self.new ≡ self.old }
    {
        self.frozen.freeze(alloc, &mut self.active)?;
        self.frozen.join_small(alloc)?;
        Ok(GatheredMemtables {
            frozen: self.frozen.shared(alloc)?,
            active: ActiveMemtable::new(alloc),
        })
    }

    /// Takes what is shown out, frozen after older memtables, with shares of all of those. An `Err` changes nothing.
    pub(crate) fn take_frozen(
        &mut self,
        alloc: Global,
        older: &FrozenMemtables,
    ) -> Result<(FrozenMemtables, FrozenMemtables), AllocError>
        requires { IsRising 0 (older.now ++ self.old.shown) }
        ensures all { IfOk result (λ taken. (taken.0 ≡ older.now ++ self.old.shown) × (taken.1 ≡ older.now ++ self.old.shown)) }
        ensures ok { OnOk result (self.new ≡ record { shown = []; waiting = self.old.waiting }) }
        ensures err { OnErr result (self.new ≡ self.old) }
    {
        self.frozen.freeze(alloc, &mut self.active)?;
        let all = older.with(alloc, &self.frozen)?;
        let again = all.shared(alloc)?;
        self.frozen = FrozenMemtables::new(alloc);
        Ok((all, again))
    }

    /// Memtables that show what frozen ones do.
    pub(crate) fn of_frozen(alloc: Global, frozen: FrozenMemtables) -> GatheredMemtables
        ensures { result ≡ record { shown = frozen; waiting = [] } }
    {
        frozen.recall();
        GatheredMemtables {
            frozen,
            active: ActiveMemtable::new(alloc),
        }
    }

    /// As [`effect_of_sought`](GatheredMemtables::effect_of_sought), of a key that it hashes, with a copy of the value that is put.
    pub fn effect<O: Operator>(
        &self,
        alloc: Global,
        key: &[u8],
        at: u64,
    ) -> Result<Effect, AllocError>
        ensures { IfOk result (λ effect. effect ≡ effect_on O.meaning self.now.shown key.now at) }
    {
        self.effect_of_sought::<O>(alloc, &SoughtKey::new(key), at)?
            .into_effect(alloc)
    }

    /// The effect of the shown writes at or below a sequence on a key. It asks the active memtable as
    /// [`ActiveMemtable::effect`] does, and then the frozen ones, from the newest on, up to the first that puts or
    /// deletes the key. A value that is put, and that nothing is merged into, stays where it is.
    pub fn effect_of_sought<O: Operator>(
        &self,
        alloc: Global,
        key: &SoughtKey<'_>,
        at: u64,
    ) -> Result<EffectRef<'_>, AllocError>
        ensures { IfOk result (λ effect. effect ≡ effect_on O.meaning self.now.shown key.now at) }
    {
        effects_of_parts_compose::<O>();
        let newer = self.active.effect_of_sought::<O>(alloc, key, at)?;
        self.frozen.effect_before::<O>(alloc, key, at, newer)
    }

    /// The run of the shown writes, as [`Memtable::to_run`] makes it. If they are in several memtables, it costs a copy
    /// of all.
    pub fn to_run(&self, alloc: Global) -> Result<Run, AllocError>
        requires { self.now.shown ≢ [] }
        ensures { IfOk result (λ run. run ≡ flushed self.now.shown) }
    {
        if self.frozen.is_empty() {
            return self.active.to_run(alloc);
        }
        if self.active.is_empty() {
            return self.frozen.to_run(alloc);
        }
        self.to_memtable(alloc)?.to_run(alloc)
    }
}
