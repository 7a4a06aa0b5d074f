//! [`FlushableMemtables`]: memtables, the oldest of which may be set apart for a flush.
ghost use Rattle.std.specs.Prelude.{◌≡◌, ◌≢◌, ◌<◌, ◌^◌, ◌↔◌, ◌∷◌, ◌++◌, [], IsTrue, IfOk, IfSome, OnOk, OnErr};
ghost use Rattle.std.specs.Prelude.{length, count_by, drop};
ghost use Rattle.uc_batch.specs.Rising.{IsRising, last_of};
ghost use Rattle.uc_model.specs.Meaning.{effect_on};
ghost use Rattle.uc_run.specs.Flush.{flushed};
ghost use Rattle.uc_run.specs.Size.{memtable_size};
ghost use Rattle.uc_memtable.specs.Labels.{deletes_range};

use crate::active_memtable::ActiveMemtable;
use crate::frozen_memtables::FrozenMemtables;
use crate::gathered_memtables::GatheredMemtables;
use std::alloc::{AllocError, Global};
use std::marker::Model;
use uc_bytes::WriteRef;
use uc_model::effects_of_parts_compose;
use uc_oper::{Effect, EffectRef, Operator};
use uc_run::{Memtable, Run, SoughtKey};

/// Memtables after older ones that are set apart, so that another thread flushes them. A contract sees them as
/// [`GatheredMemtables`] of all their writes, and the number of shown ones that are set apart.
///
/// Memtables that are set apart stay as they are until they are dropped, and are joined with no others.
pub struct FlushableMemtables {
    apart: FrozenMemtables,
    behind: GatheredMemtables,
}

impl Model for FlushableMemtables {
    ghost use Rattle.uc_memtable.specs.Gathering.{Gathered};
    ghost use Rattle.uc_memtable.specs.HeldFlushables.{all_flushable, AreFlushable};

    ghost Value = { Gathered };

    ghost view = { all_flushable };

    ghost invariant = { AreFlushable };
}

impl Drop for FlushableMemtables {
    fn drop(self) {
        let FlushableMemtables {
            apart: _,
            behind: _,
        } = self;
    }
}

impl FlushableMemtables {
    /// No writes. It doesn't allocate.
    pub fn new(alloc: Global) -> FlushableMemtables
        ensures { result ≡ record { shown = []; waiting = []; apart = 0 } }
    {
        FlushableMemtables {
            apart: FrozenMemtables::new(alloc),
            behind: GatheredMemtables::new(alloc),
        }
    }

    /// Whether no write is shown.
    pub fn is_empty(&self) -> bool
        ensures { IsTrue result ↔ (self.now.shown ≡ []) }
    {
        self.apart.is_empty() && self.behind.is_empty()
    }

    /// The number of writes that are shown.
    pub fn len(&self) -> usize
        ensures { result ≡ length self.now.shown }
    {
        self.apart.len() + self.behind.len()
    }

    /// The size of the shown writes in bytes, as [`Memtable::size`] counts them.
    pub fn size(&self) -> u64
        ensures { result ≡ memtable_size self.now.shown }
    {
        self.apart.size().saturating_add(self.behind.size())
    }

    /// The last sequence that is shown, or 0 if there is none.
    pub fn last(&self) -> u64
        ensures { result ≡ last_of 0 self.now.shown }
    {
        self.apart.last().max(self.behind.last())
    }

    /// The last sequence of all writes, those that wait too, or 0 if there is none.
    pub fn last_prepared(&self) -> u64
        ensures { result ≡ last_of 0 (self.now.shown ++ self.now.waiting) }
    {
        self.apart.last().max(self.behind.last_prepared())
    }

    /// The size of all writes in bytes, those that wait too.
    pub fn size_of_all(&self) -> u64
        ensures { result ≡ memtable_size (self.now.shown ++ self.now.waiting) }
    {
        self.apart.size().saturating_add(self.behind.size_of_all())
    }

    /// Whether a write waits.
    pub fn is_waiting(&self) -> bool
        ensures { IsTrue result ↔ (self.now.waiting ≢ []) }
    {
        self.behind.is_waiting()
    }

    /// The number of range deletions among the shown writes.
    pub fn ranges(&self) -> usize
        ensures { result ≡ count_by deletes_range self.now.shown }
    {
        self.apart.ranges() + self.behind.ranges()
    }

    /// The memtable that has all shown writes and no other: there is one if none is frozen and none waits.
    pub fn memtable(&self) -> Option<&Memtable>
        ensures { IfSome result (λ memtable. memtable.now ≡ self.now.shown) }
    {
        if self.apart.is_empty() {
            self.behind.memtable()
        } else {
            None
        }
    }

    /// One memtable of copies of all shown writes.
    pub fn to_memtable(&self, alloc: Global) -> Result<ActiveMemtable, AllocError>
        ensures { IfOk result (λ one. one ≡ record { shown = self.now.shown; waiting = [] }) }
    {
        self.behind.to_memtable_behind(alloc, &self.apart)
    }

    /// The invariant of all such memtables: the sequences of their writes rise. Proof step: does nothing when it runs.
    pub fn recall(&self)
        ensures { IsRising 0 (self.now.shown ++ self.now.waiting) }
    {
        let _ = &self.behind;
    }

    /// Takes a write, which then waits after the others, as [`ActiveMemtable::prepare`] does. An `Err` changes
    /// nothing.
    pub fn prepare(&mut self, write: &WriteRef<'_>) -> Result<(), AllocError>
        requires above { last_of 0 (self.old.shown ++ self.old.waiting) < write.now.seq }
        requires below { write.now.seq < 2 ^ 56 }
        ensures ok { OnOk result (self.new ≡ record self.old { waiting = self.old.waiting ++ write.now ∷ [] }) }
        ensures err { OnErr result (self.new ≡ self.old) }
    {
        self.behind.prepare(write)
    }

    /// Shows the writes that wait. It takes no memory, and can't fail.
    pub fn commit(&mut self)
        ensures { self.new ≡ record self.old { shown = self.old.shown ++ self.old.waiting; waiting = [] } }
    {
        self.behind.commit();
    }

    /// Forgets the writes that wait, as [`ActiveMemtable::give_up`] does. It takes no memory.
    pub fn give_up(&mut self)
        ensures { self.new ≡ record self.old { waiting = [] } }
    {
        self.behind.give_up();
    }

    /// Removes all writes, and keeps their memory as [`ActiveMemtable::clear`] does, except for those that are set apart or frozen.
    pub fn clear(&mut self, alloc: Global, most: u64)
        ensures { self.new ≡ record { shown = []; waiting = []; apart = 0 } }
    {
        self.apart.clear(alloc);
        self.behind.clear(alloc, most);
    }

    /// A share of what is shown, for other threads, as [`GatheredMemtables::share`] gives it. No write changes here.
    pub fn share(&mut self, alloc: Global) -> Result<FlushableMemtables, AllocError>
        ensures shared { IfOk result (λ shared. (shared.shown ≡ self.old.shown) × (shared.waiting ≡ [])) }
        ensures same { self.new ≡ self.old }
    {
        let behind = self.behind.share(alloc)?;
        Ok(FlushableMemtables {
            apart: self.apart.shared(alloc)?,
            behind,
        })
    }

    /// Sets all shown writes apart for a flush, and returns another handle to them, which shows the same from now on. It copies no
    /// key or value except those of prepared writes. Fails only if allocation fails, and changes nothing then.
    pub fn set_apart(&mut self, alloc: Global) -> Result<FlushableMemtables, AllocError>
        ensures shared { IfOk result (λ shared. (shared.shown ≡ self.old.shown) × (shared.waiting ≡ [])) }
        ensures ok { OnOk result (self.new ≡ record self.old { apart = length self.old.shown }) }
        ensures err { OnErr result (self.new ≡ self.old) }
    {
        let (all, again) = self.behind.take_frozen(alloc, &self.apart)?;
        self.apart = all;
        Ok(FlushableMemtables {
            apart: FrozenMemtables::new(alloc),
            behind: GatheredMemtables::of_frozen(alloc, again),
        })
    }

    /// Drops what is set apart. It takes no memory, and frees none that another thread shares.
    pub fn drop_apart(&mut self, alloc: Global)
        ensures { self.new ≡ record { shown = drop self.old.apart self.old.shown; waiting = self.old.waiting; apart = 0 } }
    {
        self.apart = FrozenMemtables::new(alloc);
    }

    /// As [`effect_of_sought`](FlushableMemtables::effect_of_sought), of a key that it hashes, with a copy of the value that is put.
    pub fn effect<O: Operator>(
        &self,
        alloc: Global,
        key: &[u8],
        at: u64,
    ) -> Result<Effect, AllocError>
        ensures { IfOk result (λ effect. effect ≡ effect_on O.meaning self.now.shown key.now at) }
    {
        self.effect_of_sought::<O>(alloc, &SoughtKey::new(key), at)?
            .into_effect(alloc)
    }

    /// The effect of the shown writes at or below a sequence on a key. It asks the memtables from the newest on, up
    /// to the first that puts or deletes the key. A value that is put, and that nothing is merged into, stays where it is.
    pub fn effect_of_sought<O: Operator>(
        &self,
        alloc: Global,
        key: &SoughtKey<'_>,
        at: u64,
    ) -> Result<EffectRef<'_>, AllocError>
        ensures { IfOk result (λ effect. effect ≡ effect_on O.meaning self.now.shown key.now at) }
    {
        effects_of_parts_compose::<O>();
        let newer = self.behind.effect_of_sought::<O>(alloc, key, at)?;
        self.apart.effect_before::<O>(alloc, key, at, newer)
    }

    /// The run of the shown writes, as [`Memtable::to_run`] makes it. If they are in several memtables, it costs a copy
    /// of all.
    pub fn to_run(&self, alloc: Global) -> Result<Run, AllocError>
        requires { self.now.shown ≢ [] }
        ensures { IfOk result (λ run. run ≡ flushed self.now.shown) }
    {
        if self.apart.is_empty() {
            return self.behind.to_run(alloc);
        }
        self.to_memtable(alloc)?.to_run(alloc)
    }
}
