//! [`ActiveMemtable`]: writes that are looked into while more come.
ghost use Rattle.std.specs.Prelude.{◌≡◌, ◌≢◌, ◌<◌, ◌^◌, ◌↔◌, ◌∷◌, ◌++◌, [], IsTrue, IfOk, OnOk, OnErr, length, count_by};
ghost use Rattle.std.specs.List.{slice_get};
ghost use Rattle.uc_batch.specs.Rising.{IsRising, last_of};
ghost use Rattle.uc_model.specs.Meaning.{effect_on};
ghost use Rattle.uc_run.specs.Flush.{flushed};
ghost use Rattle.uc_run.specs.Size.{memtable_size};
ghost use Rattle.uc_memtable.specs.Labels.{deletes_range};

use crate::chains::Chains;
use crate::copying::prepare_range;
use crate::label::{is_range, label_of};
use crate::lookup::effect_seen;
use crate::sight::Sight;
use std::alloc::{AllocError, Global};
use std::marker::Model;
use uc_bytes::WriteRef;
use uc_oper::{Effect, EffectRef, Operator};
use uc_run::{Memtable, Run, SoughtKey};

/// A memtable that is looked into while it takes writes. A contract sees it as the writes that are shown, and those that
/// were prepared and wait, in order.
pub struct ActiveMemtable {
    /// All writes, those that wait too.
    writes: Memtable,
    /// The labels of all writes.
    chains: Chains,
    /// The number of range deletions among all writes.
    all_ranges: usize,
    /// The number of writes that are shown.
    shown: usize,
    size: u64,
    last: u64,
    /// The number of range deletions among the shown writes.
    ranges: usize,
}

impl Model for ActiveMemtable {
    ghost use Rattle.uc_memtable.specs.Gathering.{Gathering};
    ghost use Rattle.uc_memtable.specs.HeldWrites.{gathered, IsGathered};

    ghost Value = { Gathering };

    ghost view = { gathered };

    ghost invariant = { IsGathered };
}

impl Drop for ActiveMemtable {
    fn drop(self) {
        let ActiveMemtable {
            writes: _,
            chains: _,
            all_ranges: _,
            shown: _,
            size: _,
            last: _,
            ranges: _,
        } = self;
    }
}

impl ActiveMemtable {
    /// A memtable without writes. It doesn't allocate.
    pub fn new(alloc: Global) -> ActiveMemtable
        ensures { result ≡ record { shown = []; waiting = [] } }
    {
        ActiveMemtable {
            writes: Memtable::new(alloc),
            chains: Chains::new(alloc),
            all_ranges: 0,
            shown: 0,
            size: 0,
            last: 0,
            ranges: 0,
        }
    }

    /// Whether no write is shown.
    pub fn is_empty(&self) -> bool
        ensures { IsTrue result ↔ (self.now.shown ≡ []) }
    {
        self.shown == 0
    }

    /// The number of writes that are shown.
    pub fn len(&self) -> usize
        ensures { result ≡ length self.now.shown }
    {
        self.shown
    }

    /// The size of the shown writes in bytes, as [`Memtable::size`] counts them.
    pub fn size(&self) -> u64
        ensures { result ≡ memtable_size self.now.shown }
    {
        self.size
    }

    /// The last sequence that is shown, or 0 if there is none.
    pub fn last(&self) -> u64
        ensures { result ≡ last_of 0 self.now.shown }
    {
        self.last
    }

    /// The last sequence of all writes, those that wait too, or 0 if there is none.
    pub fn last_prepared(&self) -> u64
        ensures { result ≡ last_of 0 (self.now.shown ++ self.now.waiting) }
    {
        self.writes.last()
    }

    /// The size of all writes in bytes, those that wait too.
    pub fn size_of_all(&self) -> u64
        ensures { result ≡ memtable_size (self.now.shown ++ self.now.waiting) }
    {
        self.writes.size()
    }

    /// Whether a write waits.
    pub fn is_waiting(&self) -> bool
        ensures { IsTrue result ↔ (self.now.waiting ≢ []) }
    {
        self.shown < self.writes.len()
    }

    /// The writes as a memtable, if none waits.
    pub fn memtable(&self) -> &Memtable
        requires { self.now.waiting ≡ [] }
        ensures { result.now ≡ self.now.shown }
    {
        &self.writes
    }

    /// The number of range deletions among the shown writes.
    pub fn ranges(&self) -> usize
        ensures { result ≡ count_by deletes_range self.now.shown }
    {
        self.ranges
    }

    /// The shown write at a place, if there is one.
    pub fn write(&self, place: usize) -> Option<WriteRef<'_>>
        ensures { result ≡ slice_get self.now.shown place }
    {
        if self.shown <= place {
            return None;
        }
        self.writes.write(place)
    }

    /// The invariant of every such memtable: the sequences of its writes rise. Proof step: does nothing when it runs.
    pub fn recall(&self)
        ensures { IsRising 0 (self.now.shown ++ self.now.waiting) }
    {
        let _ = &self.shown;
    }

    /// Appends a write, which isn't shown yet. Its sequence number is above all others and at most
    /// [`MAX_SEQUENCE`](uc_bytes::MAX_SEQUENCE). It costs a copy of the key and value, amortized. An `Err` changes nothing.
    pub fn prepare(&mut self, write: &WriteRef<'_>) -> Result<(), AllocError>
        requires above { last_of 0 (self.old.shown ++ self.old.waiting) < write.now.seq }
        requires below { write.now.seq < 2 ^ 56 }
        ensures ok { OnOk result (self.new ≡
            record { shown = self.old.shown; waiting = self.old.waiting ++ write.now ∷ [] }) }
        ensures err { OnErr result (self.new ≡ self.old) }
    {
        let count = self.writes.len();
        self.chains.push(label_of(write.op()))?;
        if let Err(error) = self.writes.insert_ref(write) {
            self.chains.truncate(count);
            return Err(error);
        }
        if is_range(write.op()) {
            self.all_ranges += 1;
        }
        Ok(())
    }

    /// Shows the writes that wait. It takes no memory, and can't fail.
    pub fn commit(&mut self)
        ensures { self.new ≡ record { shown = self.old.shown ++ self.old.waiting; waiting = [] } }
    {
        self.shown = self.writes.len();
        self.size = self.writes.size();
        self.last = self.writes.last();
        self.ranges = self.all_ranges;
    }

    /// Forgets the writes that wait. It takes no memory, and looks at each write that it keeps.
    pub fn give_up(&mut self)
        ensures { self.new ≡ record { shown = self.old.shown; waiting = [] } }
    {
        self.writes.truncate(self.shown);
        self.chains.truncate(self.shown);
        self.all_ranges = self.ranges;
    }

    /// Forgets all writes. Their memory is kept for the next ones, unless they have more than `most` bytes.
    pub fn clear(&mut self, alloc: Global, most: u64)
        ensures { self.new ≡ record { shown = []; waiting = [] } }
    {
        if self.writes.size() > most {
            *self = ActiveMemtable::new(alloc);
        } else {
            self.writes.truncate(0);
            self.chains.truncate(0);
            self.all_ranges = 0;
            self.shown = 0;
            self.size = 0;
            self.last = 0;
            self.ranges = 0;
        }
    }

    /// Appends and shows copies of the writes that another memtable shows. Their sequence numbers are above all of these. It costs
    /// a copy of the keys and values. An `Err` changes nothing.
    pub(crate) fn take_shown(&mut self, other: &ActiveMemtable) -> Result<(), AllocError>
        requires none { self.old.waiting ≡ [] }
        requires rising { IsRising (last_of 0 self.old.shown) other.now.shown }
        ensures ok { OnOk result (self.new ≡
            record { shown = self.old.shown ++ other.now.shown; waiting = [] }) }
        ensures err { OnErr result (self.new ≡ self.old) }
    {
        if let Err(error) = prepare_range(self, &other.writes, 0, other.shown) {
            self.give_up();
            return Err(error);
        }
        self.commit();
        Ok(())
    }

    /// A memtable in which copies of the writes that wait here do so, and no write is shown.
    pub(crate) fn with_waiting(&self, alloc: Global) -> Result<ActiveMemtable, AllocError>
        ensures { IfOk result (λ apart. apart ≡ record { shown = []; waiting = self.now.waiting }) }
    {
        let mut apart = ActiveMemtable::new(alloc);
        prepare_range(&mut apart, &self.writes, self.shown, self.writes.len())?;
        Ok(apart)
    }

    /// As [`effect_of_sought`](ActiveMemtable::effect_of_sought), of a key that it hashes, with a copy of the value that is
    /// put.
    pub fn effect<O: Operator>(
        &self,
        alloc: Global,
        key: &[u8],
        at: u64,
    ) -> Result<Effect, AllocError>
        ensures { IfOk result (λ effect. effect ≡ effect_on O.meaning self.now.shown key.now at) }
    {
        self.effect_of_sought::<O>(alloc, &SoughtKey::new(key), at)?
            .into_effect(alloc)
    }

    /// The effect of the shown writes at or below a sequence number on a key. It searches the range deletions, newest first, for
    /// one over the key, and then reads the writes of the key above it, down to a put or a delete. Merges above that one cost the
    /// length of their result. A value that is put, and into which nothing is merged, isn't copied.
    pub fn effect_of_sought<O: Operator>(
        &self,
        alloc: Global,
        key: &SoughtKey<'_>,
        at: u64,
    ) -> Result<EffectRef<'_>, AllocError>
        ensures { IfOk result (λ effect. effect ≡ effect_on O.meaning self.now.shown key.now at) }
    {
        let sight = Sight {
            writes: &self.writes,
            shown: self.shown,
            key,
            at,
        };
        effect_seen::<O>(alloc, &sight, &self.chains)
    }

    /// The run of the shown writes, as [`Memtable::to_run`] makes it.
    pub fn to_run(&self, alloc: Global) -> Result<Run, AllocError>
        requires { self.now.shown ≢ [] }
        ensures { IfOk result (λ run. run ≡ flushed self.now.shown) }
    {
        self.writes.run_of_first(alloc, self.shown)
    }
}
