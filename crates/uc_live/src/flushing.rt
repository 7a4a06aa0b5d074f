//! Flushes: writes in memtables become a run.
ghost use Rattle.std.specs.Prelude.{◌≡◌, ◌≢◌, ◌<◌, ◌⊎◌, [], Some, None, false, OnOk, IfErr, length};
ghost use Rattle.uc_batch.specs.Rising.{IsRising};
ghost use Rattle.uc_claims.specs.declared.table.TheConstants.{MOST_SLOTS};
ghost use Rattle.uc_run.specs.Size.{memtable_size};
ghost use Rattle.uc_version_state.specs.Feeds.{feed_refusal};
ghost use Rattle.uc_version_state.specs.declared.feed_error.FeedError.TheVariants as feed_errors;
ghost use Rattle.uc_version.specs.Feeding.{after_feed};
ghost use Rattle.uc_live.specs.Compacting.{HasNoRoom};
ghost use Rattle.uc_live.specs.Going.{GoesOn};
ghost use Rattle.uc_live.specs.LiveFlushes.{HasRoom};
ghost use Rattle.uc_live.specs.Writing.{Prepares};

use crate::live_options::MOST_RANGES;
use crate::live_store::LiveStore;
use crate::room_error::RoomError;
use std::alloc::Global;
use uc_memtable::FlushableMemtables;
use uc_oper::Operator;
use uc_version::{FeedError, Owned, claims_keep_their_runs};
use uc_version_state::{no_refusal_is_leave_to_feed, small_writes_fill_one_memtable};

/// Feeds the writes in memtables to an owner, as one run. If some of them are frozen, it costs a copy of all. An `Err` changes
/// nothing.
fn feed_gathered<O: Operator>(
    owned: &mut Owned<O>,
    alloc: Global,
    active: &FlushableMemtables,
) -> Result<(), FeedError>
    requires some { active.now.shown ≢ [] }
    requires small { memtable_size active.now.shown < owned.old.version.limit }
    requires rising { IsRising owned.old.version.last active.now.shown }
    ensures ok { OnOk result ((feed_refusal owned.old.version active.now.shown ≡ None)
        × (owned.new ≡ after_feed active.now.shown owned.old)) }
    ensures err { IfErr result (λ error. (owned.new ≡ owned.old)
        × ((feed_refusal owned.old.version active.now.shown ≡ Some error) ⊎ (error ≡ feed_errors.Memory))) }
{
    match active.memtable() {
        Some(memtable) => owned.feed_memtable(alloc, memtable),
        None => {
            let all = active.to_memtable(alloc)?;
            owned.feed_memtable(alloc, all.memtable())
        }
    }
}

impl<O: Operator> LiveStore<O> {
    /// Flushes the memtables, and begins with empty ones. An `Err` changes nothing.
    fn flush_active(&mut self, alloc: Global) -> Result<(), RoomError>
        requires some { self.old.gathered ≢ [] }
        requires none { self.old.prepared ≡ [] }
        requires free { length self.old.version.runs < MOST_SLOTS }
        ensures goes_on { OnOk result (GoesOn O.meaning self.old self.new []) }
        ensures all { OnOk result (self.new.gathered ≡ []) }
        ensures none { OnOk result (self.new.prepared ≡ []) }
        ensures err { IfErr result (λ error. HasNoRoom error self.old × (self.new ≡ self.old)) }
    {
        self.owned.recall();
        no_refusal_is_leave_to_feed();
        small_writes_fill_one_memtable();
        claims_keep_their_runs::<O>();
        match feed_gathered(&mut self.owned, alloc, &self.active) {
            Ok(()) => {
                // One batch may be larger than a memtable. What holds that isn't kept.
                let most = self.options.store.memtable.saturating_mul(2);
                self.active.clear(alloc, most);
                self.leaving = None;
                Ok(())
            }
            Err(FeedError::IdsSpent) => Err(RoomError::IdsSpent),
            Err(FeedError::Memory) => Err(RoomError::Memory),
            Err(FeedError::Back(_)) => unreachable!(),
            Err(FeedError::TooManyRuns) => unreachable!(),
        }
    }

    /// Whether as many memtables are full as the store may have, so that no more writes are taken.
    pub(crate) fn is_crowded(&self) -> bool
        ensures { result ≡ false → HasRoom self.now }
    {
        let most = u64::from(self.options.max_write_buffer_number);
        self.active.size() >= self.options.store.memtable.saturating_mul(most)
            || self.active.ranges() as u64 >= MOST_RANGES as u64 * most
    }

    /// Flushes the memtables. Compacts first if there are `stop_trigger` runs or more. Then, if the options say so, compacts while
    /// anything is picked. A prepared batch is discarded.
    ///
    /// Fails if run IDs are exhausted, if no slot is free for a run and jobs have the runs that would be compacted, or if
    /// allocation fails. The memtables then stay, and no read changes.
    pub fn flush(&mut self, alloc: Global) -> Result<(), RoomError>
        ensures prepares { Prepares O.meaning self.old self.new [] }
        ensures all { OnOk result (self.new.gathered ≡ []) }
        ensures err { IfErr result (λ error. HasNoRoom error self.new) }
    {
        self.active.give_up();
        if self.active.is_empty() {
            return Ok(());
        }
        self.make_slot(alloc)?;
        self.flush_active(alloc)?;
        if self.options.compacts_itself {
            self.compact_while_picked(alloc);
        }
        Ok(())
    }

    /// Flushes if memtables hold more than this many writes and no batch is prepared, so that a scan has no more to sort. If
    /// allocation fails or run IDs are exhausted, they stay in memtables.
    pub fn settle(&mut self, alloc: Global, most: usize)
        ensures { Prepares O.meaning self.old self.new self.old.prepared }
    {
        if self.active.len() > most && !self.active.is_waiting() {
            let _ = self.flush(alloc);
        }
    }
}
