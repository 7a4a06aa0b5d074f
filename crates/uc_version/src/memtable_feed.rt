//! A memtable that is fed to an owner's store.
ghost use Rattle.std.specs.Prelude.{◌≡◌, ◌≢◌, ◌⊎◌, ◌+◌, ◌<◌, ◌^◌, [], None, Some, true, IfErr, OnOk, length, nat_le, nat_lt};
ghost use Rattle.uc_batch.specs.Rising.{IsRising};
ghost use Rattle.uc_claims.specs.declared.table.TheConstants.{MOST_SLOTS};
ghost use Rattle.uc_run.specs.Size.{memtable_size};
ghost use Rattle.uc_version_state.specs.Feeds.{fed, first_feed_refusal, feed_refusal};
ghost use Rattle.uc_version_state.specs.declared.feed_error.FeedError.TheVariants.{Memory};
ghost use Rattle.uc_version.specs.Feeding as feeding;

use crate::claims::move_down;
use crate::owned::Owned;
use std::alloc::Global;
use uc_claims::MOST_SLOTS;
use uc_oper::Operator;
use uc_run::Memtable;
use uc_version_open::version_with_memtable;
use uc_version_state::{
    FeedError, Version, feeds_and_keeps_give_versions, no_refusal_is_leave_to_feed,
    small_writes_fill_one_memtable,
};

/// Why a version doesn't take one run more, if it doesn't.
pub(crate) fn run_refusal(version: &Version) -> Option<FeedError>
    ensures { result ≡ first_feed_refusal version.now.last true (nat_le (length version.now.runs + 1) MOST_SLOTS)
        (nat_lt (version.now.next_id + 1) (2 ^ 64)) }
{
    if version.runs().len() >= MOST_SLOTS {
        return Some(FeedError::TooManyRuns);
    }
    if version.next_id() == u64::MAX {
        return Some(FeedError::IdsSpent);
    }
    None
}

impl<O: Operator> Owned<O> {
    /// Shows the version after a memtable's writes were fed.
    fn show_memtable(&mut self, memtable: &Memtable, next: Version)
        requires some { memtable.now ≢ [] }
        requires small { memtable_size memtable.now < self.old.version.limit }
        requires rising { IsRising self.old.version.last memtable.now }
        requires none { feed_refusal self.old.version memtable.now ≡ None }
        requires next { next ≡ fed memtable.now self.old.version }
        ensures { self.new ≡ feeding.after_feed memtable.now self.old }
    {
        no_refusal_is_leave_to_feed();
        feeds_and_keeps_give_versions();
        small_writes_fill_one_memtable();
        self.version = next;
        move_down(&mut self.claims, 1);
    }

    /// Feeds the writes of a memtable, which are all above the last sequence number and together below the size at which a memtable
    /// is flushed, so they make one run. The result and the errors are those of [`feed`](Owned::feed) with a list of these writes.
    /// It copies each key and value once.
    pub fn feed_memtable(&mut self, alloc: Global, memtable: &Memtable) -> Result<(), FeedError>
        requires some { memtable.now ≢ [] }
        requires small { memtable_size memtable.now < self.old.version.limit }
        requires rising { IsRising self.old.version.last memtable.now }
        ensures ok { OnOk result
            ((feed_refusal self.old.version memtable.now ≡ None)
            × (self.new ≡ feeding.after_feed memtable.now self.old)) }
        ensures err { IfErr result (λ error.
            (self.new ≡ self.old)
            × ((feed_refusal self.old.version memtable.now ≡ Some error)
            ⊎ ((feed_refusal self.old.version memtable.now ≡ None) × (error ≡ Memory)))) }
    {
        no_refusal_is_leave_to_feed();
        small_writes_fill_one_memtable();
        if let Some(error) = run_refusal(&self.version) {
            return Err(error);
        }
        let next = version_with_memtable(alloc, &self.version, memtable)?;
        self.show_memtable(memtable, next);
        Ok(())
    }
}
