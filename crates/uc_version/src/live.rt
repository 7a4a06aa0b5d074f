//! Writes that are fed to an owner's store, and snapshots that come and go.
ghost use Rattle.std.specs.Prelude.{◌≡◌, ◌⊎◌, ◌+◌, ◌≤◌, None, Some, Contains, IfOk, IfErr, OnOk, OnErr, length, map};
ghost use Rattle.uc_batch.specs.Rising.{IsRising};
ghost use Rattle.uc_version_state.specs.Feeds.{fed, memtables_in, feed_refusal};
ghost use Rattle.uc_version_state.specs.declared.feed_error.FeedError.TheVariants.{Memory};
ghost use Rattle.uc_version.specs.Feeding as feeding;
ghost use Rattle.uc_version_state.specs.declared.release_error.ReleaseError.TheVariants.{NotKept};

use crate::claims::move_down;
use crate::owned::Owned;
use std::alloc::{AllocError, Global};
use uc_batch::Writes;
use uc_bytes::Write;
use uc_oper::Operator;
use uc_version_open::{Alone, Workers, fed_version};
use uc_version_state::{
    FeedError, ReleaseError, Version, feeds_and_keeps_give_versions, no_refusal_is_leave_to_feed,
};

impl<O: Operator> Owned<O> {
    /// Shows the version after writes were fed. Returns how many runs there are more.
    fn show_fed(&mut self, writes: &[Write], next: Version) -> u64
        requires rising { IsRising 0 writes.now }
        requires none { feed_refusal self.old.version writes.now ≡ None }
        requires next { next ≡ fed writes.now self.old.version }
        ensures count { result ≡ length (memtables_in self.old.version writes.now) }
        ensures after { self.new ≡ feeding.after_feed writes.now self.old }
    {
        no_refusal_is_leave_to_feed();
        feeds_and_keeps_give_versions();
        let count = next.runs().len() - self.version.runs().len();
        self.version = next;
        move_down(&mut self.claims, count);
        count as u64
    }

    /// Feeds writes: they fill memtables, and each becomes a run before all others. Returns the number of new runs. The last
    /// sequence number becomes theirs; keeps stay, and so do claims, which continue to hold their runs. The result of a compaction
    /// for a claim that was taken before a feed, a keep or a release can be installed after it, if an id is left. An empty list
    /// changes nothing.
    ///
    /// Fails, in this order, if the first write isn't above the last sequence number, if a run would have no slot, if run IDs are
    /// exhausted, or if allocation fails. The store is then unchanged, and only in the last case was anything flushed. It costs two
    /// copies of each key and value and a sort of what is fed. It copies no existing run.
    pub fn feed(&mut self, alloc: Global, writes: &Writes) -> Result<u64, FeedError>
        ensures ok { IfOk result (λ count.
            (feed_refusal self.old.version writes.now.list ≡ None)
            × (count ≡ length (memtables_in self.old.version writes.now.list))
            × (self.new ≡ feeding.after_feed writes.now.list self.old)) }
        ensures err { IfErr result (λ error.
            (self.new ≡ self.old)
            × ((feed_refusal self.old.version writes.now.list ≡ Some error)
            ⊎ ((feed_refusal self.old.version writes.now.list ≡ None) × (error ≡ Memory)))) }
    {
        self.feed_by(&Alone, alloc, writes)
    }

    /// Feeds writes as [`feed`](Owned::feed) does, and these workers flush their memtables. The result and the errors are the same.
    /// Threads pay if the writes fill several memtables, up to four of which they hold at a time.
    pub fn feed_by<W: Workers>(
        &mut self,
        workers: &W,
        alloc: Global,
        writes: &Writes,
    ) -> Result<u64, FeedError>
        requires { W.can_work }
        ensures ok { IfOk result (λ count.
            (feed_refusal self.old.version writes.now.list ≡ None)
            × (count ≡ length (memtables_in self.old.version writes.now.list))
            × (self.new ≡ feeding.after_feed writes.now.list self.old)) }
        ensures err { IfErr result (λ error.
            (self.new ≡ self.old)
            × ((feed_refusal self.old.version writes.now.list ≡ Some error)
            ⊎ ((feed_refusal self.old.version writes.now.list ≡ None) × (error ≡ Memory)))) }
    {
        no_refusal_is_leave_to_feed();
        let list = writes.list();
        if let Some(error) = self.version.feed_refusal(list) {
            return Err(error);
        }
        let next = fed_version(workers, alloc, &self.version, list)?;
        Ok(self.show_fed(list, next))
    }

    /// Takes a snapshot: the last sequence becomes a keep, if it isn't one. Returns it. Keeps aren't counted: one release
    /// ends a keep that was taken twice. An `Err` changes nothing.
    pub fn keep(&mut self) -> Result<u64, AllocError>
        ensures ok { IfOk result (λ seq.
            (seq ≡ self.old.version.last) × (self.new ≡ feeding.after_keep self.old)) }
        ensures err { OnErr result (self.new ≡ self.old) }
    {
        self.version.keep()?;
        Ok(self.version.last())
    }

    /// Releases a snapshot: the sequence number is no longer a keep. Fails if it is none.
    pub fn release(&mut self, seq: u64) -> Result<(), ReleaseError>
        ensures ok { OnOk result
            (Contains self.old.version.keeps seq × (self.new ≡ feeding.after_release seq self.old)) }
        ensures err { IfErr result (λ error.
            (error ≡ NotKept seq) × ¬ Contains self.old.version.keeps seq × (self.new ≡ self.old)) }
    {
        if !self.version.is_kept(seq) {
            return Err(ReleaseError::NotKept(seq));
        }
        self.version.release(seq);
        Ok(())
    }
}
