//! Flushes that are done away from their store.
ghost use Rattle.std.specs.Prelude.{◌≡◌, ◌≢◌, IfOk, OnErr};
ghost use Rattle.uc_version.specs.declared.job_stage.JobStage.TheVariants.{Ended};
ghost use Rattle.uc_live.specs.LiveFlushes as flushes;
ghost use Rattle.uc_live.specs.LiveFlushes.{EndsFlush, IsOwnFlush, StartsFlush};

use crate::flush_end::FlushEnd;
use crate::flush_job::FlushJob;
use crate::live_options::MOST_RANGES;
use crate::live_store::LiveStore;
use std::alloc::{AllocError, Global};
use uc_oper::Operator;
use uc_version_state::small_writes_fill_one_memtable;

impl<O: Operator> LiveStore<O> {
    /// Whether a memtable is full.
    fn is_full(&self) -> bool
        ensures { result ≡ flushes.is_full self.now }
    {
        self.active.size() >= self.options.store.memtable || self.active.ranges() >= MOST_RANGES
    }

    /// Whether [`start_flush`](LiveStore::start_flush) takes a job out.
    pub fn wants_flush(&self) -> bool
        ensures { result ≡ flushes.wants_flush self.now }
    {
        self.leaving.is_none()
            && self.options.max_write_buffer_number > 1
            && self.flushes < u64::MAX
            && self.is_full()
    }

    /// Takes the flush of all memtables out of the store as a job, which any thread runs: if a memtable is full, if the store has
    /// more than one, and if no flush job is pending. It copies no key or value except those of a prepared batch. Until the job
    /// ends, its writes are read in the memtables, and the store takes all other calls. An `Err` changes nothing.
    pub fn start_flush(&mut self, alloc: Global) -> Result<Option<FlushJob>, AllocError>
        ensures ok { IfOk result (λ job. StartsFlush (flushes.wants_flush self.old) job self.old self.new) }
        ensures err { OnErr result (self.new ≡ self.old) }
    {
        if !self.wants_flush() {
            return Ok(None);
        }
        let memtables = self.active.set_apart(alloc)?;
        self.flushes += 1;
        self.leaving = Some(memtables.len());
        Ok(Some(FlushJob::new(self.flushes, memtables)))
    }

    /// Whether a flush job is out of this store: whether it has the number of the last one, and that is out.
    pub fn has_flush_out(&self, job: &FlushJob) -> bool
        ensures { result ≡ flushes.has_flush_out self.now job.now }
    {
        self.leaving.is_some() && self.flushes == job.number()
    }

    /// Ends a flush job that was taken out of this store: installs its run, if it was run, and drops its memtables from the store.
    /// It sorts nothing and copies no key or value. The job keeps its references to the memtables and to its run until it is
    /// dropped, which any thread may do.
    ///
    /// If its writes have been flushed since, nothing changes. Otherwise a job that was run fails only if no slot or no id is left,
    /// or if allocation fails. Its writes then stay in the memtables, for another job.
    pub fn end_flush(&mut self, alloc: Global, job: &mut FlushJob) -> FlushEnd
        requires out { job.old.stage ≢ Ended }
        requires own { IsOwnFlush self.old job.old }
        ensures ended { EndsFlush job.old self.old self.new result }
        ensures kept { job.new ≡ flushes.ended job.old }
    {
        if !self.has_flush_out(job) {
            job.end();
            return FlushEnd::FlushedBefore;
        }
        small_writes_fill_one_memtable();
        self.owned.recall();
        job.recall();
        self.leaving = None;
        let last = job.last();
        let Some(run) = job.made() else {
            job.end();
            return FlushEnd::NotRun;
        };
        let id = self.owned.version().next_id();
        let fed = self.owned.feed_run(alloc, run, last);
        job.end();
        match fed {
            Ok(()) => {
                self.active.drop_apart(alloc);
                FlushEnd::Installed(id)
            }
            Err(error) => FlushEnd::Refused(error),
        }
    }
}
