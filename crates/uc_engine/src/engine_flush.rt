//! Flushes that are done away from their engine.
ghost use Rattle.std.specs.Prelude.{◌≡◌, ◌≢◌, IfOk, OnErr};
ghost use Rattle.uc_version.specs.declared.job_stage.JobStage.TheVariants.{Ended};
ghost use Rattle.uc_live.specs.LiveFlushes as flushes;
ghost use Rattle.uc_live.specs.LiveFlushes.{EndsFlush, IsOwnFlush, StartsFlush, wants_flush};

use crate::each_operator::with_each;
use crate::engine::{AnyStore, Engine};
use std::alloc::{AllocError, Global};
use uc_live::{FlushEnd, FlushJob};

impl Engine {
    /// Takes the flush of all memtables out of the engine as a job, if one is needed, as `LiveStore::start_flush` does. An `Err`
    /// changes nothing.
    pub fn start_flush(&mut self, alloc: Global) -> Result<Option<FlushJob>, AllocError>
        ensures kind { self.new.kind ≡ self.old.kind }
        ensures ok { IfOk result (λ job. StartsFlush (wants_flush self.old.live) job self.old.live self.new.live) }
        ensures err { OnErr result (self.new ≡ self.old) }
    {
        with_each!(AnyStore, &mut self.store, store => store.start_flush(alloc))
    }

    /// Whether a flush job is out of this engine, as `LiveStore::has_flush_out` says it.
    pub fn has_flush_out(&self, job: &FlushJob) -> bool
        ensures { result ≡ flushes.has_flush_out self.now.live job.now }
    {
        with_each!(AnyStore, &self.store, store => store.has_flush_out(job))
    }

    /// Ends a flush job that was taken out of this engine, as `LiveStore::end_flush` does: installs its run, if it was
    /// run, unless its writes were flushed since.
    pub fn end_flush(&mut self, alloc: Global, job: &mut FlushJob) -> FlushEnd
        requires out { job.old.stage ≢ Ended }
        requires own { IsOwnFlush self.old.live job.old }
        ensures kind { self.new.kind ≡ self.old.kind }
        ensures ended { EndsFlush job.old self.old.live self.new.live result }
        ensures kept { job.new ≡ flushes.ended job.old }
    {
        with_each!(AnyStore, &mut self.store, store => store.end_flush(alloc, job))
    }
}
