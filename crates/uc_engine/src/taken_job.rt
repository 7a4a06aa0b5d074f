//! [`TakenJob`]: a job of either kind.
ghost use Rattle.std.specs.Prelude.{◌≡◌, IfOk, OnErr, OnOk};
ghost use Rattle.uc_engine.specs.TakenJobs as jobs;
ghost use Rattle.uc_engine.specs.TakenJobs.{Takes};

use crate::engine::Engine;
use crate::engine_job::EngineJob;
use std::alloc::{AllocError, Global};
use uc_live::{FlushJob, JobStage};

/// A job of either kind that was taken out of an engine.
#[derive(Drop)]
pub enum TakenJob {
    /// The flush of memtables.
    Flush(FlushJob),
    /// The compaction of a stretch of runs.
    Compaction(EngineJob),
}

impl TakenJob {
    /// The stage that it has reached.
    pub fn stage(&self) -> JobStage
        ensures { result ≡ jobs.stage_of self.now }
    {
        match self {
            TakenJob::Flush(job) => job.stage(),
            TakenJob::Compaction(job) => job.stage(),
        }
    }

    /// The size of the runs that it compacts together in bytes, with 8 for each sequence, at most 2^64 - 1. A flush compacts none.
    pub fn input_size(&self) -> u64
        ensures { result ≡ jobs.input_size self.now }
    {
        match self {
            TakenJob::Flush(_) => 0,
            TakenJob::Compaction(job) => job.input_size(),
        }
    }

    /// Does it, unless that is done or it has ended. The calling thread does all of it. It touches no engine. An `Err`
    /// changes nothing.
    pub fn run(&mut self, alloc: Global) -> Result<(), AllocError>
        ensures ok { OnOk result (self.new ≡ jobs.run self.old) }
        ensures err { OnErr result (self.new ≡ self.old) }
    {
        match self {
            TakenJob::Flush(job) => job.run(alloc),
            TakenJob::Compaction(job) => job.run(alloc),
        }
    }
}

impl Engine {
    /// Takes a job out of the engine: the flush of the memtables, if one is needed, or else the compaction that is picked next, if
    /// there is one. An `Err` changes nothing.
    pub fn take_job(&mut self, alloc: Global) -> Result<Option<TakenJob>, AllocError>
        ensures ok { IfOk result (λ job. Takes job self.old self.new) }
        ensures err { OnErr result (self.new ≡ self.old) }
    {
        if let Some(job) = self.start_flush(alloc)? {
            return Ok(Some(TakenJob::Flush(job)));
        }
        match self.start_job(alloc)? {
            Some(job) => Ok(Some(TakenJob::Compaction(job))),
            None => Ok(None),
        }
    }
}
