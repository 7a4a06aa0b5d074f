//! [`StoreJob`]: a job with the store that it was taken from.
ghost use Rattle.std.specs.Prelude.{◌≡◌, ◌↔◌, IsTrue, OnErr, OnOk};
ghost use Rattle.uc_engine.specs.StoreJobs as jobs;
ghost use Rattle.uc_engine.specs.StoreJobs.{IsOf};

use crate::engine::Engine;
use crate::taken_job::TakenJob;
use std::alloc::{AllocError, Global};
use uc_live::{JobStage, StoreId};

/// A job of either kind, with the id of the store that it was taken from. It ends on no other one.
#[derive(Drop)]
pub struct StoreJob {
    /// The id of the store.
    pub store: StoreId,
    /// The job.
    pub job: TakenJob,
}

impl StoreJob {
    /// The stage that it has reached.
    pub fn stage(&self) -> JobStage
        ensures { result ≡ jobs.stage_of self.now }
    {
        self.job.stage()
    }

    /// The size of the runs that it compacts together in bytes, as [`TakenJob::input_size`] counts them.
    pub fn input_size(&self) -> u64
        ensures { result ≡ jobs.input_size self.now }
    {
        self.job.input_size()
    }

    /// Does it, as [`TakenJob::run`] does.
    pub fn run(&mut self, alloc: Global) -> Result<(), AllocError>
        ensures ok { OnOk result (self.new ≡ jobs.run self.old) }
        ensures err { OnErr result (self.new ≡ self.old) }
    {
        self.job.run(alloc)
    }
}

impl Engine {
    /// Whether a job was taken from a store with this one's id.
    pub fn is_of(&self, job: &StoreJob) -> bool
        ensures { IsTrue result ↔ IsOf self.now job.now }
    {
        self.id().is(&job.store)
    }
}
