//! Compactions that are done away from their store.
ghost use Rattle.std.specs.Prelude.{◌≡◌, ◌≢◌, true, IfOk, OnErr};
ghost use Rattle.uc_version.specs.Claiming.{is_held};
ghost use Rattle.uc_version.specs.Jobs.{IsOwn, ended};
ghost use Rattle.uc_version.specs.declared.job_stage.JobStage.TheVariants.{Ended};
ghost use Rattle.uc_live.specs.LiveJobs.{EndsJob, StartsJob};
ghost use Rattle.uc_live.specs.Lives.{owner_in};

use crate::live_store::LiveStore;
use std::alloc::{AllocError, Global};
use uc_oper::Operator;
use uc_version::{Job, JobEnd};

impl<O: Operator> LiveStore<O> {
    /// Takes the compaction that is picked next, if there is one, out of the store as a job, which any thread runs. It copies no
    /// run. Until the job ends, the store doesn't compact its runs, and takes all other calls. An `Err` changes nothing.
    pub fn start_job(&mut self, alloc: Global) -> Result<Option<Job<O>>, AllocError>
        ensures ok { IfOk result (λ job. StartsJob job self.old self.new) }
        ensures err { OnErr result (self.new ≡ self.old) }
    {
        self.owned.start_job(alloc)
    }

    /// Whether a job is out of this store: whether it holds a claim with its number and its ids.
    pub fn has_out(&self, job: &Job<O>) -> bool
        ensures { result ≡ is_held (owner_in self.now) job.now.claim }
    {
        self.owned.has_out(job)
    }

    /// Ends a job that was taken out of this store: installs its run, if it was run, and gives its claim back in any case. It
    /// compares no points, copies and frees no run, and doesn't allocate. The job keeps its references to the replaced runs until
    /// it is dropped, which any thread may do.
    ///
    /// A job that was run fails only if run IDs are exhausted, whatever was written, flushed, compacted, taken as a snapshot or
    /// released since.
    pub fn end_job(&mut self, job: &mut Job<O>) -> JobEnd
        requires out { job.old.stage ≢ Ended }
        requires held { is_held (owner_in self.old) job.old.claim ≡ true }
        requires own { IsOwn (owner_in self.old) job.old }
        ensures ended { EndsJob O.meaning job.old self.old self.new result }
        ensures kept { job.new ≡ ended job.old }
    {
        self.owned.end_job(job)
    }
}
