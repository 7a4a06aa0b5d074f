//! [`Job`]: a compaction that is done away from its store.
ghost use Rattle.std.specs.Prelude.{◌≡◌, ◌≢◌, true, IfOk, OnOk, OnErr};
ghost use Rattle.uc_version.specs.Claiming.{is_held};
ghost use Rattle.uc_version.specs.Jobs as jobs;
ghost use Rattle.uc_version.specs.Jobs.{HasEnded, IsOwn, IsStarted};
ghost use Rattle.uc_version.specs.declared.job_stage.JobStage.TheVariants.{Ended};

use crate::job_end::JobEnd;
use crate::job_stage::JobStage;
use crate::laws::picks_can_be_claimed;
use crate::owned::Owned;
use crate::owned_claim::OwnedClaim;
use std::alloc::{AllocError, Global};
use std::marker::Model;
use std::mem;
use uc_compact::{Compacted, Merger};
use uc_oper::Operator;
use uc_version_compact::Asked;

/// The stage of a job, with what was made of its runs.
#[derive(Drop)]
enum Progress<O: Operator> {
    Taken,
    Run(Compacted<O>),
    Ended,
    /// It has ended, and its run couldn't be installed.
    Refused(Compacted<O>),
}

/// A compaction that any thread runs away from its store: the claim of a stretch, and references to its runs. The owner takes it
/// out by [`Owned::start_job`] and puts it back by [`Owned::end_job`]. If it is dropped before, its runs stay claimed for good.
///
/// It keeps its references to the runs until it is dropped, even when it has ended. So the runs that its own replaced are freed
/// where the job is dropped, and not by their owner, and so is its own if that couldn't be installed.
pub struct Job<O: Operator> {
    claim: OwnedClaim,
    asked: Asked,
    progress: Progress<O>,
}

impl<O: Operator> Model for Job<O> {
    ghost use Rattle.uc_version.specs.Jobs.{Task};
    ghost use Rattle.uc_version.specs.HeldJobs.{task, IsTask};

    ghost Value = { Task };

    ghost view = { task };

    ghost invariant = { IsTask };
}

// A destructor of its own: where a value is dropped, the proof of a caller has one call, and not one for each field.
impl<O: Operator> Drop for Job<O> {
    fn drop(self) {
        let Job {
            claim: _,
            asked: _,
            progress: _,
        } = self;
    }
}

impl<O: Operator> Job<O> {
    /// The stage that it has reached.
    pub fn stage(&self) -> JobStage
        ensures { result ≡ self.now.stage }
    {
        match &self.progress {
            Progress::Taken => JobStage::Taken,
            Progress::Run(_) => JobStage::Run,
            Progress::Ended | Progress::Refused(_) => JobStage::Ended,
        }
    }

    /// The size of the runs that it compacts together in bytes, with 8 for each sequence, at most 2^64 - 1. It looks at each run
    /// once, and at no point.
    pub fn input_size(&self) -> u64
        ensures { result ≡ jobs.input_size self.now }
    {
        self.asked.input_size()
    }

    /// Compacts its runs by this merger, unless that is done or it has ended. It touches no store. An `Err` changes
    /// nothing.
    pub fn run_by<M: Merger<O>>(&mut self, merger: &M, alloc: Global) -> Result<(), AllocError>
        requires { M.can_merge merger.now }
        ensures ok { OnOk result (self.new ≡ jobs.run self.old) }
        ensures err { OnErr result (self.new ≡ self.old) }
    {
        if let Progress::Taken = self.progress {
            self.progress = Progress::Run(self.asked.compact_by::<O, M>(merger, alloc)?);
        }
        Ok(())
    }

    /// Ends it: its claim, and what was made of its runs, if it was run.
    fn end(&mut self) -> (OwnedClaim, Option<Compacted<O>>)
        ensures claim { result.0 ≡ self.old.claim }
        ensures made { jobs.IsMadeOf self.old result.1 }
        ensures ended { self.new ≡ jobs.ended self.old }
    {
        let made = match mem::replace(&mut self.progress, Progress::Ended) {
            Progress::Run(made) => Some(made),
            Progress::Taken | Progress::Ended | Progress::Refused(_) => None,
        };
        (self.claim.again(), made)
    }

    /// Keeps the run that it made, which couldn't be installed.
    fn keep(&mut self, made: Compacted<O>)
        requires { self.old.stage ≡ Ended }
        ensures { self.new ≡ self.old }
    {
        self.progress = Progress::Refused(made);
    }
}

impl<O: Operator> Owned<O> {
    /// Claims the stretch that is picked next, if there is one, for a job. It copies no run. An `Err` changes nothing.
    pub fn start_job(&mut self, alloc: Global) -> Result<Option<Job<O>>, AllocError>
        ensures ok { IfOk result (λ job. IsStarted (jobs.next_stretch self.old) job self.old self.new) }
        ensures err { OnErr result (self.new ≡ self.old) }
    {
        self.recall();
        picks_can_be_claimed();
        let Some(stretch) = self.pick() else {
            return Ok(None);
        };
        // The steps that can fail come first.
        let asked = Asked::of(alloc, self.version(), stretch)?;
        match self.claim(stretch) {
            Ok(claim) => Ok(Some(Job {
                claim,
                asked,
                progress: Progress::Taken,
            })),
            Err(_) => unreachable!(),
        }
    }

    /// Whether this store holds the claim of a job: one with its number and its ids.
    pub fn has_out(&self, job: &Job<O>) -> bool
        ensures { result ≡ is_held self.now job.now.claim }
    {
        self.holds(&job.claim)
    }

    /// Ends a job that was taken out of this store: installs its run, if it was run, and gives its claim back in any case. It
    /// compares no points, copies and frees no run, and doesn't allocate. The job keeps its references to the replaced runs.
    ///
    /// A job that was run fails only if run IDs are exhausted, whatever was fed, kept, released or installed since.
    pub fn end_job(&mut self, job: &mut Job<O>) -> JobEnd
        requires out { job.old.stage ≢ Ended }
        requires held { is_held self.old job.old.claim ≡ true }
        requires own { IsOwn self.old job.old }
        ensures ended { HasEnded O.meaning job.old self.old self.new result }
        ensures kept { job.new ≡ jobs.ended job.old }
    {
        let (claim, made) = job.end();
        let Some(made) = made else {
            self.abandon(claim);
            return JobEnd::NotRun;
        };
        if let Some(error) = self.own_refusal_of(&claim, &made) {
            self.abandon(claim);
            job.keep(made);
            return JobEnd::Refused(error);
        }
        JobEnd::Installed(self.replace_claimed(claim, made))
    }
}
