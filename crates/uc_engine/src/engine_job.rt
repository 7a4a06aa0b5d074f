//! [`EngineJob`]: a compaction that is done away from its engine.
ghost use Rattle.std.specs.Prelude.{◌≡◌, ◌≢◌, true, false, IfOk, IfSome, OnErr, OnOk};
ghost use Rattle.uc_version.specs.Claiming.{is_held};
ghost use Rattle.uc_version.specs.Jobs.{IsOwn, input_size};
ghost use Rattle.uc_version.specs.declared.job_stage.JobStage.TheVariants.{Ended};
ghost use Rattle.uc_live.specs.Lives.{owner_in};
ghost use Rattle.uc_live.specs.LiveJobs.{EndsJob, StartsJob};
ghost use Rattle.uc_engine.specs.EngineJobs.{ended, run, task_in};
ghost use Rattle.uc_engine.specs.Engines.{meaning_of};
ghost use Rattle.uc_engine.specs.HeldEngineJobs.{kind_of, task_of};

use crate::each_operator::{kind_of, map_each, with_each};
use crate::engine::{AnyStore, Engine};
use crate::operator_kind::{LastBytes, OperatorKind, Texts};
use std::alloc::{AllocError, Global};
use std::marker::Model;
use uc_live::{Job, JobEnd, JobStage};
use uc_mixed::Mixed;
use uc_oper::{Counter, Maximum};
use uc_version::Alone;

/// A job of a store of each operator.
#[derive(Drop)]
pub(crate) enum AnyJob {
    /// A job of a store that joins byte strings.
    Append(Job<Texts>),
    /// A job of a store that adds numbers.
    Counter(Job<Counter>),
    /// A job of a store that keeps the greater byte string.
    Maximum(Job<Maximum>),
    /// A job of a store that keeps the last bytes.
    Tail(Job<LastBytes>),
    /// A job of a store whose operands name their operators.
    Mixed(Job<Mixed>),
}

/// A compaction that any thread runs away from its engine. [`Engine::start_job`] takes it out and [`Engine::end_job`] puts it back.
/// If it is dropped before, its runs stay claimed for good. It keeps its runs until it is dropped, even when it has ended. A
/// contract sees the operator and the job's state.
pub struct EngineJob {
    pub(crate) job: AnyJob,
}

impl Model for EngineJob {
    ghost use Rattle.uc_engine.specs.EngineJobs.{EngineTask};
    ghost use Rattle.uc_engine.specs.HeldEngineJobs.{engine_task};

    ghost Value = { EngineTask };

    ghost view = { engine_task };
}

// A destructor of its own: where a value is dropped, the proof of a caller has one call, and not one for each field.
impl Drop for EngineJob {
    fn drop(self) {
        let EngineJob { job: _ } = self;
    }
}

impl EngineJob {
    /// The merge operator.
    pub fn kind(&self) -> OperatorKind
        ensures { result ≡ self.now.kind }
    {
        kind_of!(AnyJob, &self.job)
    }

    /// The stage that it has reached.
    pub fn stage(&self) -> JobStage
        ensures { result ≡ self.now.task.stage }
    {
        with_each!(AnyJob, &self.job, job => job.stage())
    }

    /// The size of the runs that it compacts together in bytes, with 8 for each sequence, at most 2^64 - 1.
    pub fn input_size(&self) -> u64
        ensures { result ≡ input_size self.now.task }
    {
        with_each!(AnyJob, &self.job, job => job.input_size())
    }

    /// Compacts its runs, unless that is done or it has ended. The calling thread does all of it. It touches no engine.
    /// An `Err` changes nothing.
    pub fn run(&mut self, alloc: Global) -> Result<(), AllocError>
        ensures ok { OnOk result (self.new ≡ run self.old) }
        ensures err { OnErr result (self.new ≡ self.old) }
    {
        with_each!(AnyJob, &mut self.job, job => job.run_by(&Alone, alloc))
    }
}

impl Engine {
    /// Takes the compaction of what is picked next, if there is such, out of the engine as a job, as
    /// `LiveStore::start_job` does. An `Err` changes nothing.
    pub fn start_job(&mut self, alloc: Global) -> Result<Option<EngineJob>, AllocError>
        ensures kind { self.new.kind ≡ self.old.kind }
        ensures ok { IfOk result (λ job. StartsJob (task_in job) self.old.live self.new.live) }
        ensures alike { IfOk result (λ job. IfSome job (λ j. j.kind ≡ self.old.kind)) }
        ensures err { OnErr result (self.new ≡ self.old) }
    {
        let job = map_each!(AnyStore => AnyJob, &mut self.store, store => {
            match store.start_job(alloc)? {
                Some(job) => job,
                None => return Ok(None),
            }
        });
        Ok(Some(EngineJob { job }))
    }

    /// Whether a job is out of this engine: whether it has the engine's operator, and the store holds a claim with its
    /// number and its ids.
    pub fn has_out(&self, job: &EngineJob) -> bool
        ensures out { result ≡ true → (job.now.kind ≡ self.now.kind) × (is_held (owner_in self.now.live) job.now.task.claim ≡ true) }
        ensures not { result ≡ false → job.now.kind ≡ self.now.kind → is_held (owner_in self.now.live) job.now.task.claim ≡ false }
    {
        match (&self.store, &job.job) {
            (AnyStore::Append(store), AnyJob::Append(job)) => store.has_out(job),
            (AnyStore::Counter(store), AnyJob::Counter(job)) => store.has_out(job),
            (AnyStore::Maximum(store), AnyJob::Maximum(job)) => store.has_out(job),
            (AnyStore::Tail(store), AnyJob::Tail(job)) => store.has_out(job),
            (AnyStore::Mixed(store), AnyJob::Mixed(job)) => store.has_out(job),
            _ => false,
        }
    }

    /// Ends a job that was taken out of this engine, as `LiveStore::end_job` does: installs its run, if it was run, and
    /// gives its claim back in any case. It frees no run, and doesn't allocate.
    pub fn end_job(&mut self, job: &mut EngineJob) -> JobEnd
        requires out { job.old.task.stage ≢ Ended }
        requires kind { job.old.kind ≡ self.old.kind }
        requires held { is_held (owner_in self.old.live) job.old.task.claim ≡ true }
        requires own { IsOwn (owner_in self.old.live) job.old.task }
        ensures kind { self.new.kind ≡ self.old.kind }
        ensures ended { EndsJob (meaning_of self.old.kind) job.old.task self.old.live self.new.live result }
        ensures kept { job.new ≡ ended job.old }
    {
        match (&mut self.store, &mut job.job) {
            (AnyStore::Append(store), AnyJob::Append(job)) => store.end_job(job),
            (AnyStore::Counter(store), AnyJob::Counter(job)) => store.end_job(job),
            (AnyStore::Maximum(store), AnyJob::Maximum(job)) => store.end_job(job),
            (AnyStore::Tail(store), AnyJob::Tail(job)) => store.end_job(job),
            (AnyStore::Mixed(store), AnyJob::Mixed(job)) => store.end_job(job),
            _ => unreachable!(),
        }
    }
}
