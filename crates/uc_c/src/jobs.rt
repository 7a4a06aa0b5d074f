//! Jobs that C holds: flushes and compactions that are done away from their store.
ghost use Rattle.std.specs.Prelude.{◌≡◌, ◌⊎◌, ◌↔◌, Some, IsTrue, IfOk, OnErr, option_map};
ghost use Rattle.uc_engine.specs.declared.taken_job.TakenJob.TheVariants as kinds;
ghost use Rattle.uc_c.specs.declared.status.TheConstants.{OK, NO_JOB};
ghost use Rattle.uc_c.specs.Jobs as jobs;
ghost use Rattle.uc_c.specs.Jobs.{EndsTaken, IsOwnJob, RunsJob, TakesJob, TakesNone, TakesOne, TellsSize};
ghost use Rattle.uc_engine.specs.StoreJobs.{IsOf};
ghost use Rattle.uc_c.specs.Replies.{Closes};

use crate::status::{HAS_JOB, JOB_ENDED, NO_JOB, NO_STORE, NOT_OF_STORE, OK, OUT_OF_MEMORY};
use std::alloc::{AllocError, Global};
use uc_engine::{
    Engine, EngineJob, FlushEnd, FlushJob, JobEnd, JobStage, StoreJob, TakenJob, flushes_go_in,
};
use uc_handle::{Handle, JobHandle};
use uc_oper::Counter;
use uc_version::{claimable_stretches_can_be_compacted, claims_are_held};

/// Takes a job out of the store, puts it into its handle, and stores whether there was one. The job is the flush of the memtables,
/// if flushes are left to jobs and a memtable is full, or else the compaction that is picked next. Until the job ends, the store
/// doesn't compact its runs. Fails if the handle has a job, or if allocation fails.
#[unsafe(no_mangle)]
pub extern "C" fn ucstore_job(
    alloc: Global,
    handle: &mut Handle,
    job: &mut JobHandle,
    taken: &mut bool,
) -> i32
    ensures takes { TakesJob result handle.old.held handle.new.held job.old.held job.new.held taken.new }
    ensures untold { (result ≡ OK) ⊎ (taken.new ≡ taken.old) }
{
    if let Some(held) = job.take(alloc) {
        job.put(held);
        return HAS_JOB;
    }
    let Some(mut engine) = handle.take(alloc) else {
        return NO_STORE;
    };
    let started = start(alloc, &mut engine);
    handle.put(engine);
    match started {
        Ok(Some(started)) => {
            job.put(started);
            *taken = true;
            OK
        }
        Ok(None) => {
            *taken = false;
            OK
        }
        Err(_) => OUT_OF_MEMORY,
    }
}

/// Ends a job that was just taken, and isn't run. Nobody else could give back what it has.
fn give_back(alloc: Global, engine: &mut Engine, job: &mut TakenJob)
    requires { jobs.CanGoBack engine.old job.old }
    ensures { jobs.GoesBack engine.old engine.new job.old }
{
    match job {
        TakenJob::Flush(flush) => {
            engine.end_flush(alloc, flush);
        }
        TakenJob::Compaction(compaction) => {
            engine.end_job(compaction);
        }
    }
}

/// A job that is taken, with the store's id, in a box, if there is one. An `Err` changes nothing but how many flush jobs were
/// taken.
fn start(alloc: Global, engine: &mut Engine) -> Result<Option<Box<StoreJob>>, AllocError>
    ensures ok { IfOk result (λ job. TakesOne (option_map (λ b. b.value) job) engine.old engine.new) }
    ensures err { OnErr result (TakesNone engine.old engine.new) }
{
    engine.recall();
    claims_are_held();
    claimable_stretches_can_be_compacted::<Counter>();
    flushes_go_in::<Counter>();
    let store = engine.id();
    let Some(job) = engine.take_job(alloc)? else {
        return Ok(None);
    };
    match Box::new(alloc, StoreJob { store, job }) {
        Ok(started) => Ok(Some(started)),
        Err(refused) => {
            let mut started = refused.value;
            give_back(alloc, engine, &mut started.job);
            Err(AllocError)
        }
    }
}

/// Whether the job has ended.
fn is_ended(job: &StoreJob) -> bool
    ensures { IsTrue result ↔ jobs.HasEnded job.now.job }
{
    matches!(job.stage(), JobStage::Ended)
}

/// Runs the job, unless it was run before. The calling thread does all the work, and accesses no store. Fails if the job has ended,
/// or if allocation fails.
#[unsafe(no_mangle)]
pub extern "C" fn ucstore_job_run(alloc: Global, job: &mut JobHandle) -> i32
    ensures { RunsJob result job.old.held job.new.held }
{
    let Some(mut held) = job.take(alloc) else {
        return NO_JOB;
    };
    if is_ended(&held) {
        job.put(held);
        return JOB_ENDED;
    }
    let done = held.run(alloc);
    job.put(held);
    match done {
        Ok(()) => OK,
        Err(_) => OUT_OF_MEMORY,
    }
}

/// Ends a job that was taken from the store: installs its run, if it was run and can be installed, and stores in `installed`
/// whether it did. The store may then flush its writes or compact its runs again. Frees no run and no memtable: the job keeps its
/// own until it is closed. Fails if the job has ended, or if it was taken from another store.
///
/// Requires that a job with the store's id is the store's own, which `taken_jobs_are_own` says of each job that was taken from it.
/// Each store has its own number, so C need not do anything for it.
#[unsafe(no_mangle)]
pub extern "C" fn ucstore_job_end(
    alloc: Global,
    handle: &mut Handle,
    job: &mut JobHandle,
    installed: &mut bool,
) -> i32
    requires own { IsOwnJob handle.old.held job.old.held }
    ensures ends { EndsTaken result handle.old.held handle.new.held job.old.held job.new.held installed.new }
    ensures untold { (result ≡ OK) ⊎ (installed.new ≡ installed.old) }
{
    let Some(mut held) = job.take(alloc) else {
        return NO_JOB;
    };
    let status = end_held(alloc, handle, &mut held, installed);
    job.put(held);
    status
}

/// Ends a job, as [`ucstore_job_end`] does.
fn end_held(alloc: Global, handle: &mut Handle, job: &mut StoreJob, installed: &mut bool) -> i32
    requires own { IsOwnJob handle.old.held (Some job.old) }
    ensures ends { EndsTaken result handle.old.held handle.new.held (Some job.old) (Some job.new) installed.new }
    ensures untold { (result ≡ OK) ⊎ (installed.new ≡ installed.old) }
{
    if is_ended(job) {
        return JOB_ENDED;
    }
    let Some(mut engine) = handle.take(alloc) else {
        return NO_STORE;
    };
    let ended = end(alloc, &mut engine, job);
    handle.put(engine);
    match ended {
        Some(is_installed) => {
            *installed = is_installed;
            OK
        }
        None => NOT_OF_STORE,
    }
}

/// Ends a job that hasn't ended. Returns whether its run was installed, or `None` if it was taken from another store.
fn end(alloc: Global, engine: &mut Engine, job: &mut StoreJob) -> Option<bool>
    requires lasts { ¬ jobs.HasEnded job.old.job }
    requires own { IsOf engine.old job.old → jobs.IsOwn engine.old job.old.job }
    ensures { jobs.IsTakenBack engine.old engine.new job.old job.new result }
{
    if !engine.is_of(job) {
        return None;
    }
    end_own(alloc, engine, &mut job.job)
}

/// Ends a job of the engine that hasn't ended. Returns whether its run was installed, or `None` if the engine doesn't hold its
/// claim.
fn end_own(alloc: Global, engine: &mut Engine, job: &mut TakenJob) -> Option<bool>
    requires lasts { ¬ jobs.HasEnded job.old }
    requires own { jobs.IsOwn engine.old job.old }
    ensures { jobs.IsBack engine.old engine.new job.old job.new result }
{
    match job {
        TakenJob::Flush(flush) => Some(end_flush(alloc, engine, flush)),
        TakenJob::Compaction(compaction) => end_compaction(engine, compaction),
    }
}

/// Ends a flush job. Returns whether its run was installed.
fn end_flush(alloc: Global, engine: &mut Engine, job: &mut FlushJob) -> bool
    requires lasts { ¬ jobs.HasEnded (kinds.Flush job.old) }
    requires own { jobs.IsOwn engine.old (kinds.Flush job.old) }
    ensures { jobs.IsBack engine.old engine.new (kinds.Flush job.old) (kinds.Flush job.new) (Some result) }
{
    let end = engine.end_flush(alloc, job);
    is_flushed(&end)
}

/// Whether the run of a flush job was installed.
fn is_flushed(end: &FlushEnd) -> bool
    ensures { result ≡ jobs.is_flushed end.now }
{
    matches!(end, FlushEnd::Installed(_))
}

/// Ends a compaction job, if the engine holds its claim. Returns whether its run was installed.
fn end_compaction(engine: &mut Engine, job: &mut EngineJob) -> Option<bool>
    requires lasts { ¬ jobs.HasEnded (kinds.Compaction job.old) }
    requires own { jobs.IsOwn engine.old (kinds.Compaction job.old) }
    ensures { jobs.IsBack engine.old engine.new (kinds.Compaction job.old) (kinds.Compaction job.new) result }
{
    if !engine.has_out(job) {
        return None;
    }
    let end = engine.end_job(job);
    Some(is_installed(&end))
}

/// Whether the run of a compaction job was installed.
fn is_installed(end: &JobEnd) -> bool
    ensures { result ≡ jobs.is_installed end.now }
{
    matches!(end, JobEnd::Installed(_))
}

/// Stores the total size in bytes of the runs that the job compacts, as `ucstore_report` counts them: 0 for a flush. So the change
/// of the store's size when the job ends shows the size of the new run.
#[unsafe(no_mangle)]
pub extern "C" fn ucstore_job_input_bytes(
    alloc: Global,
    job: &mut JobHandle,
    bytes: &mut u64,
) -> i32
    ensures tells { TellsSize result job.old.held job.new.held bytes.new }
    ensures untold { (result ≡ OK) ⊎ (bytes.new ≡ bytes.old) }
{
    let Some(held) = job.take(alloc) else {
        return NO_JOB;
    };
    *bytes = held.input_size();
    job.put(held);
    OK
}

/// Frees the job of the handle, if there is one, with what it had. It touches no store. One that hasn't ended is
/// forgotten: a store that is still there never compacts its runs again, and flushes its writes itself.
#[unsafe(no_mangle)]
pub extern "C" fn ucstore_job_close(alloc: Global, job: &mut JobHandle) -> i32
    ensures { Closes NO_JOB result job.old.held job.new.held }
{
    match job.take(alloc) {
        None => NO_JOB,
        Some(_) => OK,
    }
}
