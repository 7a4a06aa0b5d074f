//! Laws about jobs that C takes.
ghost use Rattle.std.specs.Prelude.{◌≡◌, ℤ, Bool, Option, Some, None};
ghost use Rattle.uc_engine.specs.declared.store_job.StoreJob.{StoreJob as Job};
ghost use Rattle.uc_engine.specs.Engines.{Engined};
ghost use Rattle.uc_engine.specs.StoreJobs.{IsOf};
ghost use Rattle.uc_c.specs.declared.status.TheConstants.{JOB_ENDED, NOT_OF_STORE};
ghost use Rattle.uc_c.specs.Jobs.{EndsTaken, HasEnded, IsOwnJob, RunsJob, TakesJob};

use uc_engine::flushes_go_in;
use uc_oper::Counter;

/// A job that a store has just given out is its own, and so it is after it was run, and once it has ended. It stays so
/// while calls on the store hold its claim, as `jobs_go_in` and `flushes_go_in` of the live store say. Whatever another
/// store is asked, the job is none of its own to break.
pub fn taken_jobs_are_own()
    ensures taken { (status : ℤ) (store store' : Option Engined) (job' : Option Job) (taken : Bool) →
        TakesJob status store store' None job' taken → IsOwnJob store' job' }
    ensures run { (status : ℤ) (store : Option Engined) (job job' : Option Job) →
        IsOwnJob store job → RunsJob status job job' → IsOwnJob store job' }
    ensures ended { (store : Option Engined) (job : Job) → HasEnded job.job → IsOwnJob store (Some job) }
    ensures others { (e : Engined) (job : Job) → ¬ IsOf e job → IsOwnJob (Some e) (Some job) }
{
    flushes_go_in::<Counter>();
}

/// A job of another store changes nothing: neither the store that it is ended on nor itself.
pub fn jobs_of_others_change_nothing()
    ensures refused { (status : ℤ) (e : Engined) (store' : Option Engined) (job : Job) (job' : Option Job) (installed : Bool) →
        ¬ IsOf e job → ¬ HasEnded job.job → EndsTaken status (Some e) store' (Some job) job' installed → status ≡ NOT_OF_STORE }
    ensures store { (status : ℤ) (e : Engined) (store' : Option Engined) (job : Job) (job' : Option Job) (installed : Bool) →
        ¬ IsOf e job → EndsTaken status (Some e) store' (Some job) job' installed → store' ≡ Some e }
    ensures job { (status : ℤ) (e : Engined) (store' : Option Engined) (job : Job) (job' : Option Job) (installed : Bool) →
        ¬ IsOf e job → EndsTaken status (Some e) store' (Some job) job' installed → job' ≡ Some job }
{}
