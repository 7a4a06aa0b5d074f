//! [`FlushJob`]: a flush that is done away from its store.
ghost use Rattle.std.specs.Arc.{arc_value};
ghost use Rattle.std.specs.Prelude.{◌≡◌, ◌≢◌, [], OnOk, OnErr, option_map};
ghost use Rattle.uc_batch.specs.Rising.{last_of};
ghost use Rattle.uc_version.specs.declared.job_stage.JobStage.TheVariants as stages;
ghost use Rattle.uc_live.specs.LiveFlushes as flushes;
ghost use Rattle.uc_live.specs.LiveFlushes.{IsMadeOf};

use std::alloc::{AllocError, Global};
use std::marker::Model;
use std::mem;
use std::sync::Arc;
use uc_memtable::FlushableMemtables;
use uc_run::Run;
use uc_version::JobStage;

/// The stage of a flush job, with the run that was made.
#[derive(Drop)]
enum Progress {
    Taken,
    Run(Arc<Run>),
    /// It has ended, and keeps its share of the run, if it was run.
    Ended(Option<Arc<Run>>),
}

/// A flush that any thread runs away from its store, over shared memtables. The owner takes it out by
/// [`LiveStore::start_flush`](crate::LiveStore::start_flush) and puts it back by
/// [`LiveStore::end_flush`](crate::LiveStore::end_flush). If it is dropped before, its store flushes the writes itself once the
/// memtables are full, and starts no flush job before that.
///
/// It keeps its references to the memtables and to its run until it is dropped, even when it has ended. So memory that nobody else
/// shares is freed where the job is dropped, and not by the owner.
pub struct FlushJob {
    number: u64,
    memtables: FlushableMemtables,
    progress: Progress,
}

impl Model for FlushJob {
    ghost use Rattle.uc_live.specs.LiveFlushes.{FlushTask};
    ghost use Rattle.uc_live.specs.HeldFlushJobs.{flush_task, IsFlushJob};

    ghost Value = { FlushTask };

    ghost view = { flush_task };

    ghost invariant = { IsFlushJob };
}

// A destructor of its own: where a value is dropped, the proof of a caller has one call, and not one for each field.
impl Drop for FlushJob {
    fn drop(self) {
        let FlushJob {
            number: _,
            memtables: _,
            progress: _,
        } = self;
    }
}

impl FlushJob {
    /// The flush of what memtables show, with a number.
    pub(crate) fn new(number: u64, memtables: FlushableMemtables) -> FlushJob
        requires { memtables.shown ≢ [] }
        ensures { result ≡ record { number = number; writes = memtables.shown; stage = stages.Taken } }
    {
        FlushJob {
            number,
            memtables,
            progress: Progress::Taken,
        }
    }

    /// Its number, from 1: how many flush jobs were taken out with it.
    pub fn number(&self) -> u64
        ensures { result ≡ self.now.number }
    {
        self.number
    }

    /// The stage that it has reached.
    pub fn stage(&self) -> JobStage
        ensures { result ≡ self.now.stage }
    {
        match &self.progress {
            Progress::Taken => JobStage::Taken,
            Progress::Run(_) => JobStage::Run,
            Progress::Ended(_) => JobStage::Ended,
        }
    }

    /// The last sequence of its writes.
    pub(crate) fn last(&self) -> u64
        ensures { result ≡ last_of 0 self.now.writes }
    {
        self.memtables.last()
    }

    /// The invariant of every flush job: it has writes. Proof step: does nothing when it runs.
    pub(crate) fn recall(&self)
        ensures { self.now.writes ≢ [] }
    {
        let _ = &self.progress;
    }

    /// Makes a run of its writes, unless that is done or it has ended. It touches no store. An `Err` changes nothing.
    pub fn run(&mut self, alloc: Global) -> Result<(), AllocError>
        ensures ok { OnOk result (self.new ≡ flushes.run self.old) }
        ensures err { OnErr result (self.new ≡ self.old) }
    {
        if let Progress::Taken = self.progress {
            let run = self.memtables.to_run(alloc)?;
            self.progress = Progress::Run(Arc::new(alloc, run)?);
        }
        Ok(())
    }

    /// The run that was made, if it was run and hasn't ended.
    pub(crate) fn made(&self) -> Option<&Arc<Run>>
        ensures { IsMadeOf self.now (option_map (λ run. arc_value run.now) result) }
    {
        match &self.progress {
            Progress::Run(run) => Some(run),
            Progress::Taken => None,
            Progress::Ended(_) => None,
        }
    }

    /// Ends it. The job keeps its share of the run.
    pub(crate) fn end(&mut self)
        ensures { self.new ≡ flushes.ended self.old }
    {
        let kept = match mem::replace(&mut self.progress, Progress::Taken) {
            Progress::Run(run) => Some(run),
            Progress::Taken => None,
            Progress::Ended(run) => run,
        };
        self.progress = Progress::Ended(kept);
    }
}
