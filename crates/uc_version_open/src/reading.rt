//! [`Reading`]: a log that is read into a store, while threads may flush the store's full memtables.
ghost use Rattle.std.specs.Prelude.{◌≡◌, ◌≤◌, ◌++◌, Some, ℕ, List, IfOk, OnOk, map};
ghost use Rattle.uc_bytes.specs.declared.write.Write.{Write as WriteOf};
ghost use Rattle.uc_batch.specs.declared.ended.Ended.{Ended as EndedOf};
ghost use Rattle.uc_batch.specs.Position.{nothing_ahead};
ghost use Rattle.uc_batch.specs.Rising.{IsRising, last_of};
ghost use Rattle.uc_run_entry.specs.Run.{Contents};
ghost use Rattle.uc_run.specs.Flush.{flushed};
ghost use Rattle.uc_version_state.specs.declared.options.Options.{Options as OptionsOf};
ghost use Rattle.uc_version_open.specs.Lending.{StandsIn};
ghost use Rattle.uc_version_open.specs.Progress.{progress_of};
ghost use Rattle.uc_version_open.specs.Reading.{IsTaken, ReadsOn, unread};

use crate::full_memtable::FullMemtable;
use crate::log_batches::LogBatches;
use crate::opener::Opener;
use crate::work::Work;
use crate::workers::Workers;
use std::alloc::{AllocError, Global};
use uc_batch::{Advance, BatchWrites, Ended};
use uc_run::Run;
use uc_version_state::Options;

/// The number of full memtables in a round: others flush them, while the calling thread fills as many more.
const ROUND: usize = 2;

/// Takes the writes of a batch into a store that is being opened. The runs that it has stay where they stand.
pub(crate) fn insert_batch<W: Workers>(
    workers: &W,
    alloc: Global,
    opener: &mut Opener,
    writes: BatchWrites<'_>,
) -> Result<(), AllocError>
    requires can { W.can_work }
    requires rising { IsRising opener.old.last writes }
    ensures taken { (options : OptionsOf) (before : List WriteOf) → opener.old ≡ progress_of options before →
        OnOk result (opener.new ≡ progress_of options (before ++ writes.entry)) }
    ensures last { OnOk result (opener.new.last ≡ last_of opener.old.last writes.entry) }
    ensures stay { (place : ℕ) (part : List Contents) → StandsIn place part opener.old.held →
        OnOk result (StandsIn place part opener.new.held) }
{
    for write in writes {
        opener.insert(workers, alloc, &write)?;
    }
    Ok(())
}

/// The place up to which a log was read, and the store that is being opened with what was read of it.
#[derive(Drop)]
pub(crate) struct Reading<'a> {
    batches: LogBatches<'a>,
    /// The store.
    pub(crate) opener: Opener,
    /// The end of the log, once it was found.
    pub(crate) ended: Option<Ended>,
    ghost as_far: { opener.last ≡ batches.last },
    ghost at_end: { (e : EndedOf) → ended ≡ Some e → batches.ahead ≡ nothing_ahead e },
}

/// Reads batches until enough memtables wait for a round, or the log ends. It reads one at least. If the calling thread works alone,
/// none waits, and it reads all.
fn read_on<'a, W: Workers>(
    workers: &W,
    alloc: Global,
    mut batches: LogBatches<'a>,
    mut opener: Opener,
) -> Result<Reading<'a>, AllocError>
    requires can { W.can_work }
    requires as_far { opener.last ≡ batches.last }
    ensures on { IfOk result (λ reading. ReadsOn batches.entry opener reading.batches reading.opener) }
    ensures fewer { IfOk result (λ reading. unread reading.ended reading.batches.left ≤ batches.entry.left) }
{
    loop {
        match batches.advance()? {
            Advance::Batch => {
                insert_batch(workers, alloc, &mut opener, batches.writes())?;
            }
            Advance::Ended(ended) => {
                return Ok(Reading {
                    batches,
                    opener,
                    ended: Some(ended),
                });
            }
        }
        if opener.waiting() >= ROUND {
            return Ok(Reading {
                batches,
                opener,
                ended: None,
            });
        }
    }
}

/// Begins to read a log into a store, until there are enough memtables for a first round, or the log ends.
pub(crate) fn begin_reading<'a, W: Workers>(
    workers: &W,
    alloc: Global,
    batches: LogBatches<'a>,
    options: Options,
) -> Result<Reading<'a>, AllocError>
    requires can { W.can_work }
    requires start { batches.last ≡ 0 }
    ensures { IfOk result (λ reading. IsTaken options batches.entry.ahead reading.batches reading.opener) }
{
    let opener = Opener::new(alloc, options);
    read_on(workers, alloc, batches, opener)
}

/// A log that is to be read on while others flush.
#[derive(Drop)]
struct ReadOn<'a, 'w, W: Workers> {
    workers: &'w W,
    alloc: Global,
    batches: LogBatches<'a>,
    opener: Opener,
}

impl<'a, 'w, W: Workers> Work for ReadOn<'a, 'w, W> {
    type Output = Result<Reading<'a>, AllocError>;

    ghost can_be_done = { λ work. W.can_work × (work.opener.last ≡ work.batches.last) };

    ghost gives = { λ work result. IfOk result (λ reading.
        ReadsOn work.batches work.opener reading.batches reading.opener
        × (unread reading.ended reading.batches.left ≤ work.batches.left)) };

    fn run(self) -> Result<Reading<'a>, AllocError> {
        let ReadOn {
            workers,
            alloc,
            batches,
            opener,
        } = self;
        read_on(workers, alloc, batches, opener)
    }
}

/// The runs of memtables that these workers make, and how far this thread read in that time.
fn flush_beside_reading<'a, W: Workers>(
    workers: &W,
    alloc: Global,
    memtables: &[FullMemtable],
    batches: LogBatches<'a>,
    opener: Opener,
) -> Result<(Vec<Run>, Reading<'a>), AllocError>
    requires can { W.can_work }
    requires as_far { opener.last ≡ batches.last }
    ensures runs { IfOk result (λ done. done.0.items ≡ map flushed memtables.now) }
    ensures on { IfOk result (λ done. ReadsOn batches.entry opener done.1.batches done.1.opener) }
    ensures fewer { IfOk result (λ done. unread done.1.ended done.1.batches.left ≤ batches.entry.left) }
{
    let work = ReadOn {
        workers,
        alloc,
        batches,
        opener,
    };
    let (runs, reading) = workers.flush_beside(alloc, memtables, work);
    let runs = runs?;
    Ok((runs, reading?))
}

/// A round: the waiting memtables are flushed, while this thread reads until as many wait again, or the log ends.
pub(crate) fn flush_and_read_on<'a, W: Workers>(
    workers: &W,
    alloc: Global,
    reading: Reading<'a>,
) -> Result<Reading<'a>, AllocError>
    requires { W.can_work }
    ensures on { IfOk result (λ next. ReadsOn reading.entry.batches reading.entry.opener next.batches next.opener) }
    ensures fewer { IfOk result (λ next. unread next.ended next.batches.left ≤ reading.entry.batches.left) }
{
    let Reading {
        batches,
        opener,
        ..
    } = reading;
    let (opener, loan) = opener.lend(alloc)?;
    let (runs, reading) = flush_beside_reading(
        workers,
        alloc,
        loan.memtables.as_slice(),
        batches,
        opener,
    )?;
    let Reading {
        batches,
        mut opener,
        ended,
    } = reading;
    opener.settle(loan.older, runs)?;
    Ok(Reading {
        batches,
        opener,
        ended,
    })
}
