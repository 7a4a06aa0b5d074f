//! [`Workers`]: how work is done that threads can share.
ghost use Rattle.std.specs.Prelude.{◌≡◌, ⊤, IfOk, map};
ghost use Rattle.std.specs.Thread.{IsSync};
ghost use Rattle.uc_run.specs.Flush.{flushed};

use crate::full_memtable::FullMemtable;
use crate::work::Work;
use std::alloc::{AllocError, Global};
use std::marker::Sync;
use std::thread::{Threads, join};
use uc_compact::Alone;
use uc_run::Run;

/// The number of full memtables that threads flush at once, where the calling thread waits for them.
const FLUSHED_AT_ONCE: usize = 4;

/// The workers for what threads can share: the calling thread [`Alone`], or it and threads that it starts and waits for
/// ([`InThreads`]). The result is the same, whoever does the work.
pub trait Workers {
    /// The condition under which they work. Threads share the runtime that starts them.
    ghost can_work: { Type 0 };

    /// The number of full memtables that may wait, besides those that are lent. One more, and all are flushed at once. A contract doesn't
    /// see it.
    fn most_waiting(&self) -> usize;

    /// The runs of these memtables, in their order.
    fn flush(&self, alloc: Global, full: &[FullMemtable]) -> Result<Vec<Run>, AllocError>
        requires { can_work }
        ensures { IfOk result (λ runs. runs.items ≡ map flushed full.now) };

    /// The runs of these memtables, and the result of the work that the calling thread does in that time.
    fn flush_beside<W: Work<Output = T> + Drop, T>(
        &self,
        alloc: Global,
        full: &[FullMemtable],
        work: W,
    ) -> (Result<Vec<Run>, AllocError>, T)
        requires can { can_work }
        requires work { W.can_be_done work }
        ensures runs { IfOk result.0 (λ runs. runs.items ≡ map flushed full.now) }
        ensures work { W.gives work result.1 };
}

/// The runs of some memtables, flushed one after the other.
fn flush_in_turn(alloc: Global, full: &[FullMemtable]) -> Result<Vec<Run>, AllocError>
    ensures { IfOk result (λ runs. runs.items ≡ map flushed full.now) }
{
    let mut runs = Vec::with_capacity(alloc, full.len())?;
    for memtable in full {
        runs.push(memtable.to_run(alloc)?)?;
    }
    Ok(runs)
}

/// The runs of some memtables, each flushed by a thread of its own. Where no thread can be had, the one that would wait for it
/// does its work.
#[cycle(side_by_side)]
fn flush_side_by_side<R: Threads + Sync>(
    rt: &R,
    alloc: Global,
    full: &[FullMemtable],
) -> Result<Vec<Run>, AllocError>
    ensures { IfOk result (λ runs. runs.items ≡ map flushed full.now) }
{
    if full.len() <= 1 {
        return flush_in_turn(alloc, full);
    }
    let (older, newer) = full.split_at(full.len() / 2);
    let (older, newer) = join(
        rt,
        || -> Result<Vec<Run>, AllocError>
            requires { IsSync R.row }
            ensures { IfOk result (λ runs. runs.items ≡ map flushed older.entry.now) }
        { flush_side_by_side(rt, alloc, older) },
        || -> Result<Vec<Run>, AllocError>
            requires { IsSync R.row }
            ensures { IfOk result (λ runs. runs.items ≡ map flushed newer.entry.now) }
        { flush_side_by_side(rt, alloc, newer) },
    );
    let mut runs = older?;
    runs.append(&mut newer?)?;
    Ok(runs)
}

/// The runs of some memtables, flushed concurrently by other threads, and the result of the work that this one does in that time.
fn side_by_side_beside<R: Threads + Sync, W: Work<Output = T> + Drop, T>(
    rt: &R,
    alloc: Global,
    full: &[FullMemtable],
    work: W,
) -> (Result<Vec<Run>, AllocError>, T)
    requires { W.can_be_done work }
    ensures runs { IfOk result.0 (λ runs. runs.items ≡ map flushed full.now) }
    ensures work { W.gives work result.1 }
{
    join(
        rt,
        || -> Result<Vec<Run>, AllocError>
            requires { IsSync R.row }
            ensures { IfOk result (λ runs. runs.items ≡ map flushed full.entry.now) }
        { flush_side_by_side(rt, alloc, full) },
        move || -> T
            requires { W.can_be_done work }
            ensures { W.gives work result }
        { work.run() },
    )
}

impl Workers for Alone {
    ghost can_work = { ⊤ };

    /// None: a memtable is flushed as soon as it is full.
    fn most_waiting(&self) -> usize {
        0
    }

    fn flush(&self, alloc: Global, full: &[FullMemtable]) -> Result<Vec<Run>, AllocError> {
        flush_in_turn(alloc, full)
    }

    fn flush_beside<W: Work<Output = T> + Drop, T>(
        &self,
        alloc: Global,
        full: &[FullMemtable],
        work: W,
    ) -> (Result<Vec<Run>, AllocError>, T) {
        (flush_in_turn(alloc, full), work.run())
    }
}

/// The calling thread and threads of this runtime, which it starts and waits for. They flush four memtables at a time.
#[derive(Drop)]
pub struct InThreads<'a, R: Threads + Sync>(pub &'a R);

impl<'a, R: Threads + Sync> Workers for InThreads<'a, R> {
    ghost can_work = { IsSync R.row };

    fn most_waiting(&self) -> usize {
        FLUSHED_AT_ONCE - 1
    }

    fn flush(&self, alloc: Global, full: &[FullMemtable]) -> Result<Vec<Run>, AllocError> {
        flush_side_by_side(self.0, alloc, full)
    }

    fn flush_beside<W: Work<Output = T> + Drop, T>(
        &self,
        alloc: Global,
        full: &[FullMemtable],
        work: W,
    ) -> (Result<Vec<Run>, AllocError>, T) {
        side_by_side_beside(self.0, alloc, full, work)
    }
}
