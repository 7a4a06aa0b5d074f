//! [`Memtables`]: the memtables of writes, of which full ones are flushed.
ghost use Rattle.std.specs.Prelude.{◌≡◌, ◌≢◌, ◌≤◌, ◌<◌, ◌^◌, ◌++◌, ◌∷◌, [], IfOk, IfSome, OnOk, OnErr, length, map, vec_len};
ghost use Rattle.uc_batch.specs.Rising.{last_of};
ghost use Rattle.uc_run.specs.Flush.{flushed};
ghost use Rattle.uc_version_open.specs.Lending.{StandsAt};
ghost use Rattle.uc_version_open.specs.Steps as steps;
ghost use Rattle.uc_version_open.specs.Steps.{begun, with_write, held_with};

use crate::full_memtable::FullMemtable;
use crate::lent_memtables::{LentMemtables, Loan};
use crate::workers::Workers;
use std::alloc::{AllocError, Global};
use std::marker::Model;
use std::mem;
use uc_bytes::WriteRef;
use uc_claims::MOST_SLOTS;
use uc_run::{Memtable, Run};

/// The memtables of writes that come one after the other. A full one waits from the next write on, until a [`Workers`] makes
/// a run of it, or another thread does, to which it is lent. A contract sees the runs of all but the newest, and not which of
/// these are made already.
#[derive(Drop)]
pub(crate) struct Memtables {
    /// The runs of those that were flushed, the oldest first.
    runs: Vec<Run>,
    /// The memtables that others flush. All are newer than those that were flushed.
    lent: LentMemtables,
    /// The memtables that wait to be flushed, the oldest first. All are newer than those that are lent.
    full: Vec<FullMemtable>,
    newest: Memtable,
}

impl Model for Memtables {
    ghost use Rattle.std.specs.Prelude.{◌++◌, map};
    ghost use Rattle.uc_run.specs.Flush.{flushed};
    ghost use Rattle.uc_version_open.specs.Progress.{Flushing};

    ghost Value = { Flushing };

    ghost view = { λ m. record {
      runs = (m.runs.items ++ map flushed m.lent) ++ map flushed m.full.items;
      newest = m.newest;
    } };
}

/// Lets a full memtable wait, and begins one with this write. An `Err` changes nothing.
fn begin_next(
    alloc: Global,
    full: &mut Vec<FullMemtable>,
    newest: &mut Memtable,
    write: &WriteRef<'_>,
) -> Result<(), AllocError>
    requires some { newest.old ≢ [] }
    requires above { 0 < write.now.seq }
    requires below { write.now.seq < 2 ^ 56 }
    ensures waits { OnOk result (full.new.items ≡ full.old.items ++ newest.old ∷ []) }
    ensures begun { OnOk result (newest.new ≡ write.now ∷ []) }
    ensures full_kept { OnErr result (full.new.items ≡ full.old.items) }
    ensures newest_kept { OnErr result (newest.new ≡ newest.old) }
{
    full.reserve(1)?;
    let mut next = Memtable::new(alloc);
    next.insert_ref(write)?;
    full.push(FullMemtable::new(mem::replace(newest, next)))?;
    Ok(())
}

/// Takes the last memtable that waits back as the newest, in place of the one that was begun after it.
fn take_back(full: &mut Vec<FullMemtable>, newest: &mut Memtable)
    requires { 0 < vec_len full.old }
    ensures { full.new.items ++ newest.new ∷ [] ≡ full.old.items }
{
    if let Some(last) = full.pop() {
        *newest = last.into_memtable();
    }
}

/// Flushes the memtables that are lent, in place of those who have them. Whoever lent them still sees the same runs, whatever
/// comes of it.
fn flush_lent<W: Workers>(
    workers: &W,
    alloc: Global,
    runs: &mut Vec<Run>,
    lent: &mut LentMemtables,
) -> Result<(), AllocError>
    requires { W.can_work }
    ensures same { runs.new.items ++ map flushed lent.new ≡ runs.old.items ++ map flushed lent.old }
    ensures none_lent { OnOk result (lent.new ≡ []) }
{
    let mut older = workers.flush(alloc, lent.as_slice())?;
    runs.append(&mut older)?;
    *lent = LentMemtables::none();
    Ok(())
}

/// Flushes the memtables that wait after older runs. An `Err` changes nothing.
fn flush_onto<W: Workers>(
    workers: &W,
    alloc: Global,
    runs: &mut Vec<Run>,
    full: &mut Vec<FullMemtable>,
) -> Result<(), AllocError>
    requires { W.can_work }
    ensures runs { OnOk result (runs.new.items ≡ runs.old.items ++ map flushed full.old.items) }
    ensures none_waits { OnOk result (full.new.items ≡ []) }
    ensures runs_kept { OnErr result (runs.new.items ≡ runs.old.items) }
    ensures full_kept { OnErr result (full.new.items ≡ full.old.items) }
{
    let mut newer = workers.flush(alloc, full)?;
    runs.append(&mut newer)?;
    full.clear();
    Ok(())
}

/// Flushes the memtables that are lent and those that wait after older runs. An `Err` changes nothing of those that wait.
fn flush_all<W: Workers>(
    workers: &W,
    alloc: Global,
    runs: &mut Vec<Run>,
    lent: &mut LentMemtables,
    full: &mut Vec<FullMemtable>,
) -> Result<(), AllocError>
    requires { W.can_work }
    ensures runs { OnOk result (runs.new.items ≡ (runs.old.items ++ map flushed lent.old) ++ map flushed full.old.items) }
    ensures none_lent { OnOk result (lent.new ≡ []) }
    ensures none_waits { OnOk result (full.new.items ≡ []) }
    ensures runs_kept { OnErr result
        (runs.new.items ++ map flushed lent.new ≡ runs.old.items ++ map flushed lent.old) }
    ensures full_kept { OnErr result (full.new.items ≡ full.old.items) }
{
    flush_lent(workers, alloc, runs, lent)?;
    flush_onto(workers, alloc, runs, full)
}

/// Lends those that wait, unless some are lent already: then these.
fn lend_full(
    alloc: Global,
    lent: LentMemtables,
    full: Vec<FullMemtable>,
) -> Result<(LentMemtables, Vec<FullMemtable>), AllocError>
    ensures { IfOk result (λ parts. parts.0 ++ parts.1.items ≡ lent ++ full.items) }
{
    if !lent.as_slice().is_empty() {
        return Ok((lent, full));
    }
    let lent = LentMemtables::of(alloc, full)?;
    Ok((lent, Vec::new(alloc)))
}

impl Memtables {
    /// No memtables. It doesn't allocate.
    pub(crate) fn new(alloc: Global) -> Memtables
        ensures { result ≡ record { runs = []; newest = [] } }
    {
        Memtables {
            runs: Vec::new(alloc),
            lent: LentMemtables::none(),
            full: Vec::new(alloc),
            newest: Memtable::new(alloc),
        }
    }

    /// Whether the newest is full.
    fn is_full(&self, limit: u64) -> bool
        ensures { result ≡ steps.is_full limit self.now }
    {
        self.newest.size() >= limit
    }

    /// Whether the next write begins a memtable that has no slot for its run.
    fn is_spent(&self, limit: u64) -> bool
        ensures { result ≡ steps.is_spent limit self.now }
    {
        self.is_full(limit) && self.count_full() >= MOST_SLOTS - 1
    }

    /// The number of full memtables: those that were flushed, that are lent, and that wait.
    fn count_full(&self) -> usize
        ensures { result ≡ length self.now.runs }
    {
        let flushed = self.runs.len();
        let lent = self.lent.as_slice();
        let full = self.full.as_slice();
        flushed + lent.len() + full.len()
    }

    /// The number of memtables that wait, besides those that are lent. A contract doesn't see it.
    pub(crate) fn waiting(&self) -> usize {
        self.full.len()
    }

    /// Lets the newest wait, and begins one with this write. If too many wait then, all are flushed. An `Err` changes nothing.
    fn begin<W: Workers>(
        &mut self,
        workers: &W,
        alloc: Global,
        write: &WriteRef<'_>,
    ) -> Result<(), AllocError>
        requires can { W.can_work }
        requires some { self.old.newest ≢ [] }
        requires above { 0 < write.now.seq }
        requires below { write.now.seq < 2 ^ 56 }
        ensures ok { OnOk result (self.new ≡ begun self.old write.now) }
        ensures err { OnErr result (self.new ≡ self.old) }
    {
        begin_next(alloc, &mut self.full, &mut self.newest, write)?;
        if self.full.len() <= workers.most_waiting() {
            return Ok(());
        }
        if let Err(error) = flush_all(
            workers,
            alloc,
            &mut self.runs,
            &mut self.lent,
            &mut self.full,
        ) {
            take_back(&mut self.full, &mut self.newest);
            return Err(error);
        }
        Ok(())
    }

    /// Inserts a write. An `Err` changes nothing.
    pub(crate) fn insert<W: Workers>(
        &mut self,
        workers: &W,
        alloc: Global,
        limit: u64,
        write: &WriteRef<'_>,
    ) -> Result<(), AllocError>
        requires can { W.can_work }
        requires limit { 1 ≤ limit }
        requires above { last_of 0 self.old.newest < write.now.seq }
        requires below { write.now.seq < 2 ^ 56 }
        ensures ok { OnOk result (self.new ≡ with_write limit self.old write.now) }
        ensures err { OnErr result (self.new ≡ self.old) }
    {
        if self.is_full(limit) {
            self.begin(workers, alloc, write)
        } else {
            self.newest.insert_ref(write)
        }
    }

    /// The runs of all, the oldest first.
    pub(crate) fn into_runs<W: Workers>(
        self,
        workers: &W,
        alloc: Global,
    ) -> Result<Vec<Run>, AllocError>
        requires { W.can_work }
        ensures { IfOk result (λ runs. runs.items ≡ steps.all_runs self) }
    {
        let Memtables {
            mut runs,
            mut lent,
            mut full,
            newest,
        } = self;
        if !newest.is_empty() {
            full.push(FullMemtable::new(newest))?;
        }
        flush_all(workers, alloc, &mut runs, &mut lent, &mut full)?;
        Ok(runs)
    }

    /// Lends those that wait, so that others can flush them while writes are inserted. [`settle`](Memtables::settle) takes the
    /// runs. Until then those that are lent can be flushed here too.
    pub(crate) fn lend(self, alloc: Global) -> Result<(Memtables, Loan), AllocError>
        ensures kept { IfOk result (λ lent. lent.0 ≡ self) }
        ensures loan { IfOk result (λ lent. StandsAt lent.1.older (map flushed lent.1.memtables) self.runs) }
    {
        let Memtables {
            runs,
            lent,
            full,
            newest,
        } = self;
        let older = runs.len();
        let (lent, full) = lend_full(alloc, lent, full)?;
        let memtables = lent.share()?;
        let kept = Memtables {
            runs,
            lent,
            full,
            newest,
        };
        Ok((kept, Loan { older, memtables }))
    }

    /// Takes the runs of those that are lent, if these weren't flushed since; `older` is the number of runs when they were lent. It
    /// changes nothing that a contract sees.
    pub(crate) fn settle(&mut self, older: usize, mut made: Vec<Run>) -> Result<(), AllocError>
        requires { StandsAt older made.items self.old.runs }
        ensures { self.new ≡ self.old }
    {
        if self.runs.len() != older || self.lent.as_slice().len() != made.len() {
            return Ok(());
        }
        self.runs.append(&mut made)?;
        self.lent = LentMemtables::none();
        Ok(())
    }
}

/// Inserts a write. If the store would need more runs than slots, drops everything: the opening will fail. An `Err` changes
/// nothing.
pub(crate) fn hold_write<W: Workers>(
    workers: &W,
    alloc: Global,
    limit: u64,
    held: &mut Option<Memtables>,
    write: &WriteRef<'_>,
) -> Result<(), AllocError>
    requires can { W.can_work }
    requires limit { IfSome held.old (λ _. 1 ≤ limit) }
    requires above { IfSome held.old (λ memtables. last_of 0 memtables.newest < write.now.seq) }
    requires below { write.now.seq < 2 ^ 56 }
    ensures ok { OnOk result (held.new ≡ held_with limit held.old write.now) }
    ensures err { OnErr result (held.new ≡ held.old) }
{
    let Some(memtables) = held else {
        return Ok(());
    };
    if memtables.is_spent(limit) {
        *held = None;
        return Ok(());
    }
    memtables.insert(workers, alloc, limit, write)
}
