//! Calls of a memtable and of runs: inserts of writes, and flushes.
use crate::built::built;
use crate::input::Input;
use crate::out::{Halt, Out};
use crate::said::{self, Spelled};
use std::alloc::{AllocError, Global};
use std::mem;
use std::sync::Arc;
use uc_bytes::{MAX_SEQUENCE, Write, WriteRef};
use uc_run::{Memtable, Run};

/// A memtable, the last flushed run, and runs that are kept at numbers.
pub(crate) struct Shelf {
    memtable: Memtable,
    made: Option<Run>,
    runs: Vec<Arc<Run>>,
}

impl Drop for Shelf {
    fn drop(self) {
        let Shelf {
            memtable: _,
            made: _,
            runs: _,
        } = self;
    }
}

impl Shelf {
    /// Returns an empty memtable without runs.
    pub(crate) fn new(alloc: Global) -> Shelf {
        Shelf {
            memtable: Memtable::new(alloc),
            made: None,
            runs: Vec::new(alloc),
        }
    }

    /// Returns the kept runs.
    pub(crate) fn runs(&self) -> &[Arc<Run>] {
        &self.runs
    }

    /// Writes the memtable's size, its last sequence number, and flags: whether it is empty, and whether a run isn't kept yet.
    pub(crate) fn look(&self, out: &mut Out) {
        look(&self.memtable, out);
        out.flag(self.made.is_some());
    }

    /// Keeps a run at a number, and drops the run that was kept there.
    pub(crate) fn keep(&mut self, number: usize, run: Arc<Run>) -> Result<(), AllocError> {
        match self.runs.get_mut(number) {
            Some(place) => *place = run,
            None => self.runs.push(run)?,
        }
        Ok(())
    }

    /// Empties the memtable.
    fn renew(&mut self, alloc: Global) {
        self.memtable = Memtable::new(alloc);
    }

    /// Flushes the memtable to a run.
    fn flush(&mut self, alloc: Global, out: &mut Out) {
        if self.memtable.is_empty() {
            return out.refuse();
        }
        let memtable = mem::replace(&mut self.memtable, Memtable::new(alloc));
        match memtable.flush(alloc) {
            Ok(run) => self.made = Some(run),
            Err((memtable, _)) => {
                self.memtable = memtable;
                out.want();
            }
        }
    }

    /// Reads a number, and keeps the last flushed run there.
    fn keep_made(&mut self, alloc: Global, call: &mut Input<'_>, out: &mut Out) {
        match mem::replace(&mut self.made, None) {
            Some(run) => out.done(self.keep_shared(alloc, call.place(), run)),
            None => out.refuse(),
        }
    }

    /// Keeps a run at a number.
    fn keep_shared(&mut self, alloc: Global, number: usize, run: Run) -> Result<(), AllocError> {
        self.keep(number, Arc::new(alloc, run)?)
    }

    /// Makes this run the last flushed one, unless it failed.
    pub(crate) fn make(&mut self, made: Result<Run, Halt>, out: &mut Out) {
        match made {
            Ok(run) => self.made = Some(run),
            Err(halt) => out.stop(halt),
        }
    }
}

/// Inserts a write after all others.
fn insert_next(memtable: &mut Memtable, write: &WriteRef<'_>, out: &mut Out) {
    if write.seq() <= memtable.last() || MAX_SEQUENCE < write.seq() {
        return out.refuse();
    }
    out.done(memtable.insert_ref(write));
}

/// Inserts a write that owns its byte strings after all others.
fn insert_owned(memtable: &mut Memtable, write: &Write, out: &mut Out) {
    if write.seq <= memtable.last() || MAX_SEQUENCE < write.seq {
        return out.refuse();
    }
    out.done(memtable.insert(write));
}

/// Reads a flag that is set if the write owns its byte strings, and the write. Inserts it, and writes the answer of `look`.
fn insert(alloc: Global, memtable: &mut Memtable, call: &mut Input<'_>, out: &mut Out) {
    if call.flag() {
        match Write::read(alloc, call) {
            Ok(write) => insert_owned(memtable, &write, out),
            Err(_) => out.want(),
        }
    } else {
        insert_next(memtable, &said::write(call), out);
    }
    look(memtable, out);
}

/// Reads the number of writes, and the writes. Inserts them until one is refused.
fn insert_all(memtable: &mut Memtable, call: &mut Input<'_>, out: &mut Out) {
    for _ in 0..call.number() {
        if call.is_short() || out.halt().is_some() {
            break;
        }
        insert_next(memtable, &said::write(call), out);
    }
}

/// Writes the memtable's size, its last sequence number, and a flag that is set if it is empty.
fn look(memtable: &Memtable, out: &mut Out) {
    out.number(memtable.size());
    out.number(memtable.last());
    out.flag(memtable.is_empty());
}

/// Makes a call of the given kind.
pub(crate) fn play(
    alloc: Global,
    shelf: &mut Shelf,
    kind: u64,
    call: &mut Input<'_>,
    out: &mut Out,
) {
    match kind {
        20 => shelf.renew(alloc),
        21 => insert(alloc, &mut shelf.memtable, call, out),
        22 => look(&shelf.memtable, out),
        23 => shelf.flush(alloc, out),
        24 => shelf.make(built(alloc, call), out),
        25 => shelf.keep_made(alloc, call, out),
        26 => insert_all(&mut shelf.memtable, call, out),
        _ => out.refuse(),
    }
}
