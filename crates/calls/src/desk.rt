//! [`Desk`]: the state of calls of memtables and runs.
use crate::input::Input;
use crate::out::Out;
use crate::runs::{self, Shelf};
use crate::talk::Talk;
use crate::{compactions, formats, gathered, plain, reads};
use std::alloc::Global;
use std::io;
use std::marker::Sync;
use std::thread::Threads;
use std::time::Clock;
use uc_memtable::FlushableMemtables;
use uc_oper::Operator;

/// A shelf of runs, and memtables that are read while they take writes.
struct Desk {
    shelf: Shelf,
    memtables: Vec<FlushableMemtables>,
}

impl Drop for Desk {
    fn drop(self) {
        let Desk {
            shelf: _,
            memtables: _,
        } = self;
    }
}

/// Writes the totals of each run and each memtable.
fn look(shelf: &Shelf, memtables: &[FlushableMemtables], out: &mut Out) {
    shelf.look(out);
    for run in shelf.runs() {
        reads::sum_up(run, out);
    }
    for one in memtables {
        gathered::look(one, out);
    }
}

/// Reads the number of a run, and makes a call of that run.
fn play_run<O: Operator>(
    alloc: Global,
    shelf: &Shelf,
    kind: u64,
    call: &mut Input<'_>,
    out: &mut Out,
) {
    match shelf.runs().get(call.place()) {
        Some(run) => reads::play::<O>(alloc, run, kind, call, out),
        None => out.refuse(),
    }
}

/// Reads the number of memtables. Makes a run of their visible writes (44), or another call.
fn play_memtables<O: Operator>(
    alloc: Global,
    desk: &mut Desk,
    kind: u64,
    call: &mut Input<'_>,
    out: &mut Out,
) {
    match desk.memtables.get_mut(call.place()) {
        Some(memtables) if kind == 44 => desk.shelf.make(gathered::run(alloc, memtables), out),
        Some(memtables) => gathered::play::<O>(alloc, memtables, kind, call, out),
        None => out.refuse(),
    }
}

/// Makes a call.
fn play<O: Operator + Sync>(
    rt: &(impl Threads + Clock + Sync),
    alloc: Global,
    desk: &mut Desk,
    call: &mut Input<'_>,
    out: &mut Out,
) {
    let kind = call.number();
    match kind {
        0..20 => plain::play::<O>(rt, alloc, kind, call, out),
        20..30 => runs::play(alloc, &mut desk.shelf, kind, call, out),
        30..40 => play_run::<O>(alloc, &desk.shelf, kind, call, out),
        40 => compactions::keep_merged::<O>(rt, alloc, &mut desk.shelf, call, out),
        41 => compactions::same(desk.shelf.runs(), call, out),
        42 => out.done(gathered::add(&mut desk.memtables, FlushableMemtables::new(alloc))),
        43 => out.end(gathered::share(alloc, &mut desk.memtables, call)),
        45 => look(&desk.shelf, &desk.memtables, out),
        60..80 => formats::play(rt, alloc, kind, call, out),
        _ => play_memtables::<O>(alloc, desk, kind, call, out),
    }
}

/// Makes all calls.
fn play_at<O: Operator + Sync>(
    rt: &(impl Threads + Clock + Sync + Print),
    alloc: Global,
    desk: &mut Desk,
    talk: &mut Talk<'_>,
) -> io::Result<()> {
    for _ in 0..u64::MAX {
        let Some(mut call) = talk.next(rt, alloc) else {
            break;
        };
        play::<O>(rt, alloc, desk, &mut call, talk.answer());
        talk.end(rt, alloc, call)?;
    }
    Ok(())
}

/// Makes all calls, beginning with an empty desk.
pub(crate) fn play_all<O: Operator + Sync>(
    rt: &(impl Threads + Clock + Sync + Print),
    alloc: Global,
    talk: &mut Talk<'_>,
) -> io::Result<()> {
    let mut desk = Desk {
        shelf: Shelf::new(alloc),
        memtables: Vec::new(alloc),
    };
    play_at::<O>(rt, alloc, &mut desk, talk)
}
