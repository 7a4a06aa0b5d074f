//! Calls that merge runs into one, or compare two.
use crate::input::Input;
use crate::out::{Halt, Out};
use crate::runs::Shelf;
use std::alloc::{AllocError, Global};
use std::marker::Sync;
use std::sync::Arc;
use std::thread::Threads;
use uc_compact::{Alone, Compacted, compact, compact_by, compact_by_parts, inputs_stand};
use uc_oper::Operator;
use uc_run::Run;

/// Returns the runs at these numbers. Skips numbers without a run.
fn runs_at(alloc: Global, runs: &[Arc<Run>], numbers: &[u64]) -> Result<Vec<Arc<Run>>, AllocError> {
    let mut found = Vec::new(alloc);
    for number in numbers {
        if let Some(run) = runs.get(*number as usize) {
            found.push(run.clone()?)?;
        }
    }
    Ok(found)
}

/// Compacts runs, unless they can't be compacted together. `way` is 0 for the calling thread alone, 1 for threads, or the number of parts
/// plus one.
fn compacted<O: Operator + Sync>(
    rt: &(impl Threads + Sync),
    alloc: Global,
    runs: &[Arc<Run>],
    keeps: &[u64],
    (oldest, way): (bool, usize),
) -> Result<Compacted<O>, Halt> {
    if !inputs_stand(runs, keeps) {
        return Err(Halt::Refused);
    }
    Ok(match way {
        0 => compact_by::<O, _>(&Alone, alloc, runs, keeps, oldest)?,
        1 => compact::<O>(rt, alloc, runs, keeps, oldest)?,
        _ => compact_by_parts::<O>(rt, alloc, runs, keeps, oldest, way - 1)?,
    })
}

/// Writes the terms of a compaction: the number of its runs, its keeps, and a flag that is set if it has the oldest run.
fn tell<O: Operator>(made: &Compacted<O>, out: &mut Out) {
    out.place(made.inputs().len());
    out.numbers(made.keeps());
    out.flag(made.oldest());
}

/// Reads the numbers of runs, keeps, a flag that is set if the oldest run is among them, and a way. Returns the compaction.
fn made<O: Operator + Sync>(
    rt: &(impl Threads + Sync),
    alloc: Global,
    runs: &[Arc<Run>],
    call: &mut Input<'_>,
) -> Result<Compacted<O>, Halt> {
    let numbers = call.numbers(alloc)?;
    let inputs = runs_at(alloc, runs, &numbers)?;
    let keeps = call.numbers(alloc)?;
    let terms = (call.flag(), call.place());
    compacted::<O>(rt, alloc, &inputs, &keeps, terms)
}

/// Reads a number, and the arguments of `made`. Keeps the compacted run at the number.
pub(crate) fn keep_merged<O: Operator + Sync>(
    rt: &(impl Threads + Sync),
    alloc: Global,
    shelf: &mut Shelf,
    call: &mut Input<'_>,
    out: &mut Out,
) {
    let number = call.place();
    match made::<O>(rt, alloc, shelf.runs(), call) {
        Ok(made) => {
            tell(&made, out);
            out.done(shelf.keep(number, made.into_output()));
        }
        Err(halt) => out.stop(halt),
    }
}

/// Reads the numbers of two runs. Writes a flag that is set if they are the same.
pub(crate) fn same(runs: &[Arc<Run>], call: &mut Input<'_>, out: &mut Out) {
    match (runs.get(call.place()), runs.get(call.place())) {
        (Some(run), Some(other)) => out.flag(run.same(other)),
        _ => out.refuse(),
    }
}
