//! Calls of memtables that are read while they take writes.
use crate::input::Input;
use crate::out::{Halt, Out};
use crate::said;
use std::alloc::{AllocError, Global};
use uc_bytes::MAX_SEQUENCE;
use uc_memtable::{ActiveMemtable, FlushableMemtables};
use uc_oper::Operator;
use uc_run::Run;

/// Reads a write, and prepares it.
fn prepare(memtables: &mut FlushableMemtables, call: &mut Input<'_>, out: &mut Out) {
    let write = said::write(call);
    if write.seq() <= memtables.last_prepared() || MAX_SEQUENCE < write.seq() {
        return out.refuse();
    }
    out.done(memtables.prepare(&write));
}

/// Writes the number, size in bytes, last sequence number and number of range deletions of the visible writes. Then the last sequence
/// number and size of all writes, and flags that are set if some are prepared and if none is visible.
pub(crate) fn look(memtables: &FlushableMemtables, out: &mut Out) {
    out.place(memtables.len());
    out.number(memtables.size());
    out.number(memtables.last());
    out.place(memtables.ranges());
    out.number(memtables.last_prepared());
    out.number(memtables.size_of_all());
    out.flag(memtables.is_waiting());
    out.flag(memtables.is_empty());
}

/// Writes the answer of `look`, and a flag that is set if all writes are in one memtable. Only this flag may change with the layout.
fn look_closely(memtables: &FlushableMemtables, out: &mut Out) {
    look(memtables, out);
    out.flag(memtables.memtable().is_some());
}

/// Reads a key and a sequence number. Writes the effect of the visible writes on the key.
fn look_up<O: Operator>(
    alloc: Global,
    memtables: &FlushableMemtables,
    call: &mut Input<'_>,
    out: &mut Out,
) {
    let (key, at) = (call.bytes(), call.number());
    out.made_effect(memtables.effect::<O>(alloc, key, at));
}

/// Writes the sequence numbers of a memtable's visible writes, and a flag that is set if others are prepared.
fn write_seqs(memtable: &ActiveMemtable, out: &mut Out) {
    out.place(memtable.len());
    for place in 0..memtable.len() {
        if let Some(write) = memtable.write(place) {
            out.number(write.seq());
        }
    }
    out.flag(memtable.is_waiting());
}

/// Writes the sequence numbers of all visible writes, joined in one memtable.
fn join(alloc: Global, memtables: &FlushableMemtables, out: &mut Out) {
    match memtables.to_memtable(alloc) {
        Ok(memtable) => write_seqs(&memtable, out),
        Err(_) => out.want(),
    }
}

/// Returns the run of the visible writes.
pub(crate) fn run(alloc: Global, memtables: &FlushableMemtables) -> Result<Run, Halt> {
    if memtables.is_empty() {
        return Err(Halt::Refused);
    }
    Ok(memtables.to_run(alloc)?)
}

/// Returns memtables with the same contents: a share, or the ones that are set apart for a flush.
fn shared(
    alloc: Global,
    memtables: &mut FlushableMemtables,
    is_set_apart: bool,
) -> Result<FlushableMemtables, AllocError> {
    if is_set_apart {
        memtables.set_apart(alloc)
    } else {
        memtables.share(alloc)
    }
}

/// Appends memtables to the list.
pub(crate) fn add(
    all: &mut Vec<FlushableMemtables>,
    memtables: FlushableMemtables,
) -> Result<(), AllocError> {
    all.push(memtables)?;
    Ok(())
}

/// Reads the number of memtables, and a flag that is set to take the writes set apart for a flush. Appends a share of them to the list.
pub(crate) fn share(
    alloc: Global,
    all: &mut Vec<FlushableMemtables>,
    call: &mut Input<'_>,
) -> Result<(), Halt> {
    all.reserve(1)?;
    let Some(memtables) = all.get_mut(call.place()) else {
        return Err(Halt::Refused);
    };
    let share = shared(alloc, memtables, call.flag())?;
    Ok(add(all, share)?)
}

/// Makes a call of the given kind and memtables.
pub(crate) fn play<O: Operator>(
    alloc: Global,
    memtables: &mut FlushableMemtables,
    kind: u64,
    call: &mut Input<'_>,
    out: &mut Out,
) {
    match kind {
        50 => prepare(memtables, call, out),
        51 => memtables.commit(),
        52 => memtables.give_up(),
        53 => memtables.drop_apart(alloc),
        54 => look_closely(memtables, out),
        55 => look_up::<O>(alloc, memtables, call, out),
        56 => join(alloc, memtables, out),
        _ => out.refuse(),
    }
}
