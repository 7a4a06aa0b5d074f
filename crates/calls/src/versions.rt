//! Versions of a store, and calls that read one.
use crate::input::Input;
use crate::out::{Halt, Out};
use crate::reads;
use crate::said::{self, Spelled};
use std::alloc::{AllocError, Global};
use std::sync::Arc;
use uc_compact::keeps_rise;
use uc_run::Run;
use uc_version_state::{Candidate, Install, Options, Placed, Stretch, Version, pick_among};

/// Reads a number of 32 bits. A larger one becomes the greatest.
fn narrow(call: &mut Input<'_>) -> u32 {
    u32::try_from(call.number()).unwrap_or(u32::MAX)
}

/// Reads the options of a store, in the order of their fields.
pub(crate) fn options(call: &mut Input<'_>) -> Options {
    Options {
        memtable: call.number(),
        trigger: narrow(call),
        ratio: narrow(call),
        percent: narrow(call),
        least: narrow(call),
        greatest: narrow(call),
        first_id: call.number(),
    }
}

/// Reads a stretch: the index of its newest run, and the number of its runs.
pub(crate) fn stretch(call: &mut Input<'_>) -> Stretch {
    Stretch {
        first: call.place(),
        count: call.place(),
    }
}

/// Writes an optional stretch.
pub(crate) fn write_stretch(out: &mut Out, stretch: Option<Stretch>) {
    out.flag(stretch.is_some());
    if let Some(Stretch { first, count }) = stretch {
        out.place(first);
        out.place(count);
    }
}

/// Writes a run's id, slot and totals.
fn write_placed(out: &mut Out, placed: &Placed) {
    out.number(placed.id());
    out.place(placed.slot());
    reads::sum_up(placed.run(), out);
}

/// Writes a version: its runs, keeps, last sequence number, next id, and the size limit of its memtables.
pub(crate) fn write_version(out: &mut Out, version: &Version) {
    out.place(version.runs().len());
    for placed in version.runs() {
        write_placed(out, placed);
    }
    out.numbers(version.keeps());
    out.number(version.last());
    out.number(version.next_id());
    out.number(version.limit());
}

/// Reads the index of a run. Writes the run, with its points and fragments.
pub(crate) fn show(alloc: Global, version: &Version, call: &mut Input<'_>, out: &mut Out) {
    match version.runs().get(call.place()) {
        Some(placed) => reads::show(alloc, placed.run(), out),
        None => out.refuse(),
    }
}

/// Writes an optional index.
fn write_place(out: &mut Out, place: Option<usize>) {
    out.flag(place.is_some());
    out.place(place.unwrap_or(0));
}

/// Reads ids. Writes the index at which runs with these ids are adjacent.
pub(crate) fn place(alloc: Global, version: &Version, call: &mut Input<'_>, out: &mut Out) {
    match call.numbers(alloc) {
        Ok(ids) => write_place(out, version.place_of(&ids)),
        Err(_) => out.want(),
    }
}

/// Returns a share of the run at an index.
fn run_at(runs: &[Placed], place: usize) -> Result<Arc<Run>, Halt> {
    match runs.get(place) {
        Some(placed) => Ok(placed.run().clone()?),
        None => Err(Halt::Refused),
    }
}

/// Reads ids, keeps, the index of a run, and a flag that is set for the oldest. Returns the install of that run for those with the ids.
fn install(alloc: Global, version: &Version, call: &mut Input<'_>) -> Result<Install, Halt> {
    let ids = call.numbers(alloc)?;
    let keeps = call.numbers(alloc)?;
    let output = run_at(version.runs(), call.place())?;
    if ids.len() < 2 || !keeps_rise(&keeps) {
        return Err(Halt::Refused);
    }
    Ok(Install::new(ids, keeps, call.flag(), output))
}

/// Writes the library's name of the reason why an install is refused, or nothing if it isn't.
fn write_refusal(alloc: Global, version: &Version, install: &Install, out: &mut Out) {
    match version.refusal(install) {
        Some(refusal) => out.name(alloc, &refusal),
        None => out.bytes(b""),
    }
}

/// Reads the arguments of `install`. Writes the reason why that is refused.
pub(crate) fn refuse(alloc: Global, version: &Version, call: &mut Input<'_>, out: &mut Out) {
    match install(alloc, version, call) {
        Ok(install) => write_refusal(alloc, version, &install, out),
        Err(halt) => out.stop(halt),
    }
}

impl Spelled for Candidate {
    /// Reads the size of a run, and a flag that is set if it is claimed.
    fn read(_: Global, call: &mut Input<'_>) -> Result<Candidate, AllocError> {
        Ok(Candidate {
            size: call.number(),
            claimed: call.flag(),
        })
    }
}

/// Writes the stretch of runs to compact next.
fn write_pick(out: &mut Out, options: &Options, candidates: &[Candidate]) {
    if options.are_good() && candidates.len() <= 65_536 {
        write_stretch(out, pick_among(options, candidates));
    } else {
        out.refuse();
    }
}

/// Reads options, and the sizes of runs. Writes the stretch to compact next.
pub(crate) fn pick(alloc: Global, call: &mut Input<'_>, out: &mut Out) {
    let options = options(call);
    match said::list::<Candidate>(alloc, call) {
        Ok(candidates) => write_pick(out, &options, &candidates),
        Err(_) => out.want(),
    }
}
