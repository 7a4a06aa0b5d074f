//! Calls that pin, pick, claim and compact in a store that threads share.
ghost use Rattle.std.specs.Prelude.{◌≡◌};

use crate::hall::{numbered, put_numbered, take_numbered};
use crate::input::Input;
use crate::merges::shares;
use crate::out::{Halt, Out};
use crate::places::{Commas, Place};
use crate::versions::{stretch, write_stretch, write_version};
use std::alloc::Global;
use std::fmt::Debug;
use std::marker::Sync;
use std::sync::{Arc, Wait};
use std::thread::Threads;
use uc_claims::MOST_SLOTS;
use uc_compact::{Compacted, compact, inputs_stand};
use uc_run::Run;
use uc_share::{ClaimError, Name, Pin, Reader, Seat, Store};

/// Writes a pin: its version, and the number of events before it.
fn write_pin<N: Name>(out: &mut Out, pin: &Pin<Commas, N>) {
    write_version(out, pin.version());
    out.number(pin.front().len());
}

/// Writes the library's name of the reason for a refusal.
pub(crate) fn write_why<E: Debug>(alloc: Global, out: &mut Out, error: &E) {
    out.flag(false);
    out.name(alloc, error);
}

/// Writes the terms of a compaction: the number of its runs, a flag that is set if it has the oldest run, and its keeps.
fn write_made(out: &mut Out, made: &Compacted<Commas>) {
    out.place(made.inputs().len());
    out.flag(made.oldest());
    out.numbers(made.keeps());
}

/// Writes a flag for each slot that is set if a seat finds it taken.
fn write_busy<N: Name, W: Wait + Drop>(out: &mut Out, store: &Store<Commas, N, W>, seat: &mut Seat)
    requires { seat.old.table ≡ store.now.table }
    ensures { seat.new.table ≡ store.now.table }
{
    for slot in 0..MOST_SLOTS {
        out.flag(store.busy(seat, slot));
    }
}

/// Writes the reason why a claim is refused, unless allocation failed.
fn write_unclaimed(alloc: Global, out: &mut Out, error: &ClaimError) {
    match error {
        ClaimError::Memory => out.want(),
        other => write_why(alloc, out, other),
    }
}

/// Writes the shown version.
pub(crate) fn write_shown<N: Name>(out: &mut Out, reader: &mut Reader<Commas, N>) {
    match reader.pin() {
        Ok(pin) => write_pin(out, &pin),
        Err(_) => out.want(),
    }
}

/// Reads a flag and a number. Pins the shown version, and keeps the pin at the number if the flag is set.
pub(crate) fn pin<N: Name>(
    reader: &mut Reader<Commas, N>,
    pins: &mut Vec<(u64, Pin<Commas, N>)>,
    call: &mut Input<'_>,
    out: &mut Out,
) {
    let (is_kept, number) = (call.flag(), call.number());
    match reader.pin() {
        Ok(pin) => {
            write_pin(out, &pin);
            if is_kept {
                out.done(put_numbered(pins, number, pin));
            }
        }
        Err(_) => out.want(),
    }
}

/// Reads the number of a pin, and writes the pin.
pub(crate) fn look<N: Name>(pins: &[(u64, Pin<Commas, N>)], call: &mut Input<'_>, out: &mut Out) {
    match numbered(pins, call.number()) {
        Some(pin) => write_pin(out, pin),
        None => out.refuse(),
    }
}

/// Writes the stretch of a pin to compact next.
fn picked<N: Name, W: Wait + Drop>(
    store: &Store<Commas, N, W>,
    place: &mut Place<N>,
    pin: &Pin<Commas, N>,
    out: &mut Out,
) -> Result<(), Halt>
    requires { store.now.table ≡ N.table }
{
    let mut seat = place.take_seat()?;
    let picked = store.pick(pin, &mut seat);
    place.put_seat(seat);
    write_stretch(out, picked);
    Ok(())
}

/// Reads the number of a pin. Writes its stretch to compact next.
pub(crate) fn pick<N: Name, W: Wait + Drop>(
    store: &Store<Commas, N, W>,
    place: &mut Place<N>,
    pins: &[(u64, Pin<Commas, N>)],
    call: &mut Input<'_>,
    out: &mut Out,
)
    requires { store.now.table ≡ N.table }
{
    match numbered(pins, call.number()) {
        Some(pin) => {
            let ended = picked(store, place, pin, out);
            out.end(ended);
        }
        None => out.refuse(),
    }
}

/// Writes a flag for each slot that is set if a seat finds it taken.
pub(crate) fn busy<N: Name, W: Wait + Drop>(
    store: &Store<Commas, N, W>,
    place: &mut Place<N>,
    out: &mut Out,
) -> Result<(), Halt>
    requires { store.now.table ≡ N.table }
{
    let mut seat = place.take_seat()?;
    write_busy(out, store, &mut seat);
    place.put_seat(seat);
    Ok(())
}

/// Reads the number of a pin, and a stretch. Claims the stretch.
pub(crate) fn claim<N: Name, W: Wait + Drop>(
    alloc: Global,
    store: &Store<Commas, N, W>,
    reader: &mut Reader<Commas, N>,
    place: &mut Place<N>,
    pins: &mut Vec<(u64, Pin<Commas, N>)>,
    call: &mut Input<'_>,
    out: &mut Out,
) -> Result<(), Halt>
    requires { store.now.table ≡ N.table }
{
    let (number, stretch) = (call.number(), stretch(call));
    let seat = place.take_seat()?;
    let pin = take_numbered(pins, number)?;
    match store.claim(seat, pin, reader, stretch) {
        Ok(held) => {
            place.put_claim(held);
            out.flag(true);
        }
        Err((seat, pin, error)) => {
            place.put_seat(seat);
            out.done(put_numbered(pins, number, pin));
            write_unclaimed(alloc, out, &error);
        }
    }
    Ok(())
}

/// Keeps a compaction at a number, unless it failed.
fn keep(
    all: &mut Vec<(u64, Compacted<Commas>)>,
    number: u64,
    made: Result<Compacted<Commas>, Halt>,
    out: &mut Out,
) {
    match made {
        Ok(made) => {
            write_made(out, &made);
            out.done(put_numbered(all, number, made));
        }
        Err(halt) => out.stop(halt),
    }
}

/// Compacts a claim.
fn compacted<N: Name>(
    rt: &(impl Threads + Sync),
    alloc: Global,
    place: &Place<N>,
) -> Result<Compacted<Commas>, Halt> {
    Ok(place.claim()?.compact(rt, alloc)?)
}

/// Reads a number. Compacts the claim, and keeps the compaction at the number.
pub(crate) fn compact_claim<N: Name>(
    rt: &(impl Threads + Sync),
    alloc: Global,
    place: &Place<N>,
    all: &mut Vec<(u64, Compacted<Commas>)>,
    call: &mut Input<'_>,
    out: &mut Out,
) {
    keep(all, call.number(), compacted(rt, alloc, place), out);
}

/// Compacts runs that aren't claimed.
fn merged(
    rt: &(impl Threads + Sync),
    alloc: Global,
    runs: &[Arc<Run>],
    keeps: &[u64],
    oldest: bool,
) -> Result<Compacted<Commas>, Halt> {
    if !inputs_stand(runs, keeps) {
        return Err(Halt::Refused);
    }
    Ok(compact::<Commas>(rt, alloc, runs, keeps, oldest)?)
}

/// Reads a stretch, keeps, and a flag that is set if it has the oldest run. Compacts the stretch.
fn made<N: Name>(
    rt: &(impl Threads + Sync),
    alloc: Global,
    pin: &Pin<Commas, N>,
    call: &mut Input<'_>,
) -> Result<Compacted<Commas>, Halt> {
    let inputs = shares(alloc, pin.version().runs(), stretch(call))?;
    let keeps = call.numbers(alloc)?;
    merged(rt, alloc, &inputs, &keeps, call.flag())
}

/// Reads a number, the number of a pin, and the arguments of `made`. Keeps the compaction at the first number.
pub(crate) fn make<N: Name>(
    rt: &(impl Threads + Sync),
    alloc: Global,
    pins: &[(u64, Pin<Commas, N>)],
    all: &mut Vec<(u64, Compacted<Commas>)>,
    call: &mut Input<'_>,
    out: &mut Out,
) {
    let number = call.number();
    match numbered(pins, call.number()) {
        Some(pin) => keep(all, number, made(rt, alloc, pin, call), out),
        None => out.refuse(),
    }
}
