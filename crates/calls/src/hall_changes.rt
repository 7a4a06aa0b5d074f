//! Calls that change or query a store that threads share.
ghost use Rattle.std.specs.Prelude.{◌≡◌, false};

use crate::asked::write_answers;
use crate::hall::{numbered, put_numbered, take_numbered};
use crate::hall_pins::write_why;
use crate::input::Input;
use crate::out::{Halt, Out};
use crate::places::{Commas, Place};
use crate::said;
use std::alloc::{AllocError, Global};
use std::marker::{Send, Sync};
use std::mem;
use std::sync::Wait;
use std::thread::Threads;
use uc_compact::Compacted;
use uc_query_read::{Answer, Query, answer_one};
use uc_query_shared::{AskError, Free, answer_all, batch_refusal};
use uc_share::{FeedError, InstallError, Name, Pin, Reader, ReleaseError, Store, Turn, Version};

/// Writes true and a number.
fn write_done(out: &mut Out, number: u64) {
    out.flag(true);
    out.number(number);
}

/// Writes the result of a turn: 0 if nothing was picked, 1 if a compaction was installed, 2 and the library's name of the reason if another
/// install came first; or the reason for an error.
fn write_turn(alloc: Global, out: &mut Out, came: &Result<Turn, InstallError>) {
    match came {
        Ok(Turn::Idle) => write_done(out, 0),
        Ok(Turn::Installed) => write_done(out, 1),
        Ok(Turn::Late(error)) => {
            write_done(out, 2);
            out.name(alloc, error);
        }
        Err(error) => write_uninstalled(alloc, out, error),
    }
}

/// Writes the reason why an install is refused, unless allocation failed.
fn write_uninstalled(alloc: Global, out: &mut Out, error: &InstallError) {
    match error {
        InstallError::Memory => out.want(),
        other => write_why(alloc, out, other),
    }
}

/// Writes the number of runs that were fed, or the reason why there are none.
fn write_fed(alloc: Global, out: &mut Out, fed: &Result<u64, FeedError>) {
    match fed {
        Ok(runs) => write_done(out, *runs),
        Err(FeedError::Memory) => out.want(),
        Err(error) => write_why(alloc, out, error),
    }
}

/// Writes the released sequence number, or the reason why it isn't released.
fn write_released(alloc: Global, out: &mut Out, seq: u64, released: &Result<(), ReleaseError>) {
    match released {
        Ok(()) => write_done(out, seq),
        Err(ReleaseError::Memory) => out.want(),
        Err(error) => write_why(alloc, out, error),
    }
}

/// Returns the answers to queries from a version.
fn answers_of(
    alloc: Global,
    version: &Version,
    queries: &[Query],
) -> Result<Vec<Answer>, AllocError> {
    let mut answers = Vec::new(alloc);
    for query in queries {
        answers.push(answer_one::<Commas>(alloc, version, query)?)?;
    }
    Ok(answers)
}

/// Writes answers, or the reason why there are none.
fn write_answered(alloc: Global, out: &mut Out, answered: &Result<Vec<Answer>, AskError>) {
    match answered {
        Ok(answers) => {
            out.flag(true);
            write_answers(out, answers);
        }
        Err(AskError::Memory) => out.want(),
        Err(error) => write_why(alloc, out, error),
    }
}

/// Reads the number of a compaction. Installs it for the claim.
pub(crate) fn install<N: Name, W: Wait + Drop>(
    rt: &impl Wait,
    alloc: Global,
    store: &Store<Commas, N, W>,
    reader: &mut Reader<Commas, N>,
    place: &mut Place<N>,
    all: &mut Vec<(u64, Compacted<Commas>)>,
    call: &mut Input<'_>,
    out: &mut Out,
) -> Result<(), Halt>
    requires { store.now.table ≡ N.table }
{
    let number = call.number();
    let made = take_numbered(all, number)?;
    let held = place.take_claim()?;
    match store.install(rt, alloc, held, made, reader) {
        Ok(seat) => {
            place.put_seat(seat);
            out.flag(true);
        }
        Err((held, made, error)) => {
            place.put_claim(held);
            out.done(put_numbered(all, number, made));
            write_uninstalled(alloc, out, &error);
        }
    }
    Ok(())
}

/// Reads a number. Abandons the claim, and keeps its pin at the number.
pub(crate) fn abandon<N: Name, W: Wait + Drop>(
    store: &Store<Commas, N, W>,
    place: &mut Place<N>,
    pins: &mut Vec<(u64, Pin<Commas, N>)>,
    call: &mut Input<'_>,
) -> Result<(), Halt>
    requires { store.now.table ≡ N.table }
{
    pins.reserve(1)?;
    let held = place.take_claim()?;
    let (seat, pin) = store.abandon(held);
    place.put_seat(seat);
    Ok(put_numbered(pins, call.number(), pin)?)
}

/// Drops the claim with its seat.
pub(crate) fn drop_claim<N: Name>(place: &mut Place<N>) -> Result<(), Halt> {
    drop(place.take_claim()?);
    Ok(())
}

/// Takes a compactor's turn.
pub(crate) fn turn<N: Name, W: Wait + Drop>(
    rt: &(impl Threads + Wait + Sync),
    alloc: Global,
    store: &Store<Commas, N, W>,
    reader: &mut Reader<Commas, N>,
    place: &mut Place<N>,
    out: &mut Out,
) -> Result<(), Halt>
    requires { store.now.table ≡ N.table }
{
    let seat = place.take_seat()?;
    let (seat, came) = store.compact_once(rt, alloc, seat, reader);
    place.put_seat(seat);
    write_turn(alloc, out, &came);
    Ok(())
}

/// Reads writes, and feeds them.
pub(crate) fn feed<N: Name, W: Wait + Drop>(
    rt: &impl Wait,
    alloc: Global,
    store: &Store<Commas, N, W>,
    reader: &mut Reader<Commas, N>,
    call: &mut Input<'_>,
    out: &mut Out,
) {
    if let Some(writes) = said::rising(alloc, call, out) {
        write_fed(alloc, out, &store.feed(rt, alloc, &writes, reader));
    }
}

/// Keeps the last sequence number.
pub(crate) fn keep<N: Name, W: Wait + Drop>(
    rt: &impl Wait,
    alloc: Global,
    store: &Store<Commas, N, W>,
    reader: &mut Reader<Commas, N>,
    out: &mut Out,
)
    requires { N.keeps_stay ≡ false }
{
    match store.keep(rt, alloc, reader) {
        Ok(seq) => write_done(out, seq),
        Err(_) => out.want(),
    }
}

/// Reads a sequence number, and releases it.
pub(crate) fn release<N: Name, W: Wait + Drop>(
    rt: &impl Wait,
    alloc: Global,
    store: &Store<Commas, N, W>,
    reader: &mut Reader<Commas, N>,
    call: &mut Input<'_>,
    out: &mut Out,
)
    requires { N.keeps_stay ≡ false }
{
    let seq = call.number();
    write_released(alloc, out, seq, &store.release(rt, alloc, seq, reader));
}

/// Reads queries. Returns their answers from a version.
fn answers_to(
    alloc: Global,
    version: &Version,
    call: &mut Input<'_>,
) -> Result<Vec<Answer>, AllocError> {
    let queries = said::list::<Query>(alloc, call)?;
    answers_of(alloc, version, &queries)
}

/// Writes answers, unless allocation failed.
fn write_made(out: &mut Out, answers: Result<Vec<Answer>, AllocError>) {
    match answers {
        Ok(answers) => {
            out.flag(true);
            write_answers(out, &answers);
        }
        Err(_) => out.want(),
    }
}

/// Reads the number of a pin, and queries. Writes the answers.
pub(crate) fn ask_pin<N: Name>(
    alloc: Global,
    pins: &[(u64, Pin<Commas, N>)],
    call: &mut Input<'_>,
    out: &mut Out,
) {
    match numbered(pins, call.number()) {
        Some(pin) => write_made(out, answers_to(alloc, pin.version(), call)),
        None => out.refuse(),
    }
}

/// Returns the answers by a number of workers, which give all readers back.
fn answered<N: Name + Send>(
    rt: &(impl Threads + Sync),
    alloc: Global,
    readers: &mut Vec<Reader<Commas, N>>,
    queries: &[Query],
    (workers, piece): (usize, usize),
) -> Result<Vec<Answer>, AskError> {
    let lent = mem::replace(readers, Vec::new(alloc));
    let (back, answers) = answer_all(rt, alloc, lent, queries, workers, piece, &Free);
    *readers = back;
    answers
}

/// Reads the number of workers, the number of queries in a piece, and queries. Writes a flag that is set if a refusal is predicted, the
/// number of readers afterwards, and the answers.
pub(crate) fn ask<N: Name + Send>(
    rt: &(impl Threads + Sync),
    alloc: Global,
    readers: &mut Vec<Reader<Commas, N>>,
    call: &mut Input<'_>,
    out: &mut Out,
) {
    let (workers, piece) = (call.place(), call.place());
    match said::list::<Query>(alloc, call) {
        Ok(queries) => {
            out.flag(batch_refusal(readers.len(), workers, piece).is_some());
            let answers = answered(rt, alloc, readers, &queries, (workers, piece));
            out.place(readers.len());
            write_answered(alloc, out, &answers);
        }
        Err(_) => out.want(),
    }
}
