//! Calls that read a store with one owner, and calls that make another run or store from it.
use crate::asked::{made_answer, write_answers};
use crate::input::Input;
use crate::lists::write_stopped;
use crate::merges::made_by_parts;
use crate::out::{Halt, Out};
use crate::said::Spelled;
use crate::versions::stretch;
use crate::{opening, reads, said};
use std::alloc::{AllocError, Global};
use std::marker::Sync;
use std::thread::Threads;
use std::time::Clock;
use uc_compact::Compacted;
use uc_oper::Operator;
use uc_query_read::{Answer, Query, answer_last, answer_one, get, get_last, rows_at};
use uc_query_workers::{AskError, answer_plain};
use uc_version::{OpenError, Owned, OwnedClaim, Stretch, Version};

/// Writes answers, or the reason why there are none.
fn write_answered(alloc: Global, out: &mut Out, answered: &Result<Vec<Answer>, AskError>) {
    match answered {
        Ok(answers) => {
            out.number(10);
            write_answers(out, answers);
        }
        Err(error) => write_stopped(alloc, out, error),
    }
}

/// Reads the number of workers, the number of queries in a piece, and queries. Writes the answers. Clocks only the answering.
pub(crate) fn ask<O: Operator + Sync>(
    rt: &(impl Threads + Clock + Sync),
    alloc: Global,
    version: &Version,
    call: &mut Input<'_>,
    out: &mut Out,
) {
    let (workers, piece) = (call.place(), call.place());
    match said::list::<Query>(alloc, call) {
        Ok(queries) => {
            out.watch.restart(rt);
            let answered = answer_plain::<O>(rt, alloc, version, &queries, workers, piece);
            out.watch.stop(rt);
            write_answered(alloc, out, &answered);
        }
        Err(_) => out.want(),
    }
}

/// Returns the answer to a query, by the function that doesn't check the snapshots.
fn unasked<O: Operator>(
    alloc: Global,
    version: &Version,
    query: &Query,
) -> Result<Answer, AllocError> {
    match query {
        Query::Get { key, at } => get::<O>(alloc, version, key.as_slice(), *at),
        Query::Scan {
            low,
            high,
            at,
            limit,
        } => {
            let rows = rows_at::<O>(alloc, version, low.as_slice(), high, *at, *limit)?;
            Ok(Answer::Rows(rows))
        }
    }
}

/// Returns the answer to a query at the last sequence number.
fn last<O: Operator>(
    alloc: Global,
    version: &Version,
    query: &Query,
) -> Result<Answer, AllocError> {
    match query {
        Query::Get { key, at: _ } => get_last::<O>(alloc, version, key.as_slice()),
        Query::Scan { .. } => answer_last::<O>(alloc, version, query),
    }
}

/// Reads a query. Writes its answer, the answer without a check of the snapshots, and the answer at the last sequence number.
pub(crate) fn answer<O: Operator>(
    alloc: Global,
    version: &Version,
    call: &mut Input<'_>,
    out: &mut Out,
) {
    match Query::read(alloc, call) {
        Ok(query) => {
            made_answer(out, answer_one::<O>(alloc, version, &query));
            made_answer(out, unasked::<O>(alloc, version, &query));
            made_answer(out, last::<O>(alloc, version, &query));
        }
        Err(_) => out.want(),
    }
}

/// Reads a stretch, keeps, and a flag that is set if it has the oldest run. Returns its compaction.
fn merged<O: Operator + Sync>(
    rt: &(impl Threads + Sync),
    alloc: Global,
    version: &Version,
    call: &mut Input<'_>,
) -> Result<Compacted<O>, Halt> {
    let stretch = stretch(call);
    let keeps = call.numbers(alloc)?;
    made_by_parts::<O>(rt, alloc, version.runs(), stretch, (&keeps, call.flag()))
}

/// Reads the arguments of `merged`. Writes the compacted run, with its points and fragments.
pub(crate) fn merge<O: Operator + Sync>(
    rt: &(impl Threads + Sync),
    alloc: Global,
    version: &Version,
    call: &mut Input<'_>,
    out: &mut Out,
) {
    match merged::<O>(rt, alloc, version, call) {
        Ok(made) => reads::show(alloc, made.output(), out),
        Err(halt) => out.stop(halt),
    }
}

/// Writes the numbers of a claim and of another store's claim. Then flags: whether each store holds its own, and each the other's.
fn tell_apart<O: Operator>(
    here: &Owned<O>,
    claim: &OwnedClaim,
    there: &Owned<O>,
    other: &OwnedClaim,
    out: &mut Out,
) {
    out.place(claim.number());
    out.place(other.number());
    out.flag(here.holds(claim));
    out.flag(there.holds(other));
    out.flag(here.holds(other));
    out.flag(there.holds(claim));
}

/// Claims runs in another store, and compares that claim with one of this store.
fn apart_from<O: Operator>(here: &Owned<O>, claim: &OwnedClaim, there: Owned<O>, out: &mut Out) {
    let mut there = there;
    match there.claim(Stretch { first: 0, count: 2 }) {
        Ok(other) => tell_apart(here, claim, &there, &other, out),
        Err(_) => out.refuse(),
    }
}

/// Reads the beginning of another store. Compares a claim with one of that store.
pub(crate) fn apart<O: Operator>(
    rt: &(impl Threads + Clock + Sync),
    alloc: Global,
    here: &Owned<O>,
    claim: &OwnedClaim,
    call: &mut Input<'_>,
    out: &mut Out,
) {
    match opening::open::<O>(rt, alloc, call, out) {
        Ok(there) => apart_from(here, claim, there, out),
        Err(OpenError::Memory) => out.want(),
        Err(_) => out.refuse(),
    }
}
