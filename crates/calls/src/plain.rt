//! Calls of sums, rows, byte strings and queries of plain writes. They are stateless.
use crate::input::Input;
use crate::out::Out;
use crate::said::Spelled;
use crate::{asked, rows, said, sheet};
use std::alloc::{AllocError, Global};
use std::marker::Sync;
use std::thread::Threads;
use std::time::Clock;
use uc_batch::Writes;
use uc_bytes::Op;
use uc_fold::{Joins, Sums, Totals, fold_all};
use uc_model::touches_key;
use uc_oper::{Effect, Operator};
use uc_query_read::{Answer, Query, answer_writes};
use uc_run::{same_text, text_order};

/// Returns the composition of effects, computed by the calling thread.
fn in_turn<O: Operator>(alloc: Global, effects: Vec<Effect>) -> Result<Effect, AllocError> {
    let mut all = Effect::Keep;
    for effect in effects {
        all = all.then::<O>(alloc, effect)?;
    }
    Ok(all)
}

/// Reads effects. Writes their composition. Clocks only the folding.
fn fold_in_turn<O: Operator>(
    clock: &impl Clock,
    alloc: Global,
    call: &mut Input<'_>,
    out: &mut Out,
) {
    match said::list::<Effect>(alloc, call) {
        Ok(parts) => {
            out.watch.restart(clock);
            let all = in_turn::<O>(alloc, parts);
            out.watch.stop(clock);
            out.made_effect(all);
        }
        Err(_) => out.want(),
    }
}

/// Reads totals: the numbers of points, fragments and bytes.
fn total(call: &mut Input<'_>) -> Totals {
    Totals {
        points: call.number(),
        fragments: call.number(),
        size: call.number(),
    }
}

impl Spelled for Totals {
    fn read(_: Global, call: &mut Input<'_>) -> Result<Totals, AllocError> {
        Ok(total(call))
    }
}

/// Reads totals. Returns their sum, folded in threads.
fn sum_all(
    rt: &(impl Threads + Sync),
    alloc: Global,
    call: &mut Input<'_>,
) -> Result<Totals, AllocError> {
    fold_all::<Sums>(rt, alloc, said::list::<Totals>(alloc, call)?)
}

/// Writes a sum.
fn write_sum(out: &mut Out, sum: Result<Totals, AllocError>) {
    match sum {
        Ok(sum) => out.numbers(&[sum.points, sum.fragments, sum.size]),
        Err(_) => out.want(),
    }
}

/// Reads two totals, and then a list of totals. Writes the sum of the two, and the sum of the list.
fn sum(rt: &(impl Threads + Sync), alloc: Global, call: &mut Input<'_>, out: &mut Out) {
    write_sum(out, Sums::join(alloc, total(call), total(call)));
    write_sum(out, sum_all(rt, alloc, call));
}

/// Reads keeps and a query. Returns its answer from plain writes.
fn answered<O: Operator>(
    alloc: Global,
    writes: &Writes,
    call: &mut Input<'_>,
) -> Result<Answer, AllocError> {
    let keeps = call.numbers(alloc)?;
    let query = Query::read(alloc, call)?;
    answer_writes::<O>(alloc, writes, &keeps, &query)
}

/// Reads writes, keeps and a query. Writes the answer.
fn ask<O: Operator>(alloc: Global, call: &mut Input<'_>, out: &mut Out) {
    if let Some(writes) = said::rising(alloc, call, out) {
        asked::made_answer(out, answered::<O>(alloc, &writes, call));
    }
}

/// Reads a change and a key. Writes a flag that is set if the change affects the key.
fn touch(alloc: Global, call: &mut Input<'_>, out: &mut Out) {
    match Op::read(alloc, call) {
        Ok(op) => out.flag(touches_key(&op, call.bytes())),
        Err(_) => out.want(),
    }
}

/// Reads two byte strings. Writes flags: whether they are equal, and whether the first is below the second, or above it.
fn compare(call: &mut Input<'_>, out: &mut Out) {
    let (text, other) = (call.bytes(), call.bytes());
    let order = text_order(text, other);
    out.flag(same_text(text, other));
    out.flag(order.is_lt());
    out.flag(order.is_gt());
}

/// Makes a call of the given kind.
pub(crate) fn play<O: Operator + Sync>(
    rt: &(impl Threads + Clock + Sync),
    alloc: Global,
    kind: u64,
    call: &mut Input<'_>,
    out: &mut Out,
) {
    match kind {
        6 => sum(rt, alloc, call, out),
        8 => touch(alloc, call, out),
        9 => rows::gather(alloc, call, out),
        10 => rows::spell(alloc, call, out),
        11 => compare(call, out),
        12 => ask::<O>(alloc, call, out),
        13 => fold_in_turn::<O>(rt, alloc, call, out),
        _ => sheet::play::<O>(rt, alloc, kind, call, out),
    }
}
