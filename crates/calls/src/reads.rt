//! Calls that read a run: its parts, lookups, searches, and a cursor.
use crate::input::Input;
use crate::out::Out;
use std::alloc::Global;
use uc_oper::Operator;
use uc_run::{Cursor, Run};
use uc_run_entry::{Fragment, WhatRef};
use uc_run_points::{PointRef, Points};

/// Writes a change: 0 and a value for a put, 1 for a delete, or 2 and an operand for a merge.
fn write_what(out: &mut Out, what: WhatRef<'_>) {
    match what {
        WhatRef::Put(value) => {
            out.number(0);
            out.bytes(value);
        }
        WhatRef::Delete => out.number(1),
        WhatRef::Merge(operand) => {
            out.number(2);
            out.bytes(operand);
        }
    }
}

/// Writes a point: its sequence number, key and change.
fn write_point(out: &mut Out, point: &PointRef<'_>) {
    out.number(point.seq());
    out.bytes(point.key());
    write_what(out, point.what());
}

/// Writes points.
fn write_points(out: &mut Out, points: &Points) {
    let points = points.as_slice();
    out.place(points.len());
    for place in 0..points.len() {
        write_point(out, &points.at(place));
    }
}

/// Writes a fragment: its sequence numbers and ends.
fn write_fragment(alloc: Global, out: &mut Out, fragment: &Fragment) {
    out.made_numbers(fragment.seqs().to_vec(alloc));
    out.bytes(fragment.begin());
    out.bytes(fragment.end());
}

/// Writes a run's totals: the range of its sequence numbers, its numbers of points, blocks and fragments, and its size.
pub(crate) fn sum_up(run: &Run, out: &mut Out) {
    out.number(run.low_seq());
    out.number(run.high_seq());
    out.number(run.points());
    out.number(run.blocks());
    out.place(run.fragments().len());
    out.number(run.size());
}

/// Writes a run's totals, points and fragments.
pub(crate) fn show(alloc: Global, run: &Run, out: &mut Out) {
    sum_up(run, out);
    write_points(out, run.entries());
    for fragment in run.fragments() {
        write_fragment(alloc, out, fragment);
    }
}

/// Reads a key and a sequence number. Writes the effect of the run's writes on the key.
fn look_up<O: Operator>(alloc: Global, run: &Run, call: &mut Input<'_>, out: &mut Out) {
    let (key, at) = (call.bytes(), call.number());
    out.made_effect(run.effect::<O>(alloc, key, at));
}

/// Reads a key. Writes the indexes of the first points at or above the key and above it, and the keys there.
fn seek(run: &Run, call: &mut Input<'_>, out: &mut Out) {
    let key = call.bytes();
    out.number(run.seek(key, false));
    out.some_bytes(run.next_key(key, false));
    out.number(run.seek(key, true));
    out.some_bytes(run.next_key(key, true));
}

/// Reads an index. Writes the point there.
fn point(run: &Run, call: &mut Input<'_>, out: &mut Out) {
    match run.point(call.number()) {
        Some((key, seq, what)) => {
            out.some_bytes(Some(key));
            out.number(seq);
            write_what(out, what);
        }
        None => out.some_bytes(None),
    }
}

/// Reads a key and a sequence number. Writes the effect that a cursor before the key finds, which is that of a lookup.
fn look_there<O: Operator>(
    alloc: Global,
    cursor: &Cursor<'_>,
    call: &mut Input<'_>,
    out: &mut Out,
) {
    let (key, at) = (call.bytes(), call.number());
    if !cursor.is_before(key) {
        return out.refuse();
    }
    out.made_effect(cursor.effect::<O>(alloc, key, at));
    out.some_bytes(cursor.hidden_to(key, at));
}

/// Reads a step of a cursor. 0, 1 or 2 and a key: starts again at the key, seeks it, or passes it. 3, a key and a sequence number: writes
/// the key up to which that is hidden. 4 and the arguments of `look_there`: looks up. Then writes the cursor's key.
fn step<'a, O: Operator>(
    alloc: Global,
    run: &'a Run,
    cursor: &mut Cursor<'a>,
    call: &mut Input<'_>,
    out: &mut Out,
) {
    match call.number() {
        0 => *cursor = run.cursor(call.bytes()),
        1 => cursor.seek(call.bytes()),
        2 => cursor.pass(call.bytes()),
        3 => {
            let (key, at) = (call.bytes(), call.number());
            out.some_bytes(cursor.hidden_to(key, at));
        }
        _ => look_there::<O>(alloc, cursor, call, out),
    }
    out.some_bytes(cursor.key());
}

/// Reads the number of steps, and the steps.
fn walk<O: Operator>(alloc: Global, run: &Run, call: &mut Input<'_>, out: &mut Out) {
    let mut cursor = run.cursor(b"");
    for _ in 0..call.number() {
        if call.is_short() {
            break;
        }
        step::<O>(alloc, run, &mut cursor, call, out);
    }
}

/// Makes a call of the given kind and run.
pub(crate) fn play<O: Operator>(
    alloc: Global,
    run: &Run,
    kind: u64,
    call: &mut Input<'_>,
    out: &mut Out,
) {
    match kind {
        30 => sum_up(run, out),
        31 => show(alloc, run, out),
        32 => look_up::<O>(alloc, run, call, out),
        33 => seek(run, call, out),
        34 => out.some_bytes(run.fence(call.number())),
        35 => point(run, call, out),
        36 => walk::<O>(alloc, run, call, out),
        _ => out.refuse(),
    }
}
