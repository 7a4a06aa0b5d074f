//! Puts that are the only points of their keys.
ghost use Rattle.std.specs.Prelude.{◌≡◌, drop, option_map, IfSome, IfNone};
ghost use Rattle.uc_run.specs.Heads.{first_key};
ghost use Rattle.uc_run.specs.Lone.{is_same, lone_put};

use crate::texts::same_text;
use uc_run_entry::WhatRef;
use uc_run_points::PointSlice;

/// Whether the first of some points is of a key.
#[inline]
fn is_next(points: &PointSlice<'_>, key: &[u8]) -> bool
    ensures { result ≡ is_same key.now (first_key points.now) }
{
    match points.first() {
        Some(point) => same_text(point.key(), key),
        None => false,
    }
}

/// The value of the first point, if it is a put at or below a sequence and the only point of its key. Then it is passed; otherwise
/// nothing is.
#[inline]
pub(crate) fn next_lone_put<'a>(points: &mut PointSlice<'a>, at: u64) -> Option<&'a [u8]>
    ensures value { option_map (λ value. value.now) result ≡ lone_put points.old at }
    ensures passes { IfSome result (λ value. points.new ≡ drop 1 points.old) }
    ensures stays { IfNone result (points.new ≡ points.old) }
{
    let point = points.first()?;
    let (seq, what) = point.seq_and_what();
    let WhatRef::Put(value) = what else {
        return None;
    };
    if seq > at {
        return None;
    }
    let after = points.after_first();
    if is_next(&after, point.key()) {
        return None;
    }
    *points = after;
    Some(value)
}
