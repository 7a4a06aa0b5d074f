//! The points that a compaction keeps: of all keys in turn, or of parts of the key space side by side.
ghost use Rattle.std.specs.Prelude.{◌≡◌, ◌≤◌, length, map, filter, take, drop, IfOk};
ghost use Rattle.std.specs.Arc.{arc_value};
ghost use Rattle.std.specs.List.{AllByRecursion, flat_map};
ghost use Rattle.std.specs.List.Sorted.{IsStrictlySortedBy};
ghost use Rattle.std.specs.Ordering.{nat_cmp};
ghost use Rattle.std.specs.Thread.{IsSync};
ghost use Rattle.uc_run_entry.specs.Cutting.{fragments_of};
ghost use Rattle.uc_run_entry.specs.Order.{entry_cmp};
ghost use Rattle.uc_compact.specs.Cuts.{is_below, is_from};
ghost use Rattle.uc_compact.specs.Kept as by_key;
ghost use Rattle.uc_compact.specs.Kept.{AreOfOneKeyEach};
ghost use Rattle.uc_compact.specs.Parts.{points_of_each};
ghost use Rattle.uc_compact.specs.Inputs.{AreRuns, points_of, ranges_of};

use crate::points::points_kept;
use crate::{Alone, By, Keeping, fold_in_threads};
use std::alloc::{AllocError, Global};
use std::marker::Sync;
use std::sync::Arc;
use std::thread::{Threads, join};
use uc_oper::{Effect, Operator};
use uc_run::{Run, text_order};
use uc_run_points::{PointRef, PointSlice, PointTest, Points};

/// Passes the points whose keys are below a key.
#[derive(Drop)]
struct IsBelow<'a> {
    key: &'a [u8],
}

impl PointTest for IsBelow<'_> {
    ghost passing = { λ test. is_below test.key.now };

    #[inline]
    fn passes(&self, point: &PointRef<'_>) -> bool {
        text_order(point.key(), self.key).is_lt()
    }
}

/// The number of points whose keys are below a key.
///
/// It is a binary search.
fn count_below(points: &PointSlice<'_>, key: &[u8]) -> usize
    requires { IsStrictlySortedBy entry_cmp points.now }
    ensures bound { result ≤ length points.now }
    ensures below { take result points.now ≡ filter (is_below key.now) points.now }
    ensures from { drop result points.now ≡ filter (is_from key.now) points.now }
{
    points.partition_point(&IsBelow { key })
}

/// The points of each run below a key, and those from it on.
fn sides_of<'a>(
    alloc: Global,
    runs: &[PointSlice<'a>],
    key: &[u8],
) -> Result<(Vec<PointSlice<'a>>, Vec<PointSlice<'a>>), AllocError>
    requires { AllByRecursion (IsStrictlySortedBy entry_cmp) runs.now }
    ensures below { IfOk result (λ sides.
        sides.0.items ≡ map (filter (is_below key.now)) runs.now) }
    ensures from { IfOk result (λ sides.
        sides.1.items ≡ map (filter (is_from key.now)) runs.now) }
{
    let mut below = Vec::with_capacity(alloc, runs.len())?;
    let mut from = Vec::with_capacity(alloc, runs.len())?;
    for points in runs {
        let (front, back) = points.split_at(count_below(points, key));
        below.push(front)?;
        from.push(back)?;
    }
    Ok((below, from))
}

/// The points kept of runs' points, key by key. Many points of one key are folded in two threads.
fn points_kept_in_threads<O: Operator + Sync, R: Threads + Sync>(
    rt: &R,
    alloc: Global,
    runs: &[PointSlice<'_>],
    inputs: &[Arc<Run>],
    keeping: &Keeping<'_>,
) -> Result<Points, AllocError>
    requires sorted { AllByRecursion (IsStrictlySortedBy entry_cmp) runs.now }
    requires keeps_rise { IsStrictlySortedBy nat_cmp keeping.now.keeps }
    requires each { AreOfOneKeyEach
        (fragments_of (ranges_of (map arc_value inputs.now)))
        (flat_map (λ points. points) runs.now) }
    ensures { IfOk result (λ kept.
        kept ≡
        by_key.points_kept O.meaning keeping.now
        (fragments_of (ranges_of (map arc_value inputs.now)))
        (flat_map (λ points. points) runs.now)) }
{
    let folder = By(|alloc: Global, before: Effect, points: &[PointRef<'_>]| {
        fold_in_threads::<O>(rt, alloc, before, points)
    });
    points_kept::<O, _>(&folder, alloc, runs, inputs, keeping)
}

/// The points kept of runs' points, key by key. The points from the last cut on are merged in a thread of their own, those
/// between two cuts too, and those below the first in this one. Wherever the cuts are, the result is the same.
///
/// The calling thread starts all others, one after the other. If one can't be started, its part is merged here.
#[cycle(parts)]
fn kept_between<O: Operator + Sync, R: Threads + Sync>(
    rt: &R,
    alloc: Global,
    cuts: &[&[u8]],
    runs: &[PointSlice<'_>],
    inputs: &[Arc<Run>],
    keeping: &Keeping<'_>,
) -> Result<Points, AllocError>
    requires sorted { AllByRecursion (IsStrictlySortedBy entry_cmp) runs.now }
    requires keeps_rise { IsStrictlySortedBy nat_cmp keeping.now.keeps }
    requires each { AreOfOneKeyEach
        (fragments_of (ranges_of (map arc_value inputs.now)))
        (flat_map (λ points. points) runs.now) }
    ensures { IfOk result (λ kept.
        kept ≡
        by_key.points_kept O.meaning keeping.now
        (fragments_of (ranges_of (map arc_value inputs.now)))
        (flat_map (λ points. points) runs.now)) }
{
    let Some((last, fewer)) = cuts.split_last() else {
        return points_kept_in_threads::<O, R>(rt, alloc, runs, inputs, keeping);
    };
    let (below, from) = sides_of(alloc, runs, last)?;
    let below = below.as_slice();
    let from = from.as_slice();
    let top = move || -> Result<Points, AllocError>
        requires { IsSync R.row × IsSync O.row
            × AllByRecursion (IsStrictlySortedBy entry_cmp) from.now
            × IsStrictlySortedBy nat_cmp keeping.now.keeps
            × AreOfOneKeyEach
            (fragments_of (ranges_of (map arc_value inputs.now)))
            (flat_map (λ points. points) from.now) }
        ensures { IfOk result (λ kept.
            kept ≡
            by_key.points_kept O.meaning keeping.entry.now
            (fragments_of (ranges_of (map arc_value inputs.entry.now)))
            (flat_map (λ points. points) from.entry.now)) }
    { points_kept_in_threads::<O, R>(rt, alloc, from, inputs, keeping) };
    let others = move || -> Result<Points, AllocError>
        requires { IsSync R.row × IsSync O.row
            × AllByRecursion (IsStrictlySortedBy entry_cmp) below.now
            × IsStrictlySortedBy nat_cmp keeping.now.keeps
            × AreOfOneKeyEach
            (fragments_of (ranges_of (map arc_value inputs.now)))
            (flat_map (λ points. points) below.now) }
        ensures { IfOk result (λ kept.
            kept ≡
            by_key.points_kept O.meaning keeping.entry.now
            (fragments_of (ranges_of (map arc_value inputs.entry.now)))
            (flat_map (λ points. points) below.entry.now)) }
    { kept_between::<O, R>(rt, alloc, fewer, below, inputs, keeping) };
    let (top, others) = join(rt, top, others);
    let mut kept = others?;
    let top = top?;
    kept.extend(&top)?;
    Ok(kept)
}

/// The points of each run.
fn points_in<'a>(alloc: Global, inputs: &'a [Arc<Run>]) -> Result<Vec<PointSlice<'a>>, AllocError>
    ensures { IfOk result (λ runs. runs.items ≡ points_of_each (map arc_value inputs.now)) }
{
    let mut runs = Vec::new(alloc);
    for run in inputs {
        runs.push(run.entries().as_slice())?;
    }
    Ok(runs)
}

/// The points kept of the points of runs, key by key, in one thread.
pub(crate) fn points_kept_alone<O: Operator>(
    alloc: Global,
    inputs: &[Arc<Run>],
    keeping: &Keeping<'_>,
) -> Result<Points, AllocError>
    requires runs { AreRuns (map arc_value inputs.now) }
    requires keeps_rise { IsStrictlySortedBy nat_cmp keeping.now.keeps }
    requires each { AreOfOneKeyEach
        (fragments_of (ranges_of (map arc_value inputs.now)))
        (points_of (map arc_value inputs.now)) }
    ensures { IfOk result (λ kept.
        kept ≡
        by_key.points_kept O.meaning keeping.now
        (fragments_of (ranges_of (map arc_value inputs.now)))
        (points_of (map arc_value inputs.now))) }
{
    let runs = points_in(alloc, inputs)?;
    points_kept::<O, _>(&Alone, alloc, &runs, inputs, keeping)
}

/// The points kept of the points of runs, key by key. The parts of the key space between the cuts are merged side by side.
pub(crate) fn points_kept_by_parts<O: Operator + Sync>(
    rt: &(impl Threads + Sync),
    alloc: Global,
    inputs: &[Arc<Run>],
    cuts: &[&[u8]],
    keeping: &Keeping<'_>,
) -> Result<Points, AllocError>
    requires runs { AreRuns (map arc_value inputs.now) }
    requires keeps_rise { IsStrictlySortedBy nat_cmp keeping.now.keeps }
    requires each { AreOfOneKeyEach
        (fragments_of (ranges_of (map arc_value inputs.now)))
        (points_of (map arc_value inputs.now)) }
    ensures { IfOk result (λ kept.
        kept ≡
        by_key.points_kept O.meaning keeping.now
        (fragments_of (ranges_of (map arc_value inputs.now)))
        (points_of (map arc_value inputs.now))) }
{
    let runs = points_in(alloc, inputs)?;
    kept_between::<O, _>(rt, alloc, cuts, &runs, inputs, keeping)
}
