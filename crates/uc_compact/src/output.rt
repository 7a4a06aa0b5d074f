//! The run that several runs become, merged by one thread or by several.
ghost use Rattle.std.specs.Prelude.{◌≡◌, ◌<◌, Some, None, map, IfOk, if◌then◌else◌};
ghost use Rattle.std.specs.Arc.{arc_value};
ghost use Rattle.uc_compact.specs.Inputs.{Stand, low_of};
ghost use Rattle.uc_compact.specs.Output.{output_of};

use crate::cuts::cut_keys;
use crate::fragments::fragments_kept;
use crate::inputs::{are_runs, high_seq, low_seq};
use crate::parts::{points_kept_alone, points_kept_by_parts};
use crate::{Keeping, compaction_gives_a_run, points_are_chosen_key_by_key};
use std::alloc::{AllocError, Global};
use std::marker::Sync;
use std::sync::Arc;
use std::thread::Threads;
use uc_oper::Operator;
use uc_run::Run;
use uc_run_entry::Fragments;
use uc_run_points::Points;

/// Into how many parts the key space is cut.
const PARTS: usize = 4;

/// The key space is cut only if the inputs have at least this many points. With fewer, threads cost more than they save.
const LEAST_POINTS: u64 = 16_384;

/// If the last run is the oldest of all, a sequence of the stripe with nothing below it.
fn bottom_of(inputs: &[Arc<Run>], oldest: bool) -> Option<u64>
    ensures { result ≡ (if oldest then Some (low_of (map arc_value inputs.now)) else None) }
{
    if oldest { Some(low_seq(inputs)) } else { None }
}

/// The points of the run that the runs become, in one thread.
fn points_alone<O: Operator>(
    alloc: Global,
    inputs: &[Arc<Run>],
    keeps: &[u64],
    oldest: bool,
) -> Result<Points, AllocError>
    requires { Stand (map arc_value inputs.now) keeps.now }
    ensures { IfOk result (λ points.
        points ≡
        (output_of O.meaning
        (record { inputs = map arc_value inputs.now; keeps = keeps.now; oldest = oldest })).points) }
{
    are_runs(inputs);
    points_are_chosen_key_by_key::<O>();
    let keeping = Keeping::new(keeps, bottom_of(inputs, oldest));
    points_kept_alone::<O>(alloc, inputs, &keeping)
}

/// The points of the run that the runs become, of at most this many parts of the key space side by side.
fn points_by_parts<O: Operator + Sync>(
    rt: &(impl Threads + Sync),
    alloc: Global,
    inputs: &[Arc<Run>],
    keeps: &[u64],
    oldest: bool,
    parts: usize,
) -> Result<Points, AllocError>
    requires stand { Stand (map arc_value inputs.now) keeps.now }
    requires parts { 0 < parts }
    ensures { IfOk result (λ points.
        points ≡
        (output_of O.meaning
        (record { inputs = map arc_value inputs.now; keeps = keeps.now; oldest = oldest })).points) }
{
    are_runs(inputs);
    points_are_chosen_key_by_key::<O>();
    let keeping = Keeping::new(keeps, bottom_of(inputs, oldest));
    let cuts = cut_keys(alloc, inputs, parts)?;
    points_kept_by_parts::<O>(rt, alloc, inputs, &cuts, &keeping)
}

/// The fragments of the run that the runs become.
fn output_fragments<O: Operator>(
    alloc: Global,
    inputs: &[Arc<Run>],
    keeps: &[u64],
    oldest: bool,
) -> Result<Fragments, AllocError>
    requires { Stand (map arc_value inputs.now) keeps.now }
    ensures { IfOk result (λ fragments.
        fragments ≡
        (output_of O.meaning
        (record { inputs = map arc_value inputs.now; keeps = keeps.now; oldest = oldest })).fragments) }
{
    are_runs(inputs);
    let keeping = Keeping::new(keeps, bottom_of(inputs, oldest));
    fragments_kept(alloc, inputs, &keeping)
}

/// The run that the runs become, merged in one thread.
pub(crate) fn merge_alone<O: Operator>(
    alloc: Global,
    inputs: &[Arc<Run>],
    keeps: &[u64],
    oldest: bool,
) -> Result<Run, AllocError>
    requires { Stand (map arc_value inputs.now) keeps.now }
    ensures { IfOk result (λ run.
        run ≡
        output_of O.meaning
        (record { inputs = map arc_value inputs.now; keeps = keeps.now; oldest = oldest })) }
{
    are_runs(inputs);
    compaction_gives_a_run::<O>();
    let points = points_alone::<O>(alloc, inputs, keeps, oldest)?;
    let fragments = output_fragments::<O>(alloc, inputs, keeps, oldest)?;
    Run::from_points(alloc, low_seq(inputs), high_seq(inputs), points, fragments)
}

/// The run that the runs become, of at most this many parts of the key space that are merged side by side. If there is more
/// than one, its filter is made in threads too.
pub(crate) fn merge_by_parts<O: Operator + Sync>(
    rt: &(impl Threads + Sync),
    alloc: Global,
    inputs: &[Arc<Run>],
    keeps: &[u64],
    oldest: bool,
    parts: usize,
) -> Result<Run, AllocError>
    requires stand { Stand (map arc_value inputs.now) keeps.now }
    requires parts { 0 < parts }
    ensures { IfOk result (λ run.
        run ≡
        output_of O.meaning
        (record { inputs = map arc_value inputs.now; keeps = keeps.now; oldest = oldest })) }
{
    are_runs(inputs);
    compaction_gives_a_run::<O>();
    let points = points_by_parts::<O>(rt, alloc, inputs, keeps, oldest, parts)?;
    let fragments = output_fragments::<O>(alloc, inputs, keeps, oldest)?;
    let low = low_seq(inputs);
    let high = high_seq(inputs);
    if parts == 1 {
        Run::from_points(alloc, low, high, points, fragments)
    } else {
        Run::from_points_in_threads(rt, alloc, low, high, points, fragments)
    }
}

/// The number of points in all runs together.
fn count_points(inputs: &[Arc<Run>]) -> u64 {
    let mut points = 0_u64;
    for run in inputs {
        points = points.saturating_add(run.points());
    }
    points
}

/// In how many parts the runs are merged.
fn parts_for(inputs: &[Arc<Run>]) -> usize
    ensures { 0 < result }
{
    if count_points(inputs) < LEAST_POINTS {
        1
    } else {
        PARTS
    }
}

/// The run that the runs become, as [`compact`](crate::compact) makes it. A [`By`](crate::By) of this merges in threads.
pub fn merge_in_threads<O: Operator + Sync>(
    rt: &(impl Threads + Sync),
    alloc: Global,
    inputs: &[Arc<Run>],
    keeps: &[u64],
    oldest: bool,
) -> Result<Run, AllocError>
    requires { Stand (map arc_value inputs.now) keeps.now }
    ensures { IfOk result (λ run.
        run ≡
        output_of O.meaning
        (record { inputs = map arc_value inputs.now; keeps = keeps.now; oldest = oldest })) }
{
    merge_by_parts::<O>(rt, alloc, inputs, keeps, oldest, parts_for(inputs))
}
