//! The points and range deletions of a memtable's slots, as a run needs them.
ghost use Rattle.std.specs.Prelude.{◌≡◌, ◌≢◌, [], ◌<◌, ◌^◌, IfOk};
ghost use Rattle.std.specs.List.{AllByRecursion};
ghost use Rattle.uc_batch.specs.Rising.{IsRising};
ghost use Rattle.uc_run.specs.Points.{HaveOwnSeqs};
ghost use Rattle.uc_run.specs.Flush as flush;

use crate::laws::flushed_writes_are_a_run;
use crate::ranks::{Ranked, bits_below, numbers_of_points, pack_ranked, sort_by_key};
use crate::run::Run;
use crate::slot_slice::SlotSlice;
use crate::slot_totals::{first_seq, last_seq};
use std::alloc::{AllocError, Global};
use uc_run_entry::{Range, cut_ranges};
use uc_run_points::{Points, make_small};

/// The range deletions among the slots' writes, in their order. An `Err` loses them.
fn ranges_in<'a>(alloc: Global, slots: &SlotSlice<'a>) -> Result<Vec<Range<'a>>, AllocError>
    ensures { IfOk result (λ ranges. ranges.items ≡ flush.ranges_in slots.now) }
{
    let mut ranges = Vec::new(alloc);
    for place in 0..slots.len() {
        if let Some(range) = slots.at(place).range() {
            ranges.push(range)?;
        }
    }
    Ok(ranges)
}

/// The points among the slots' writes, by key, the newest of a key first. Keys and values are copied in this order. An `Err` loses
/// them.
fn points_by_key(alloc: Global, slots: &SlotSlice<'_>) -> Result<Points, AllocError>
    requires own { HaveOwnSeqs (flush.points_in slots.now) }
    requires below { AllByRecursion (λ p. p.seq < 2 ^ 56)
        (flush.by_key (flush.points_in slots.now)) }
    ensures { IfOk result (λ points. points ≡ flush.by_key (flush.points_in slots.now)) }
{
    let bits = bits_below(slots.len());
    let mut ranks = numbers_of_points(alloc, slots, bits)?;
    let ranked = Ranked {
        slots: slots.again(),
        bits,
    };
    sort_by_key(&ranked, &mut ranks);
    let packed = pack_ranked(alloc, &ranked, &ranks);
    make_small(&mut ranks, size_of::<u64>());
    packed
}

/// The run of the slots' writes: the points in order of key, and the range deletions cut into fragments.
pub(crate) fn run_of_slots(alloc: Global, slots: &SlotSlice<'_>) -> Result<Run, AllocError>
    requires rising { IsRising 0 slots.now }
    requires some { slots.now ≢ [] }
    ensures { IfOk result (λ run. run ≡ flush.flushed slots.now) }
{
    flushed_writes_are_a_run();
    let points = points_by_key(alloc, slots)?;
    let mut ranges = ranges_in(alloc, slots)?;
    let fragments = cut_ranges(alloc, &ranges);
    make_small(&mut ranges, size_of::<Range<'_>>());
    let (low, high) = (first_seq(slots), last_seq(slots));
    Run::from_points(alloc, low, high, points, fragments?)
}
