//! [`points_kept`]: the points that a compaction keeps.
ghost use Rattle.std.specs.Prelude.{◌≡◌, ◌++◌, map, OnOk, IfOk};
ghost use Rattle.std.specs.Arc.{arc_value};
ghost use Rattle.std.specs.List.{AllByRecursion, flat_map};
ghost use Rattle.std.specs.List.Sorted.{IsStrictlySortedBy};
ghost use Rattle.std.specs.Ordering.{nat_cmp};
ghost use Rattle.uc_run_entry.specs.Cutting.{fragments_of};
ghost use Rattle.uc_run_entry.specs.Order.{entry_cmp};
ghost use Rattle.uc_compact.specs.Inputs.{ranges_of};
ghost use Rattle.uc_compact.specs.Kept as by_key;
ghost use Rattle.uc_compact.specs.Kept.{AreOfOneKeyEach};
ghost use Rattle.uc_compact.specs.Choice.{AreOfOneKey, points_for, seqs_over};

use crate::front::Front;
use crate::fronts::{fronts_of, lists_over};
use crate::groups::Groups;
use crate::{Folder, Keeping, Over, push_kept_points};
use std::alloc::{AllocError, Global};
use std::sync::Arc;
use uc_oper::Operator;
use uc_run::Run;
use uc_run_points::{PointSlice, Points};

/// Pushes what is kept of the points ahead, key by key. The fronts are of the runs whose range deletions are over the
/// keys.
fn push_groups<O: Operator, F: Folder<O>>(
    folder: &F,
    alloc: Global,
    kept: &mut Points,
    groups: &mut Groups<'_>,
    fronts: &mut [Front<'_>],
    keeping: &Keeping<'_>,
) -> Result<(), AllocError>
    requires can { F.can_fold folder.now }
    requires keeps_rise { IsStrictlySortedBy nat_cmp keeping.now.keeps }
    requires each { AllByRecursion
        (λ g. AreOfOneKey g.points (seqs_over g.key (fragments_of (ranges_of fronts.old))))
        groups.old }
    ensures { OnOk result
        (kept.new ≡
        kept.old
        ++ flat_map
        (λ g.
        points_for O.meaning keeping.now g.key g.points
        (seqs_over g.key (fragments_of (ranges_of fronts.old)))) groups.old) }
{
    let mut points = Vec::new(alloc);
    let mut lists = Vec::new(alloc);
    while let Some(key) = groups.next_into(&mut points)? {
        lists_over(fronts, key, &mut lists)?;
        let seqs = Over::new(&lists);
        push_kept_points::<O, F>(folder, alloc, kept, key, &points, &seqs, keeping)?;
    }
    Ok(())
}

/// The points kept of runs' points, key by key, with the range deletions of the inputs over them.
///
/// For each key it takes a few steps for each input that has fragments.
pub(crate) fn points_kept<O: Operator, F: Folder<O>>(
    folder: &F,
    alloc: Global,
    runs: &[PointSlice<'_>],
    inputs: &[Arc<Run>],
    keeping: &Keeping<'_>,
) -> Result<Points, AllocError>
    requires can { F.can_fold folder.now }
    requires sorted { AllByRecursion (IsStrictlySortedBy entry_cmp) runs.now }
    requires keeps_rise { IsStrictlySortedBy nat_cmp keeping.now.keeps }
    requires each { AreOfOneKeyEach
        (fragments_of (ranges_of (map arc_value inputs.now)))
        (flat_map (λ points. points) runs.now) }
    ensures { IfOk result (λ kept.
        kept ≡
        by_key.points_kept O.meaning keeping.now
        (fragments_of (ranges_of (map arc_value inputs.now)))
        (flat_map (λ points. points) runs.now)) }
{
    let mut kept = Points::new(alloc);
    let mut groups = Groups::over(alloc, runs, keeping.keeps())?;
    let mut fronts = fronts_of(alloc, inputs)?;
    push_groups::<O, F>(folder, alloc, &mut kept, &mut groups, &mut fronts, keeping)?;
    Ok(kept)
}
