//! [`push_kept_points`]: what is kept of one key's points.
ghost use Rattle.std.specs.Prelude.{◌≡◌, ◌<◌, ◌↔◌, ◌++◌, [], map, nat_lt, IsTrue, IfOk, OnOk, OnErr};
ghost use Rattle.std.specs.List.{AllByRecursion, cons_option};
ghost use Rattle.std.specs.Option.{option_to_list};
ghost use Rattle.std.specs.List.Sorted.{IsStrictlySortedBy};
ghost use Rattle.std.specs.Ordering.{nat_cmp};
ghost use mathlib.Core.List.{IsPrefix};
ghost use Rattle.uc_compact.specs.Choice as choice;
ghost use Rattle.uc_compact.specs.Choice.{AreOfOneKey, PointsFall, points_for};
ghost use Rattle.uc_compact.specs.Output as output;

use crate::folder::Folder;
use crate::folding::effect_above_newest;
use crate::keeping::Keeping;
use crate::over::Over;
use std::alloc::{AllocError, Global};
use uc_oper::{Effect, Operator};
use uc_run_entry::{What, WhatRef};
use uc_run_points::{PointRef, Points};

/// The point that replaces an effect. No value needs no point if something else clears the key.
fn what_of(effect: Effect, cleared: bool) -> Option<What>
    ensures { result ≡ output.what_of effect cleared }
{
    match effect {
        Effect::Keep => None,
        Effect::Fold(operand) => Some(What::Merge(operand)),
        Effect::Set(Some(value)) => Some(What::Put(value)),
        Effect::Set(None) if cleared => None,
        Effect::Set(None) => Some(What::Delete),
    }
}

/// The point that replaces a stripe's effect. In the bottom stripe it is the value that the effect makes of none.
fn what_kept<O: Operator>(
    alloc: Global,
    bottom: bool,
    effect: Effect,
    cleared: bool,
) -> Result<Option<What>, AllocError>
    ensures { IfOk result (λ what. what ≡ output.what_kept O.meaning bottom effect cleared) }
{
    if bottom {
        let value = effect.apply::<O>(alloc, None)?;
        Ok(what_of(Effect::Set(value), true))
    } else {
        Ok(what_of(effect, cleared))
    }
}

/// Whether there is a range deletion above a sequence.
fn is_cleared(seq: u64, newest: Option<u64>) -> bool
    ensures { result ≡ nat_lt seq (output.greatest (option_to_list newest)) }
{
    match newest {
        None => false,
        Some(newest) => seq < newest,
    }
}

/// Whether the range deletion, if there is one, is below a sequence.
fn is_below(newest: Option<u64>, seq: u64) -> bool
    ensures { IsTrue result ↔ AllByRecursion (λ n. n < seq) (option_to_list newest) }
{
    match newest {
        None => true,
        Some(newest) => newest < seq,
    }
}

/// Pushes the point that replaces a stripe's points of a key, if they need one. `range` is the newest range deletion of the
/// stripe over the key, if there is one. An `Err` pushes nothing.
fn push_point_for<O: Operator, F: Folder<O>>(
    folder: &F,
    alloc: Global,
    kept: &mut Points,
    bottom: bool,
    key: &[u8],
    points: &[PointRef<'_>],
    range: Option<u64>,
) -> Result<(), AllocError>
    requires can { F.can_fold folder.now }
    requires fall { PointsFall points.now }
    requires from_one { AllByRecursion (λ p. 0 < p.seq) points.now }
    ensures pushed { OnOk result
        (kept.new ≡
        kept.old
        ++ cons_option (choice.point_for O.meaning bottom key.now points.now (option_to_list range)) []) }
    ensures as_it_was { OnErr result (kept.new ≡ kept.old) }
{
    let Some(newest) = points.first() else {
        return Ok(());
    };
    let seq = newest.seq();
    // A put that nothing hides stays as it is, so its value is copied once.
    if let WhatRef::Put(value) = newest.what()
        && is_below(range, seq)
    {
        return kept.push(key, seq, WhatRef::Put(value));
    }
    let effect = effect_above_newest::<O, F>(folder, alloc, points, range)?;
    let cleared = is_cleared(seq, range);
    match what_kept::<O>(alloc, bottom, effect, cleared)? {
        None => Ok(()),
        Some(what) => kept.push(key, seq, WhatRef::of(&what)),
    }
}

/// Pushes the points that replace a key's points, stripe by stripe. An `Err` may leave some of them pushed.
fn push_each_stripe<O: Operator, F: Folder<O>>(
    folder: &F,
    alloc: Global,
    kept: &mut Points,
    key: &[u8],
    points: &[PointRef<'_>],
    seqs: &Over<'_>,
    keeping: &Keeping<'_>,
) -> Result<(), AllocError>
    requires can { F.can_fold folder.now }
    requires of_one_key { AreOfOneKey points.now seqs.now }
    requires keeps_rise { IsStrictlySortedBy nat_cmp keeping.now.keeps }
    ensures pushed { OnOk result
        (kept.new ≡
        kept.old
        ++ points_for O.meaning keeping.now key.now points.now
        seqs.now) }
    ensures begins { IsPrefix kept.old kept.new }
{
    let mut rest = points;
    while let Some(newest) = rest.first() {
        let stripe = keeping.stripe_of(newest.seq());
        let (own, count) = stripe.own_points(rest);
        let range = stripe.newest_of(seqs);
        let bottom = keeping.is_bottom(&stripe);
        push_point_for::<O, F>(folder, alloc, kept, bottom, key, own, range)?;
        rest = &rest[count..];
    }
    Ok(())
}

/// Pushes the points that replace a key's points: at most one for each stripe, with the sequence of the newest point
/// there. The key's points and the sequences of the range deletions over it come newest first.
///
/// It takes time only for the stripes that have points. In a stripe it reads the points that no newer put, delete or
/// range deletion hides. The folder makes one effect of them. An `Err` pushes nothing.
pub fn push_kept_points<O: Operator, F: Folder<O>>(
    folder: &F,
    alloc: Global,
    kept: &mut Points,
    key: &[u8],
    points: &[PointRef<'_>],
    seqs: &Over<'_>,
    keeping: &Keeping<'_>,
) -> Result<(), AllocError>
    requires can { F.can_fold folder.now }
    requires of_one_key { AreOfOneKey points.now seqs.now }
    requires keeps_rise { IsStrictlySortedBy nat_cmp keeping.now.keeps }
    ensures pushed { OnOk result
        (kept.new ≡
        kept.old
        ++ points_for O.meaning keeping.now key.now points.now
        seqs.now) }
    ensures as_it_was { OnErr result (kept.new ≡ kept.old) }
{
    let (before, size) = (kept.len(), kept.size());
    if let Err(error) = push_each_stripe::<O, F>(folder, alloc, kept, key, points, seqs, keeping) {
        // Points of only some stripes are no answer for the key.
        kept.truncate(before, size);
        return Err(error);
    }
    Ok(())
}
