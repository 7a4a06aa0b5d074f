//! Lookups of a key among points and fragments.
ghost use Rattle.std.specs.Prelude.{◌≡◌, Bool, not, ◌&&◌, Some, filter, IfOk, IfSome, nat_le};
ghost use Rattle.std.specs.List.{AllByRecursion, flat_map, slice_get};
ghost use Rattle.std.specs.List.Sorted.{IsStrictlySortedBy, IsPartitionedBy};
ghost use Rattle.uc_oper.specs.Operation.{Operation};
ghost use Rattle.uc_oper.specs.declared.effect.Effect.{Effect as EffectOf};
ghost use Rattle.uc_oper.specs.declared.effect.Effect.TheVariants.{Set};
ghost use Rattle.uc_run_entry.specs.Order.{entry_cmp, IsFalling, AreInOrder};
ghost use Rattle.uc_run_entry.specs.Run.{covers};
ghost use Rattle.uc_run_entry.specs.Lookup as lookup;
ghost use Rattle.uc_run_entry.specs.Overwriting as overwriting;
ghost use Rattle.uc_run.specs.Places as places;
ghost use Rattle.uc_run.specs.Found.{before_points, IsPutFirst};

use crate::near::fragments_near;
use crate::places::{is_on, without_newer};
use std::alloc::{AllocError, Global};
use uc_oper::{Effect, EffectRef, Operator};
use uc_run_entry::{Fragment, WhatRef, covering_fragment};
use uc_run_points::{PointRef, PointSlice, PointTest};

/// The number of points that are gathered at a time.
const FEW_POINTS: usize = 16;

/// Passes the points of a key that overwrite nothing, above a sequence if there is one.
#[derive(Drop)]
struct IsMerge<'a> {
    key: &'a [u8],
    above: Option<u64>,
}

impl PointTest for IsMerge<'_> {
    ghost passing = { λ test p. not (overwriting.overwrites p) && places.is_on test.key.now test.above p };

    #[inline]
    fn passes(&self, point: &PointRef<'_>) -> bool {
        is_on(point, self.key, self.above) && !point.overwrites()
    }
}

/// The points of the key above the sequence, which come first, without those that a newer one overwrites.
fn lasting<'a>(points: &PointSlice<'a>, key: &[u8], above: Option<u64>) -> PointSlice<'a>
    requires { IsPartitionedBy (places.is_on key.now above) points.now }
    ensures { (m : Operation) (before : EffectOf) →
        lookup.points_effect m before result ≡
        lookup.points_effect m before (filter (places.is_on key.now above) points.now) }
{
    let mut ahead = points.ahead();
    let count = ahead.pass_while(points.len(), &IsMerge { key, above });
    match ahead.first() {
        Some(point) if is_on(&point, key, above) => points.slice(0, count + 1),
        _ => points.slice(0, count),
    }
}

/// The points, each looked at once.
fn gathered<'a>(alloc: Global, points: &PointSlice<'a>) -> Result<Vec<PointRef<'a>>, AllocError>
    ensures { IfOk result (λ refs. refs.items ≡ points.now) }
{
    let mut refs = Vec::with_capacity(alloc, points.len())?;
    let mut ahead = points.ahead();
    while let Some(point) = ahead.next() {
        refs.push(point)?;
    }
    Ok(refs)
}

/// The effect of a few points, the newest first, after an older effect. An `Err` loses that effect.
fn few_effect<O: Operator>(
    alloc: Global,
    before: Effect,
    points: &PointSlice<'_>,
) -> Result<Effect, AllocError>
    ensures { IfOk result (λ effect. effect ≡ lookup.points_effect O.meaning before points.now) }
{
    if points.len() == 1 {
        return points.at(0).what().after::<O>(alloc, before);
    }
    let refs = gathered(alloc, points)?;
    let mut effect = before;
    for place in (0..refs.len()).rev() {
        effect = refs[place].what().after::<O>(alloc, effect)?;
    }
    Ok(effect)
}

/// The effect of points, the newest first, after an older effect: the oldest few first. An `Err` loses that effect.
fn points_effect<O: Operator>(
    alloc: Global,
    before: Effect,
    points: &PointSlice<'_>,
) -> Result<Effect, AllocError>
    ensures { IfOk result (λ effect. effect ≡ lookup.points_effect O.meaning before points.now) }
{
    let mut effect = before;
    let mut end = points.len();
    while end > 0 {
        let begin = end.saturating_sub(FEW_POINTS);
        effect = few_effect::<O>(alloc, effect, &points.slice(begin, end))?;
        end = begin;
    }
    Ok(effect)
}

/// The effect of the points of the key above the sequence, which come first, after an older effect. If the newest is a put or
/// a delete, no other is looked at, and the value of a put stays where it is. An `Err` loses that effect.
fn effect_above<'a, O: Operator>(
    alloc: Global,
    before: Effect,
    points: &PointSlice<'a>,
    key: &[u8],
    above: Option<u64>,
) -> Result<EffectRef<'a>, AllocError>
    requires { IsPartitionedBy (places.is_on key.now above) points.now }
    ensures { IfOk result (λ effect. effect ≡
        lookup.points_effect O.meaning before (filter (places.is_on key.now above) points.now)) }
{
    let Some(newest) = points.first() else {
        return Ok(EffectRef::own(before));
    };
    if !is_on(&newest, key, above) {
        return Ok(EffectRef::own(before));
    }
    match newest.what() {
        WhatRef::Put(value) => Ok(EffectRef::put(value)),
        WhatRef::Delete => Ok(EffectRef::own(Effect::Set(None))),
        WhatRef::Merge(_) => {
            let effect = points_effect::<O>(alloc, before, &lasting(points, key, above))?;
            Ok(EffectRef::own(effect))
        }
    }
}

/// The value that the first point puts, if it is one of the key at or below a sequence, and above another if there is one. Then
/// no other point is of account: of most keys that are found, no more is read than this.
#[inline]
fn value_put<'a>(
    points: &PointSlice<'a>,
    key: &[u8],
    at: u64,
    above: Option<u64>,
) -> Option<&'a [u8]>
    ensures { IfSome result (λ value. IsPutFirst points.now key.now at above value.now) }
{
    let point = points.first()?;
    if !is_on(&point, key, above) {
        return None;
    }
    let (seq, what) = point.seq_and_what();
    match what {
        WhatRef::Put(value) if seq <= at => Some(value),
        _ => None,
    }
}

/// The sequence of the newest range deletion over the key at or below the sequence, among fragments that are there. For a key
/// before the first fragment or after the last it is a few comparisons, and otherwise a binary search.
fn newest_among(fragments: &[Fragment], key: &[u8], at: u64) -> Option<u64>
    requires order { AreInOrder fragments.now }
    requires falling { AllByRecursion (λ f. IsFalling f.seqs) fragments.now }
    ensures { result ≡
        slice_get
        (filter (λ seq. nat_le seq at)
        (flat_map (λ f. f.seqs) (filter (λ f. covers f key.now) fragments.now))) 0 }
{
    let near = fragments_near(fragments, fragments.len(), key);
    let fragment = covering_fragment(near, key)?;
    fragment.seqs().newest_at_or_below(at)
}

/// The sequence of the newest range deletion over the key at or below the sequence. Most runs have none, and ask nothing.
#[inline]
fn newest_over(fragments: &[Fragment], key: &[u8], at: u64) -> Option<u64>
    requires order { AreInOrder fragments.now }
    requires falling { AllByRecursion (λ f. IsFalling f.seqs) fragments.now }
    ensures { result ≡
        slice_get
        (filter (λ seq. nat_le seq at)
        (flat_map (λ f. f.seqs) (filter (λ f. covers f key.now) fragments.now))) 0 }
{
    if fragments.is_empty() {
        return None;
    }
    newest_among(fragments, key, at)
}

/// The effect before all points of a run: none, or that of a range deletion.
#[inline]
fn effect_before(newest: Option<u64>) -> Effect
    ensures { result ≡ before_points newest }
{
    match newest {
        None => Effect::Keep,
        Some(_) => Effect::Set(None),
    }
}

/// As [`effect_found`], whatever the first point is.
fn effect_searched<'a, O: Operator>(
    alloc: Global,
    points: &PointSlice<'a>,
    fragments: &[Fragment],
    key: &[u8],
    at: u64,
) -> Result<EffectRef<'a>, AllocError>
    requires sorted { IsStrictlySortedBy entry_cmp points.now }
    requires order { AreInOrder fragments.now }
    requires falling { AllByRecursion (λ f. IsFalling f.seqs) fragments.now }
    ensures { IfOk result (λ effect. effect ≡
        lookup.above_newest O.meaning (filter (lookup.is_visible key.now at) points.now)
        (filter (λ seq. nat_le seq at) (flat_map (λ f. f.seqs) (filter (λ f. covers f key.now) fragments.now)))) }
{
    let newest = newest_over(fragments, key, at);
    let on = without_newer(points, key, at);
    effect_above::<O>(alloc, effect_before(newest), &on, key, newest)
}

/// The effect that a lookup of the key at the sequence finds: that of the key's points at or below the sequence, above the newest
/// range deletion over it. That deletion is one of the fragments' sequences.
#[inline]
pub(crate) fn effect_found<'a, O: Operator>(
    alloc: Global,
    points: &PointSlice<'a>,
    fragments: &[Fragment],
    key: &[u8],
    at: u64,
) -> Result<EffectRef<'a>, AllocError>
    requires sorted { IsStrictlySortedBy entry_cmp points.now }
    requires order { AreInOrder fragments.now }
    requires falling { AllByRecursion (λ f. IsFalling f.seqs) fragments.now }
    ensures { IfOk result (λ effect. effect ≡
        lookup.above_newest O.meaning (filter (lookup.is_visible key.now at) points.now)
        (filter (λ seq. nat_le seq at) (flat_map (λ f. f.seqs) (filter (λ f. covers f key.now) fragments.now)))) }
{
    let newest = newest_over(fragments, key, at);
    // None is there where a filter doesn't admit the key.
    if points.is_empty() {
        return Ok(EffectRef::own(effect_before(newest)));
    }
    if let Some(value) = value_put(points, key, at, newest) {
        return Ok(EffectRef::put(value));
    }
    effect_searched::<O>(alloc, points, fragments, key, at)
}
