//! The effect of the shown writes on a key.
ghost use Rattle.std.specs.Prelude.{◌≡◌, ◌≤◌, ℕ, [], length, map, take, IfOk, IfSome};
ghost use Rattle.std.specs.Option.{option_map};
ghost use Rattle.uc_oper.specs.Operation.{Operation};
ghost use Rattle.uc_oper.specs.Composition.{composed};
ghost use Rattle.uc_model.specs.Meaning as meaning;
ghost use Rattle.uc_model.specs.Meaning.{effect_on};
ghost use Rattle.uc_run.specs.KeyHash.{key_hash};
ghost use Rattle.uc_memtable.specs.Labels.{write_label, deletes_range};
ghost use Rattle.uc_memtable.specs.Sights.{bearing_of, seen_passes, seen_by, then_seen, effect_below, effect_over, effect_before};

use crate::chains::Chains;
use crate::label::{RANGE_LABEL, is_range};
use crate::sight::{Bearing, Sight};
use std::alloc::{AllocError, Global};
use uc_bytes::{Bytes, OpKind, WriteRef};
use uc_oper::{Effect, EffectRef, Operator};

/// The end of the newest range deletion that the lookup sees, or 0 if it sees none. It walks over the range deletions, the
/// newest first.
fn newest_range(sight: &Sight<'_, '_>, chains: &Chains) -> usize
    requires { chains.now ≡ map write_label sight.now.writes.now }
    ensures within { result ≤ length sight.now.writes.now }
    ensures above { (place : ℕ) → result ≤ place →
        IfSome (seen_by sight.now place) (λ w. write_label w ≡ key_hash sight.now.key.now) }
    ensures alone { (m : Operation) →
        effect_below m (seen_by sight.now) result ≡ effect_before (seen_by sight.now) result }
{
    let mut end = chains.newest(RANGE_LABEL);
    while end > 0 {
        if is_range_seen(sight, end - 1) {
            return end;
        }
        end = chains.next_older(end - 1);
    }
    0
}

/// Whether the write at a place is a range deletion that the lookup sees.
fn is_range_seen(sight: &Sight<'_, '_>, place: usize) -> bool
    ensures { result ≡ seen_passes deletes_range (seen_by sight.now place) }
{
    match sight.seen(place) {
        Some(write) => is_range(write.op()),
        None => false,
    }
}

/// Walks over the writes of the key that the lookup sees, the newest first, down to the newest put or deletion, or to the
/// floor, below which the newest range deletion over the key is. It gives the end of the place where it stops, and notes
/// the places of the merges above it. An `Err` may note some of them.
fn walk_to_start(
    sight: &Sight<'_, '_>,
    chains: &Chains,
    floor: usize,
    merges: &mut Vec<usize>,
) -> Result<usize, AllocError>
    requires labelled { chains.now ≡ map write_label sight.now.writes.now }
    requires within { floor ≤ length sight.now.writes.now }
    requires above { (place : ℕ) → floor ≤ place →
        IfSome (seen_by sight.now place) (λ w. write_label w ≡ key_hash sight.now.key.now) }
    requires alone { (m : Operation) →
        effect_below m (seen_by sight.now) floor ≡ effect_before (seen_by sight.now) floor }
    requires none { merges.old.items ≡ [] }
    ensures { IfOk result (λ start. (m : Operation) →
        effect_below m (seen_by sight.now) (length sight.now.writes.now) ≡
        effect_over m (seen_by sight.now) (effect_before (seen_by sight.now) start) merges.new.items) }
{
    let mut end = chains.newest(sight.key.hash());
    while floor < end {
        match seen_bearing(sight, end - 1) {
            Some(Bearing::Merges) => merges.push(end - 1)?,
            Some(Bearing::Overwrites) => return Ok(end),
            None => {}
        }
        end = chains.next_older(end - 1);
    }
    Ok(floor)
}

/// The bearing of the write at a place, if the lookup sees it.
fn seen_bearing(sight: &Sight<'_, '_>, place: usize) -> Option<Bearing>
    ensures { result ≡ option_map (λ w. bearing_of w.op) (seen_by sight.now place) }
{
    let write = sight.seen(place)?;
    let (kind, _, _) = write.op().parts();
    Some(match kind {
        OpKind::Merge => Bearing::Merges,
        OpKind::Put | OpKind::Delete | OpKind::DeleteRange => Bearing::Overwrites,
    })
}

/// An effect, and then that of a write.
fn then_write<O: Operator>(
    alloc: Global,
    effect: Effect,
    write: &WriteRef<'_>,
) -> Result<Effect, AllocError>
    ensures { IfOk result (λ both. both ≡ composed O.meaning effect (meaning.effect_of write.now.op)) }
{
    let (kind, _, second) = write.op().parts();
    match kind {
        OpKind::Put => Ok(Effect::Set(Some(Bytes::from_slice(alloc, second)?))),
        OpKind::Delete | OpKind::DeleteRange => Ok(Effect::Set(None)),
        OpKind::Merge => effect.folded::<O>(alloc, second),
    }
}

/// An effect, and then that of the write at a place, if the lookup sees it.
fn then_place<O: Operator>(
    alloc: Global,
    effect: Effect,
    sight: &Sight<'_, '_>,
    place: usize,
) -> Result<Effect, AllocError>
    ensures { IfOk result (λ both. both ≡ then_seen O.meaning effect (seen_by sight.now place)) }
{
    match sight.seen(place) {
        Some(write) => then_write::<O>(alloc, effect, &write),
        None => Ok(effect),
    }
}

/// The effect of a write alone. A value that it puts stays where it is.
fn effect_alone<'a>(alloc: Global, write: &WriteRef<'a>) -> Result<EffectRef<'a>, AllocError>
    ensures { IfOk result (λ effect. effect ≡ meaning.effect_of write.now.op) }
{
    let (kind, _, second) = write.op().parts();
    match kind {
        OpKind::Put => Ok(EffectRef::put(second)),
        OpKind::Delete | OpKind::DeleteRange => Ok(EffectRef::own(Effect::Set(None))),
        OpKind::Merge => {
            let operand = Bytes::from_slice(alloc, second)?;
            Ok(EffectRef::own(Effect::Fold(operand)))
        }
    }
}

/// The effect of the place before an end alone.
fn effect_at_start<'a>(
    alloc: Global,
    sight: &Sight<'a, '_>,
    start: usize,
) -> Result<EffectRef<'a>, AllocError>
    ensures { IfOk result (λ effect. effect ≡ effect_before (seen_by sight.now) start) }
{
    if start == 0 {
        return Ok(EffectRef::own(Effect::Keep));
    }
    match sight.seen(start - 1) {
        Some(write) => effect_alone(alloc, &write),
        None => Ok(EffectRef::own(Effect::Keep)),
    }
}

/// An effect, and then those of places, the newest first. It composes them from the oldest on, so it costs the length of
/// what comes out.
fn then_places<O: Operator>(
    alloc: Global,
    before: Effect,
    sight: &Sight<'_, '_>,
    places: &[usize],
) -> Result<Effect, AllocError>
    ensures { IfOk result (λ effect. effect ≡ effect_over O.meaning (seen_by sight.now) before places.now) }
{
    let mut effect = before;
    for i in (0..places.len()).rev() {
        effect = then_place::<O>(alloc, effect, sight, places[i])?;
    }
    Ok(effect)
}

/// An effect, and then those of places of merges, the newest first. With no merges it costs nothing.
fn after_merges<'a, O: Operator>(
    alloc: Global,
    first: EffectRef<'a>,
    sight: &Sight<'_, '_>,
    merges: &[usize],
) -> Result<EffectRef<'a>, AllocError>
    ensures { IfOk result (λ effect. effect ≡ effect_over O.meaning (seen_by sight.now) first.entry merges.now) }
{
    if merges.is_empty() {
        return Ok(first);
    }
    let before = first.into_effect(alloc)?;
    let effect = then_places::<O>(alloc, before, sight, merges)?;
    Ok(EffectRef::own(effect))
}

/// The effect of the writes that the lookup may see on its key. A value that is put, and that nothing is merged into, stays where it
/// is.
pub(crate) fn effect_seen<'a, O: Operator>(
    alloc: Global,
    sight: &Sight<'a, '_>,
    chains: &Chains,
) -> Result<EffectRef<'a>, AllocError>
    requires { chains.now ≡ map write_label sight.now.writes.now }
    ensures { IfOk result (λ effect. effect ≡
        effect_on O.meaning (take sight.now.shown sight.now.writes.now) sight.now.key.now sight.now.at) }
{
    let floor = newest_range(sight, chains);
    let mut merges = Vec::new(alloc);
    let start = walk_to_start(sight, chains, floor, &mut merges)?;
    let first = effect_at_start(alloc, sight, start)?;
    after_merges::<O>(alloc, first, sight, &merges)
}
