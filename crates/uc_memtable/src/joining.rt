//! Frozen memtables one by one: how they are shared, put together, and looked into.
ghost use Rattle.std.specs.Prelude.{◌≡◌, ◌≢◌, ◌<◌, ◌≤◌, ◌++◌, ◌∷◌, [], IfOk, IfErr, OnOk, length};
ghost use Rattle.uc_batch.specs.Rising.{IsRising};
ghost use Rattle.uc_model.specs.Meaning.{effect_on};
ghost use Rattle.uc_oper.specs.Composition.{composed};
ghost use Rattle.uc_run.specs.Flush.{flushed};
ghost use Rattle.uc_memtable.specs.Frozen.{all_of};

use crate::active_memtable::ActiveMemtable;
use crate::frozen_memtable::FrozenMemtable;
use std::alloc::{AllocError, Global};
use uc_model::effects_of_parts_compose;
use uc_oper::{EffectRef, Operator, then_is_associative};
use uc_run::{Run, SoughtKey};

/// Freezes a memtable, after the others. An `Err` hands it back, and changes nothing.
pub(crate) fn push_frozen(
    alloc: Global,
    memtables: &mut Vec<FrozenMemtable>,
    memtable: ActiveMemtable,
) -> Result<(), ActiveMemtable>
    ensures ok { OnOk result (memtables.new.items ≡ memtables.old.items ++ memtable.shown ∷ []) }
    ensures err { IfErr result (λ back. (back ≡ memtable) × (memtables.new.items ≡ memtables.old.items)) }
{
    if memtables.reserve(1).is_err() {
        return Err(memtable);
    }
    let frozen = FrozenMemtable::new(alloc, memtable)?;
    match memtables.push(frozen) {
        Ok(()) => Ok(()),
        Err(_) => unreachable!(),
    }
}

/// Pushes memtables, shared, after those that are there.
pub(crate) fn push_shared(
    all: &mut Vec<FrozenMemtable>,
    memtables: &[FrozenMemtable],
) -> Result<(), AllocError>
    ensures { OnOk result (all.new.items ≡ all.old.items ++ memtables.now) }
{
    for memtable in memtables {
        all.push(memtable.shared()?)?;
    }
    Ok(())
}

/// One memtable of copies of all writes that these show.
pub(crate) fn copy_of(
    alloc: Global,
    memtables: &[FrozenMemtable],
) -> Result<ActiveMemtable, AllocError>
    requires { IsRising 0 (all_of memtables.now) }
    ensures { IfOk result (λ one. one ≡ record { shown = all_of memtables.now; waiting = [] }) }
{
    let mut one = ActiveMemtable::new(alloc);
    for memtable in memtables {
        one.take_shown(memtable.memtable())?;
    }
    Ok(one)
}

/// The run of all writes that memtables show. If there are several, it costs a copy of all.
pub(crate) fn run_of_all(alloc: Global, memtables: &[FrozenMemtable]) -> Result<Run, AllocError>
    requires some { all_of memtables.now ≢ [] }
    requires rising { IsRising 0 (all_of memtables.now) }
    ensures { IfOk result (λ run. run ≡ flushed (all_of memtables.now)) }
{
    match memtables {
        [one] => one.memtable().to_run(alloc),
        _ => copy_of(alloc, memtables)?.to_run(alloc),
    }
}

/// From which place on memtables are put together: the one before it has more than twice the bytes of all from there
/// on.
fn small_from(memtables: &[FrozenMemtable]) -> usize
    ensures { result ≤ length memtables.now }
{
    let [older @ .., newest] = memtables else {
        return 0;
    };
    let mut behind = newest.memtable().size();
    for place in (0..older.len()).rev() {
        let size = older[place].memtable().size();
        if size > behind.saturating_mul(2) {
            return place + 1;
        }
        behind = behind.saturating_add(size);
    }
    0
}

/// Puts all memtables from a place on together. An `Err` leaves them apart.
fn join_from(
    alloc: Global,
    memtables: &mut Vec<FrozenMemtable>,
    place: usize,
) -> Result<(), AllocError>
    requires within { place < length memtables.old.items }
    requires rising { IsRising 0 (all_of memtables.old.items) }
    ensures { all_of memtables.new.items ≡ all_of memtables.old.items }
{
    let all = copy_of(alloc, &memtables[place..])?;
    let Ok(all) = FrozenMemtable::new(alloc, all) else {
        return Err(AllocError);
    };
    memtables[place] = all;
    memtables.truncate(place + 1);
    Ok(())
}

/// Puts the newest ones together, so that each has more than twice the bytes of the next one. An `Err` leaves them
/// apart.
pub(crate) fn join_small(
    alloc: Global,
    memtables: &mut Vec<FrozenMemtable>,
) -> Result<(), AllocError>
    requires { IsRising 0 (all_of memtables.old.items) }
    ensures { all_of memtables.new.items ≡ all_of memtables.old.items }
{
    let place = small_from(memtables);
    if place + 1 < memtables.len() {
        join_from(alloc, memtables, place)?;
    }
    Ok(())
}

/// The effect of memtables on a key at a sequence, and then of a newer effect. It stops at the newest that sets the key.
pub(crate) fn effect_before<'a, O: Operator>(
    alloc: Global,
    memtables: &'a [FrozenMemtable],
    key: &SoughtKey<'_>,
    at: u64,
    newer: EffectRef<'a>,
) -> Result<EffectRef<'a>, AllocError>
    ensures { IfOk result (λ effect. effect ≡
        composed O.meaning (effect_on O.meaning (all_of memtables.now) key.now at) newer.entry) }
{
    effects_of_parts_compose::<O>();
    then_is_associative::<O>();
    let mut effect = newer;
    for place in (0..memtables.len()).rev() {
        if effect.is_set() {
            return Ok(effect);
        }
        // It borrows no value, so this copies nothing.
        let newer = effect.into_effect(alloc)?;
        let older = memtables[place]
            .memtable()
            .effect_of_sought::<O>(alloc, key, at)?;
        effect = older.then::<O>(alloc, newer)?;
    }
    Ok(effect)
}
