//! [`BackWalk`]: a walk over the points of several runs against the order of their keys.
ghost use Rattle.std.specs.Prelude.{◌≡◌, ◌<◌, ◌↔◌, ℕ, length, true, false, All, List, Option, Some, map, option_map, if◌then◌else◌, IfNone, IfOk, IfSome, IsTrue};
ghost use Rattle.std.specs.List.{AllByRecursion, AllWithin, HoldsAt};
ghost use Rattle.uc_model.specs.Meaning.{effect_on, value_of};
ghost use Rattle.uc_run_entry.specs.Seek.{is_passed};
ghost use Rattle.uc_run.specs.BackCursors.{IsPreviousKey};
ghost use Rattle.uc_run.specs.Cursors.{has_ranges};
ghost use Rattle.uc_compact.specs.Inputs.{points_of, writes_of};
ghost use Rattle.uc_version_state.specs.Versions.{contents_of};
ghost use Rattle.uc_query_read.specs.Ahead.{Comes};
ghost use Rattle.uc_query_read.specs.Back.{IsAtBefore, IsOtherBefore, back_walk_at, bound_at, greater_of, is_above_other, passed_back, standing_below, StandsBelow};
ghost use Rattle.uc_query_read.specs.Walks.{runs_of, IsOfRun, Skips};

use crate::dead_below::dead_from;
use crate::lookup::compose;
use std::alloc::{AllocError, Global};
use std::marker::Model;
use uc_bytes::Bytes;
use uc_model::{effect_gives_value, effects_of_parts_compose};
use uc_oper::{Effect, EffectRef, Operator, ValueRef};
use uc_run::{BackCursor, keys_at_places_are_next, other_keys_are_kept, text_order};
use uc_version_state::Placed;

/// The place of a walk over the points of runs against the order of their keys. A contract sees it as the runs' contents, the newest
/// first, and the keys of their points that are still ahead, the greatest first: each once, at or above a bound, and below another if
/// there is one.
#[derive(Drop)]
pub(crate) struct BackWalk<'a> {
    /// One in each run, the newest first, after the points that are ahead.
    cursors: Vec<BackCursor<'a>>,
    low: &'a [u8],
    /// The points below this key are ahead, or all if there is none.
    high: Option<&'a [u8]>,
    /// Whether those at that key are ahead too.
    is_included: bool,
    /// Whether no run has range deletions.
    is_plain: bool,
}

impl<'a> Model for BackWalk<'a> {
    ghost use Rattle.uc_query_read.specs.Walks.{Walk};
    ghost use Rattle.uc_query_read.specs.HeldBackWalks.{walk, AreThere};

    ghost Value = { Walk };

    ghost view = { walk };

    ghost invariant = { AreThere };
}

/// The greater of two keys, if there are two; else the one there is.
#[inline]
fn greater<'a>(key: Option<&'a [u8]>, other: Option<&'a [u8]>) -> Option<&'a [u8]>
    ensures { option_map (λ k. k.now) result ≡
        greater_of (option_map (λ k. k.now) key.entry) (option_map (λ k. k.now) other.entry) }
{
    match (key, other) {
        (Some(key), Some(other)) => {
            if text_order(key, other).is_lt() {
                Some(other)
            } else {
                Some(key)
            }
        }
        (Some(key), None) => Some(key),
        (None, other) => other,
    }
}

/// A cursor for each run, after the points below `high`.
fn cursors_below<'a>(
    alloc: Global,
    runs: &'a [Placed],
    high: &Option<Bytes>,
) -> Result<Vec<BackCursor<'a>>, AllocError>
    ensures cursors { IfOk result (λ cursors. cursors.items ≡ map (standing_below high.now) (contents_of runs.now)) }
    ensures of_runs { IfOk result (λ cursors. AllByRecursion IsOfRun cursors.items) }
{
    let mut cursors = Vec::with_capacity(alloc, runs.len())?;
    for placed in runs {
        placed.run().recall();
        cursors.push(placed.run().back_cursor(high))?;
    }
    Ok(cursors)
}

/// The greatest of the keys before the cursors. It costs a comparison for each.
pub(crate) fn greatest_key<'a>(cursors: &[BackCursor<'a>]) -> Option<&'a [u8]>
    ensures { (high : Option (List ℕ)) → AllByRecursion (StandsBelow high) cursors.now →
        IsPreviousKey (points_of (runs_of cursors.now)) high (option_map (λ k. k.now) result) }
{
    let mut greatest = None;
    for cursor in cursors {
        greatest = greater(greatest, cursor.key());
    }
    greatest
}

/// Moves each cursor back to before the points at and above a key.
fn pass_each(cursors: &mut [BackCursor<'_>], key: &[u8])
    ensures { cursors.new ≡ map (passed_back key.now) cursors.old }
{
    for place in 0..cursors.len() {
        cursors[place].pass(key);
    }
}

/// Moves each cursor back to before the points at and above a key, or above it if that is included. It moves none if allocation
/// fails, and returns whether it moved them.
fn pass_all(alloc: Global, cursors: &mut [BackCursor<'_>], bound: &[u8], is_included: bool) -> bool
    ensures { cursors.new ≡ (if result then map (passed_back (bound_at bound.now is_included)) cursors.old else cursors.old) }
{
    if !is_included {
        pass_each(cursors, bound);
        return true;
    }
    let Ok(after) = key_after(alloc, bound) else {
        return false;
    };
    pass_each(cursors, after.as_slice());
    true
}

/// The least key above a key.
fn key_after(alloc: Global, key: &[u8]) -> Result<Bytes, AllocError>
    ensures { IfOk result (λ after. after ≡ bound_at key.now true) }
{
    let mut after = Vec::with_capacity(alloc, key.len().saturating_add(1))?;
    after.extend_from_slice(key)?;
    after.push(0)?;
    Ok(Bytes::from(after))
}

/// The effect of the writes of the cursors' runs at or below a sequence on a key, before whose points all stand. It stops at the first
/// run that puts or deletes the key, since older writes are overwritten.
fn effect_of_each<'a, O: Operator>(
    alloc: Global,
    cursors: &[BackCursor<'a>],
    key: &[u8],
    at: u64,
) -> Result<EffectRef<'a>, AllocError>
    requires { AllByRecursion (StandsBelow (Some key.now)) cursors.now }
    ensures { IfOk result (λ effect. effect ≡ effect_on O.meaning (writes_of (runs_of cursors.now)) key.now at) }
{
    effects_of_parts_compose::<O>();
    let mut newer = Effect::Keep;
    for cursor in cursors {
        let older = cursor.effect_ref::<O>(alloc, key, at)?;
        let both = compose::<O>(alloc, older, newer)?;
        if both.is_set() {
            return Ok(both);
        }
        // It borrows no value, so this copies nothing.
        newer = both.into_effect(alloc)?;
    }
    Ok(EffectRef::own(newer))
}

/// The value that the runs of cursors give a key at a sequence, if it has one. All stand before the key's points.
fn value_of_each<'a, O: Operator>(
    alloc: Global,
    cursors: &[BackCursor<'a>],
    key: &[u8],
    at: u64,
) -> Result<Option<ValueRef<'a>>, AllocError>
    requires { AllByRecursion (StandsBelow (Some key.now)) cursors.now }
    ensures { IfOk result (λ value. value ≡ value_of O.meaning (writes_of (runs_of cursors.now)) key.now at) }
{
    effect_gives_value::<O>();
    effect_of_each::<O>(alloc, cursors, key, at)?.apply::<O>(alloc, None)
}

/// Whether none of the cursors' runs has range deletions.
fn are_plain(cursors: &[BackCursor<'_>]) -> bool
    ensures { IsTrue result → All (λ c. has_ranges c ≡ false) cursors.now }
{
    for cursor in cursors {
        if cursor.has_ranges() {
            return false;
        }
    }
    true
}

/// Whether a key is above another, if there is one.
#[inline]
fn is_above(key: &[u8], other: Option<&[u8]>) -> bool
    ensures { result ≡ is_above_other key.now (option_map (λ k. k.now) other.entry) }
{
    match other {
        None => true,
        Some(other) => text_order(other, key).is_lt(),
    }
}

/// The last row, if it is at or above a bound, only the oldest run says something of its key, and that is one put at or below a sequence.
/// Then that run's cursor passes the key; otherwise none moves. No effects are composed, and each point is read once.
fn prev_alone<'a, O: Operator>(
    cursors: &mut [BackCursor<'a>],
    low: &[u8],
    at: u64,
) -> Option<(&'a [u8], &'a [u8])>
    requires of_runs { AllByRecursion IsOfRun cursors.old }
    requires plain { AllByRecursion (λ c. has_ranges c ≡ false) cursors.old }
    ensures last { IfSome result (λ row. (high : Option (List ℕ)) → AllByRecursion (StandsBelow high) cursors.old →
        IsPreviousKey (points_of (runs_of cursors.old)) high (Some row.0.now)) }
    ensures from { IfSome result (λ row. is_passed low.now false row.0.now ≡ false) }
    ensures value { IfSome result (λ row. (high : Option (List ℕ)) → AllByRecursion (StandsBelow high) cursors.old →
        value_of O.meaning (writes_of (runs_of cursors.old)) row.0.now at ≡ Some row.1.now) }
    ensures passes { IfSome result (λ row. (high : Option (List ℕ)) → AllByRecursion (StandsBelow high) cursors.old →
        cursors.new ≡ map (passed_back row.0.now) cursors.old) }
    ensures stays { IfNone result (cursors.new ≡ cursors.old) }
    ensures runs { runs_of cursors.new ≡ runs_of cursors.old }
{
    effect_gives_value::<O>();
    effects_of_parts_compose::<O>();
    other_keys_are_kept::<O>();
    keys_at_places_are_next();
    let last = cursors.len().checked_sub(1)?;
    let key = cursors[last].key()?;
    if text_order(key, low).is_lt() {
        return None;
    }
    let newer = greatest_key(&cursors[..last]);
    if !is_above(key, newer) {
        return None;
    }
    let value = cursors[last].prev_put::<O>(at)?;
    Some((key, value))
}

/// Whether a key, if there is one, is this one.
#[inline]
fn is_key(other: Option<&[u8]>, key: &[u8]) -> bool
    ensures { IsTrue result ↔ (option_map (λ k. k.now) other.entry ≡ Some key.now) }
{
    match other {
        Some(other) => other == key,
        None => false,
    }
}

/// The place of the newest of the cursors that has a key as its last, if there is one.
fn newest_at(cursors: &[BackCursor<'_>], key: &[u8]) -> Option<usize>
    ensures within { IfSome result (λ place. place < length cursors.now) }
    ensures there { IfSome result (λ place. HoldsAt (IsAtBefore key.now) cursors.now place) }
    ensures before { IfSome result (λ place. AllWithin (IsOtherBefore key.now) cursors.now 0 place) }
{
    for place in 0..cursors.len() {
        if is_key(cursors[place].key(), key) {
            return Some(place);
        }
    }
    None
}

/// As [`prev_alone`], where several runs have points of the last key: the row is a put of the newest of them. What the older ones say of the
/// key is overwritten.
fn prev_newest<'a, O: Operator>(
    cursors: &mut [BackCursor<'a>],
    low: &[u8],
    at: u64,
) -> Option<(&'a [u8], &'a [u8])>
    requires of_runs { AllByRecursion IsOfRun cursors.old }
    requires plain { AllByRecursion (λ c. has_ranges c ≡ false) cursors.old }
    ensures last { IfSome result (λ row. (high : Option (List ℕ)) → AllByRecursion (StandsBelow high) cursors.old →
        IsPreviousKey (points_of (runs_of cursors.old)) high (Some row.0.now)) }
    ensures from { IfSome result (λ row. is_passed low.now false row.0.now ≡ false) }
    ensures value { IfSome result (λ row. (high : Option (List ℕ)) → AllByRecursion (StandsBelow high) cursors.old →
        value_of O.meaning (writes_of (runs_of cursors.old)) row.0.now at ≡ Some row.1.now) }
    ensures passes { IfSome result (λ row. (high : Option (List ℕ)) → AllByRecursion (StandsBelow high) cursors.old →
        cursors.new ≡ map (passed_back row.0.now) cursors.old) }
    ensures stays { IfNone result (cursors.new ≡ cursors.old) }
    ensures runs { runs_of cursors.new ≡ runs_of cursors.old }
{
    effect_gives_value::<O>();
    effects_of_parts_compose::<O>();
    other_keys_are_kept::<O>();
    keys_at_places_are_next();
    let key = greatest_key(cursors)?;
    if text_order(key, low).is_lt() {
        return None;
    }
    let place = newest_at(cursors, key)?;
    let value = cursors[place].prev_put::<O>(at)?;
    pass_each(cursors, key);
    Some((key, value))
}

/// The last row by [`prev_alone`], or else by [`prev_newest`].
fn prev_lone<'a, O: Operator>(
    cursors: &mut [BackCursor<'a>],
    low: &[u8],
    at: u64,
) -> Option<(&'a [u8], &'a [u8])>
    requires of_runs { AllByRecursion IsOfRun cursors.old }
    requires plain { AllByRecursion (λ c. has_ranges c ≡ false) cursors.old }
    ensures last { IfSome result (λ row. (high : Option (List ℕ)) → AllByRecursion (StandsBelow high) cursors.old →
        IsPreviousKey (points_of (runs_of cursors.old)) high (Some row.0.now)) }
    ensures from { IfSome result (λ row. is_passed low.now false row.0.now ≡ false) }
    ensures value { IfSome result (λ row. (high : Option (List ℕ)) → AllByRecursion (StandsBelow high) cursors.old →
        value_of O.meaning (writes_of (runs_of cursors.old)) row.0.now at ≡ Some row.1.now) }
    ensures passes { IfSome result (λ row. (high : Option (List ℕ)) → AllByRecursion (StandsBelow high) cursors.old →
        cursors.new ≡ map (passed_back row.0.now) cursors.old) }
    ensures stays { IfNone result (cursors.new ≡ cursors.old) }
    ensures runs { runs_of cursors.new ≡ runs_of cursors.old }
{
    if let Some(row) = prev_alone::<O>(cursors, low, at) {
        return Some(row);
    }
    if cursors.len() < 2 {
        return None;
    }
    prev_newest::<O>(cursors, low, at)
}

/// A bound as a slice.
#[inline]
fn bound_of(high: &Option<Bytes>) -> Option<&[u8]>
    ensures { option_map (λ key. key.now) result ≡ high.now }
{
    match high {
        None => None,
        Some(high) => Some(high.as_slice()),
    }
}

impl<'a> BackWalk<'a> {
    /// After the keys of the runs' points from `low` on, and below `high` if there is one. It costs a search in each run.
    pub(crate) fn from(
        alloc: Global,
        runs: &'a [Placed],
        low: &'a [u8],
        high: &'a Option<Bytes>,
    ) -> Result<BackWalk<'a>, AllocError>
        ensures { IfOk result (λ walk. walk ≡ back_walk_at low.now high.now (contents_of runs.now)) }
    {
        let cursors = cursors_below(alloc, runs, high)?;
        let is_plain = are_plain(&cursors);
        Ok(BackWalk {
            cursors,
            low,
            high: bound_of(high),
            is_included: false,
            is_plain,
        })
    }

    /// The greatest of the keys that are ahead, with its value at a sequence number, if that is one put of the newest run that has the key,
    /// and no run has range deletions. Then it passes the key; otherwise it stays where it is, and [`next`](BackWalk::next) says what comes.
    pub(crate) fn next_alone<O: Operator>(&mut self, at: u64) -> Option<(&'a [u8], &'a [u8])>
        ensures comes { IfSome result (λ row. Comes self.old.keys (Some row.0.now) self.new.keys) }
        ensures value { IfSome result (λ row. value_of O.meaning (writes_of self.old.runs) row.0.now at ≡ Some row.1.now) }
        ensures stays { IfNone result (self.new ≡ self.old) }
        ensures runs { self.new.runs ≡ self.old.runs }
    {
        if !self.is_plain {
            return None;
        }
        let Some((key, value)) = prev_lone::<O>(&mut self.cursors, self.low, at) else {
            return None;
        };
        self.high = Some(key);
        self.is_included = false;
        Some((key, value))
    }

    /// The greatest of the keys that are ahead, with its value at a sequence number, if it has one. It passes the key, even if it
    /// returns an `Err`. It costs a step for each run, and for each of the key's points up to the last put or delete.
    pub(crate) fn next<O: Operator>(
        &mut self,
        alloc: Global,
        at: u64,
    ) -> Result<Option<(&'a [u8], Option<ValueRef<'a>>)>, AllocError>
        ensures comes { IfOk result (λ row. Comes self.old.keys (option_map (λ r. r.0.now) row) self.new.keys) }
        ensures value { IfOk result (λ row.
            IfSome row (λ r. r.1 ≡ value_of O.meaning (writes_of self.old.runs) r.0.now at)) }
        ensures runs { self.new.runs ≡ self.old.runs }
    {
        let Some(key) = greatest_key(&self.cursors) else {
            return Ok(None);
        };
        if text_order(key, self.low).is_lt() {
            return Ok(None);
        }
        pass_each(&mut self.cursors, key);
        self.high = Some(key);
        self.is_included = false;
        let value = value_of_each::<O>(alloc, &self.cursors, key, at)?;
        Ok(Some((key, value)))
    }

    /// Passes keys without a value at a sequence number: those before the last passed key, as far as a run's range deletion hides
    /// it and neither that run nor a newer one has a point. It does nothing if no run hides that key, or if allocation fails. It
    /// costs a step for each run, and a search for those whose points are passed.
    pub(crate) fn skip_dead<O: Operator>(&mut self, alloc: Global, at: u64)
        ensures { Skips O.meaning at self.old self.new }
    {
        if self.is_included {
            return;
        }
        let Some(key) = self.high else {
            return;
        };
        let Some((bound, is_included)) = dead_from::<O>(&self.cursors, key, at) else {
            return;
        };
        if !pass_all(alloc, &mut self.cursors, bound, is_included) {
            return;
        }
        self.high = Some(bound);
        self.is_included = is_included;
    }
}
