//! [`Walkers`]: a cursor in each of several runs; and [`Least`], their least key.
ghost use Rattle.std.specs.Prelude.{◌≡◌, ◌≢◌, ◌↔◌, ◌<◌, ℕ, Bool, List, Some, true, false, length, map, option_map, All, IfNone, IfOk, IfSome, IsTrue, OnErr};
ghost use Rattle.std.specs.List.{AllByRecursion, slice_get};
ghost use Rattle.uc_model.specs.Meaning.{effect_on, value_of};
ghost use Rattle.uc_run.specs.Cursors.{has_ranges};
ghost use Rattle.uc_run.specs.Heads.{next_key, number_of, lesser_of, IsLeast};
ghost use Rattle.uc_run.specs.NextKey.{IsNextKey};
ghost use Rattle.uc_compact.specs.Inputs.{points_of, writes_of};
ghost use Rattle.uc_version_state.specs.Versions.{contents_of};
ghost use Rattle.uc_query_read.specs.Answers as answers;
ghost use Rattle.uc_query_read.specs.Dead.{AreDead};
ghost use Rattle.uc_query_read.specs.Walks.{runs_of, newer_of, standing_at, passed, sought, StandsAt, IsOfRun, IsFound, IsFoundAmong, IsFoundBeside};

use crate::dead_keys::dead_up_to;
use crate::lookup::compose;
use crate::passing::{pass_all, pass_oldest, seek_all, take_all};
use std::alloc::{AllocError, Global};
use std::marker::Model;
use uc_bytes::Bytes;
use uc_model::{effect_gives_value, effects_of_parts_compose};
use uc_oper::{Effect, EffectRef, Operator, ValueRef};
use uc_run::{Cursor, Head, Heads, keys_at_places_are_next, other_keys_are_kept, text_order};
use uc_version_state::Placed;

/// The least of the next keys.
#[derive(Clone, Copy)]
pub(crate) struct Least<'a> {
    /// The key.
    pub(crate) key: &'a [u8],
    /// Its number among the newer runs' next keys, unless it is the oldest run's alone.
    number: Option<u64>,
}

/// A cursor in each of several runs, the newest first. A contract sees it as the list of them, beside the front by which
/// the newer ones' next keys have numbers.
///
/// The oldest run is mostly the largest by far: a row that it has alone costs no look at the others.
#[derive(Drop)]
pub(crate) struct Walkers<'a> {
    cursors: Vec<Cursor<'a>>,
    /// The next key of each but the oldest: a row touches only the cursors that are at its key.
    heads: Heads<'a>,
    /// The least of these keys.
    newer: Option<Head<'a>>,
    /// Whether no run has range deletions, which say something of other keys too.
    is_plain: bool,
}

impl<'a> Model for Walkers<'a> {
    ghost use Rattle.uc_query_read.specs.Walks.{Numbered};
    ghost use Rattle.uc_query_read.specs.HeldWalkers.{numbered, AreKnown};

    ghost Value = { Numbered };

    ghost view = { numbered };

    ghost invariant = { AreKnown };
}

/// A cursor for each run, before the points from `low` on.
fn cursors_from<'a>(
    alloc: Global,
    runs: &'a [Placed],
    low: &[u8],
) -> Result<Vec<Cursor<'a>>, AllocError>
    ensures cursors { IfOk result (λ cursors. cursors.items ≡ map (standing_at low.now false) (contents_of runs.now)) }
    ensures of_runs { IfOk result (λ cursors. AllByRecursion IsOfRun cursors.items) }
{
    let mut cursors = Vec::with_capacity(alloc, runs.len())?;
    for placed in runs {
        placed.run().recall();
        cursors.push(placed.run().cursor(low))?;
    }
    Ok(cursors)
}

/// All cursors but the oldest run's.
#[inline]
fn newer_of<'c, 'a>(cursors: &'c [Cursor<'a>]) -> &'c [Cursor<'a>]
    ensures { result.now ≡ newer_of cursors.now }
{
    &cursors[..cursors.len().saturating_sub(1)]
}

/// The lesser of the newer runs' least key and the oldest run's next one.
#[inline]
fn least_of<'a>(newer: Option<Head<'a>>, oldest: Option<&'a [u8]>) -> Option<Least<'a>>
    ensures key { option_map (λ l. l.key.now) result ≡
        lesser_of (option_map (λ h. h.key.now) newer.entry) (option_map (λ k. k.now) oldest.entry) }
    ensures number { IfSome result (λ l.
        IsFoundBeside (option_map (λ h. (h.key.now, h.number)) newer.entry) l.key.now l.number) }
{
    match (newer, oldest) {
        (Some(head), Some(key)) => {
            if text_order(key, head.key).is_lt() {
                Some(Least { key, number: None })
            } else {
                Some(Least {
                    key: head.key,
                    number: Some(head.number),
                })
            }
        }
        (Some(head), None) => Some(Least {
            key: head.key,
            number: Some(head.number),
        }),
        (None, Some(key)) => Some(Least { key, number: None }),
        (None, None) => None,
    }
}

/// Whether the least key is the next one of a newer run. It mostly costs a comparison of numbers.
#[inline]
fn is_there(heads: &Heads<'_>, place: usize, least: Least<'_>) -> bool
    requires within { place < length heads.now.keys }
    requires found { IsFoundAmong heads.now least.key.now least.number }
    ensures { IsTrue result ↔ (slice_get heads.now.keys place ≡ Some (Some least.entry.key.now)) }
{
    match least.number {
        Some(number) => heads.is_at(
            place,
            Head {
                key: least.key,
                number,
            },
        ),
        None => false,
    }
}

/// The effect of the writes of the newer cursors' runs at or below a sequence on the least key. The key's points must be
/// the first ahead. It stops at the first run that puts or deletes the key, since older writes are overwritten.
fn effect_of_newer<'a, O: Operator>(
    alloc: Global,
    cursors: &[Cursor<'a>],
    heads: &Heads<'_>,
    least: Least<'_>,
    at: u64,
) -> Result<EffectRef<'a>, AllocError>
    requires found { IsFoundAmong heads.now least.key.now least.number }
    requires stand { AllByRecursion (StandsAt least.key.now false) cursors.now }
    requires of_runs { AllByRecursion IsOfRun cursors.now }
    requires heads { heads.now.keys ≡ map next_key cursors.now }
    ensures { IfOk result (λ effect. effect ≡
        effect_on O.meaning (writes_of (runs_of cursors.now)) least.entry.key.now at) }
{
    effects_of_parts_compose::<O>();
    other_keys_are_kept::<O>();
    keys_at_places_are_next();
    let mut newer = Effect::Keep;
    for place in 0..cursors.len() {
        if is_there(heads, place, least) || cursors[place].has_ranges() {
            let older = cursors[place].effect_ref::<O>(alloc, least.key, at)?;
            let both = compose::<O>(alloc, older, newer)?;
            if both.is_set() {
                return Ok(both);
            }
            // It lends no value, so this copies nothing.
            newer = both.into_effect(alloc)?;
        }
    }
    Ok(EffectRef::own(newer))
}

/// The effect of the writes of all cursors' runs at or below a sequence on the least key. The key's points must be the
/// first ahead.
fn effect_of_all<'a, O: Operator>(
    alloc: Global,
    cursors: &[Cursor<'a>],
    heads: &Heads<'_>,
    least: Least<'_>,
    at: u64,
) -> Result<EffectRef<'a>, AllocError>
    requires found { IsFoundAmong heads.now least.key.now least.number }
    requires stand { AllByRecursion (StandsAt least.key.now false) cursors.now }
    requires of_runs { AllByRecursion IsOfRun cursors.now }
    requires heads { heads.now.keys ≡ map next_key (newer_of cursors.now) }
    ensures { IfOk result (λ effect. effect ≡
        effect_on O.meaning (writes_of (runs_of cursors.now)) least.entry.key.now at) }
{
    effects_of_parts_compose::<O>();
    let Some(oldest) = cursors.last() else {
        return Ok(EffectRef::own(Effect::Keep));
    };
    let newer = effect_of_newer::<O>(alloc, newer_of(cursors), heads, least, at)?;
    if newer.is_set() {
        return Ok(newer);
    }
    let older = oldest.effect_ref::<O>(alloc, least.key, at)?;
    compose::<O>(alloc, older, newer.into_effect(alloc)?)
}

/// Whether none of the cursors' runs has range deletions.
#[inline]
fn are_plain(cursors: &[Cursor<'_>]) -> bool
    ensures { IsTrue result → All (λ c. has_ranges c ≡ false) cursors.now }
{
    for cursor in cursors {
        if cursor.has_ranges() {
            return false;
        }
    }
    true
}

/// Whether a key is below `high`, if there is one.
#[inline]
pub(crate) fn is_below(key: &[u8], high: &Option<Bytes>) -> bool
    ensures { result ≡ answers.is_below key.now high.now }
{
    match high {
        None => true,
        Some(high) => text_order(key, high.as_slice()).is_lt(),
    }
}

/// Whether a key is below the least of the newer runs' next keys, if there is one.
#[inline]
fn is_before(key: &[u8], newer: Option<Head<'_>>) -> bool
    ensures { result ≡ answers.is_below key.now (option_map (λ head. head.key.now) newer.entry) }
{
    match newer {
        None => true,
        Some(head) => text_order(key, head.key).is_lt(),
    }
}

/// The next row, if it is below a bound, only the oldest run says something of its key, and that is one put at or below a sequence. Then
/// that run's cursor passes the key; otherwise none moves. No effects are composed, and each point is read once: so most rows of a large
/// run are found.
#[inline]
fn next_alone<'a, O: Operator>(
    cursors: &mut [Cursor<'a>],
    newer: Option<Head<'_>>,
    high: &Option<Bytes>,
    at: u64,
) -> Option<(&'a [u8], &'a [u8])>
    requires of_runs { AllByRecursion IsOfRun cursors.old }
    requires least { IsLeast (map next_key (newer_of cursors.old)) (option_map (λ head. head.key.now) newer) }
    requires plain { AllByRecursion (λ c. has_ranges c ≡ false) cursors.old }
    ensures next { IfSome result (λ row. (low : List ℕ) (strict : Bool) → AllByRecursion (StandsAt low strict) cursors.old →
        IsNextKey (points_of (runs_of cursors.old)) low strict (Some row.0.now)) }
    ensures below { IfSome result (λ row. answers.is_below row.0.now high.now ≡ true) }
    ensures value { IfSome result (λ row. AllByRecursion (StandsAt row.0.now false) cursors.old →
        value_of O.meaning (writes_of (runs_of cursors.old)) row.0.now at ≡ Some row.1.now) }
    ensures passes { IfSome result (λ row. AllByRecursion (StandsAt row.0.now false) cursors.old →
        cursors.new ≡ map (passed row.0.now) cursors.old) }
    ensures stays { IfNone result (cursors.new ≡ cursors.old) }
    ensures runs { runs_of cursors.new ≡ runs_of cursors.old }
    ensures newer { newer_of cursors.new ≡ newer_of cursors.old }
{
    effect_gives_value::<O>();
    effects_of_parts_compose::<O>();
    other_keys_are_kept::<O>();
    keys_at_places_are_next();
    let last = cursors.len().checked_sub(1)?;
    let key = cursors[last].key()?;
    if !is_below(key, high) {
        return None;
    }
    if !is_before(key, newer) {
        return None;
    }
    let value = cursors[last].next_put::<O>(at)?;
    Some((key, value))
}

impl<'a> Walkers<'a> {
    /// Before the points from `low` on of runs, the newest first. It costs a search in each.
    pub(crate) fn from(
        alloc: Global,
        runs: &'a [Placed],
        low: &[u8],
    ) -> Result<Walkers<'a>, AllocError>
        ensures { IfOk result (λ walkers. walkers.cursors ≡ map (standing_at low.now false) (contents_of runs.now)) }
    {
        let cursors = cursors_from(alloc, runs, low)?;
        let heads = Heads::of_cursors(alloc, newer_of(&cursors))?;
        let newer = heads.least();
        let is_plain = are_plain(&cursors);
        Ok(Walkers {
            cursors,
            heads,
            newer,
            is_plain,
        })
    }

    /// The least of their next keys. It costs a comparison of keys.
    pub(crate) fn least(&self) -> Option<Least<'a>>
        ensures next { (low : List ℕ) (strict : Bool) → AllByRecursion (StandsAt low strict) self.now.cursors →
            IsNextKey (points_of (runs_of self.now.cursors)) low strict (option_map (λ least. least.key.now) result) }
        ensures found { IfSome result (λ least. IsFound self.now least.key.now least.number) }
    {
        keys_at_places_are_next();
        let oldest = self.cursors.last()?;
        least_of(self.newer, oldest.key())
    }

    /// The value at a sequence of a key whose points are the first ahead. It costs a step for each of the key's points
    /// up to the last put or delete, and for each run a comparison of numbers. One that was put stays in its run.
    fn value<O: Operator>(
        &self,
        alloc: Global,
        least: Least<'_>,
        at: u64,
    ) -> Result<Option<ValueRef<'a>>, AllocError>
        requires found { IsFound self.now least.key.now least.number }
        requires stand { AllByRecursion (StandsAt least.key.now false) self.now.cursors }
        ensures { IfOk result (λ value.
            value ≡ value_of O.meaning (writes_of (runs_of self.now.cursors)) least.entry.key.now at) }
    {
        effect_gives_value::<O>();
        let effect = effect_of_all::<O>(alloc, &self.cursors, &self.heads, least, at)?;
        effect.apply::<O>(alloc, None)
    }

    /// The next row, if it is below a bound, only the oldest run says something of its key, that is one put at or below a sequence, and no
    /// run has range deletions. Then it moves past the key; otherwise it doesn't move.
    #[inline]
    pub(crate) fn next_alone<O: Operator>(
        &mut self,
        high: &Option<Bytes>,
        at: u64,
    ) -> Option<(&'a [u8], &'a [u8])>
        ensures next { IfSome result (λ row. (low : List ℕ) (strict : Bool) →
            AllByRecursion (StandsAt low strict) self.old.cursors →
            IsNextKey (points_of (runs_of self.old.cursors)) low strict (Some row.0.now)) }
        ensures below { IfSome result (λ row. answers.is_below row.0.now high.now ≡ true) }
        ensures value { IfSome result (λ row. AllByRecursion (StandsAt row.0.now false) self.old.cursors →
            value_of O.meaning (writes_of (runs_of self.old.cursors)) row.0.now at ≡ Some row.1.now) }
        ensures passes { IfSome result (λ row. AllByRecursion (StandsAt row.0.now false) self.old.cursors →
            self.new.cursors ≡ map (passed row.0.now) self.old.cursors) }
        ensures stays { IfNone result (self.new ≡ self.old) }
    {
        if !self.is_plain {
            return None;
        }
        next_alone::<O>(&mut self.cursors, self.newer, high, at)
    }

    /// The value of a key whose points are the first ahead, if the newest run that has the key is not the oldest, has one put of it at or
    /// below a sequence, and no run has range deletions. Then it moves past the key; otherwise it doesn't move.
    fn next_newest<O: Operator>(&mut self, least: Least<'_>, at: u64) -> Option<&'a [u8]>
        requires found { IsFound self.old least.key.now least.number }
        requires stand { AllByRecursion (StandsAt least.key.now false) self.old.cursors }
        ensures value { IfSome result (λ value.
            value_of O.meaning (writes_of (runs_of self.old.cursors)) least.entry.key.now at ≡ Some value.now) }
        ensures passes { IfSome result (λ value. self.new.cursors ≡ map (passed least.entry.key.now) self.old.cursors) }
        ensures stays { IfNone result (self.new ≡ self.old) }
    {
        if !self.is_plain {
            return None;
        }
        let Some(number) = least.number else {
            return None;
        };
        let head = Head {
            key: least.key,
            number,
        };
        let Some(value) = take_all::<O>(&mut self.cursors, &mut self.heads, head, at) else {
            return None;
        };
        self.newer = self.heads.least();
        Some(value)
    }

    /// Moves past the points at and below a key that are the first ahead.
    fn pass(&mut self, least: Least<'_>)
        requires found { IsFound self.old least.key.now least.number }
        requires stand { AllByRecursion (StandsAt least.key.now false) self.old.cursors }
        ensures { self.new.cursors ≡ map (passed least.entry.key.now) self.old.cursors }
    {
        match least.number {
            None => pass_oldest(&mut self.cursors, least.key),
            Some(number) => {
                let head = Head {
                    key: least.key,
                    number,
                };
                pass_all(&mut self.cursors, &mut self.heads, head);
                self.newer = self.heads.least();
            }
        }
    }

    /// The value at a sequence of a key whose points are the first ahead. It moves past the key, but stays if it returns an `Err`. One put of
    /// a newer run costs less than [`value`](Walkers::value) and [`pass`](Walkers::pass).
    pub(crate) fn take<O: Operator>(
        &mut self,
        alloc: Global,
        least: Least<'_>,
        at: u64,
    ) -> Result<Option<ValueRef<'a>>, AllocError>
        requires found { IsFound self.old least.key.now least.number }
        requires stand { AllByRecursion (StandsAt least.key.now false) self.old.cursors }
        ensures value { IfOk result (λ value.
            value ≡ value_of O.meaning (writes_of (runs_of self.old.cursors)) least.entry.key.now at) }
        ensures passes { IfOk result (λ value. self.new.cursors ≡ map (passed least.entry.key.now) self.old.cursors) }
        ensures stays { OnErr result (self.new ≡ self.old) }
    {
        if let Some(value) = self.next_newest::<O>(least, at) {
            return Ok(Some(ValueRef::lent(value)));
        }
        let value = self.value::<O>(alloc, least, at)?;
        self.pass(least);
        Ok(value)
    }

    /// Moves past the points below a key.
    pub(crate) fn seek(&mut self, low: &[u8])
        ensures { self.new.cursors ≡ map (sought low.now) self.old.cursors }
    {
        seek_all(&mut self.cursors, &mut self.heads, low);
        self.newer = self.heads.least();
    }

    /// If a run hides a passed key, a bound above it; no key between them has a value.
    pub(crate) fn dead_up_to<O: Operator>(&self, key: &[u8], at: u64) -> Option<&'a [u8]>
        requires { AllByRecursion (StandsAt key.now true) self.now.cursors }
        ensures { IfSome result (λ bound.
            AreDead O.meaning (writes_of (runs_of self.now.cursors)) at key.now bound.now) }
    {
        dead_up_to::<O>(&self.cursors, key, at)
    }
}
