//! [`BackCursor`]: a walk over a run's points against the order of key.
ghost use Rattle.std.specs.Prelude.{◌≡◌, ◌≤◌, ◌-◌, ℕ, List, Option, Some, true, false, length, min, option_map, IfNone, IfOk, IfSome};
ghost use Rattle.std.specs.List.Sorted.{IsStrictlySortedBy};
ghost use Rattle.uc_oper.specs.declared.effect.Effect.TheVariants.{Set};
ghost use Rattle.uc_model.specs.Meaning.{effect_on};
ghost use Rattle.uc_run_entry.specs.declared.entry.Entry.{Entry};
ghost use Rattle.uc_run_entry.specs.Order.{entry_cmp};
ghost use Rattle.uc_run_entry.specs.PlainList.{plain_list};
ghost use Rattle.uc_run_entry.specs.Run.{IsRun};
ghost use Rattle.uc_run_entry.specs.Seek.{seek_place};
ghost use Rattle.uc_run_entry.specs.Seek as seek;
ghost use Rattle.uc_run.specs.BackCursors.{end_place, hidden_from, last_key, point_before, IsPreviousKey};
ghost use Rattle.uc_run.specs.Cursors.{has_ranges};
ghost use Rattle.uc_run.specs.Fences.{IsFenced};
ghost use Rattle.uc_run.specs.Lone.{is_same, lone_put_before};

use crate::fences::{Fences, seek_by_fences};
use crate::lookup::effect_found;
use crate::near::{begin_of_hiding, fragments_near};
use crate::places::is_passed;
use crate::run::Run;
use crate::texts::same_text;
use std::alloc::{AllocError, Global};
use std::marker::Model;
use uc_bytes::Bytes;
use uc_oper::{EffectRef, Operator};
use uc_run_entry::{WhatRef, plain_list_does_what_is_found};
use uc_run_points::{PointRef, Points};

/// The number of points that are passed one by one before the fences are searched.
const FEW_POINTS: usize = 8;

/// A place in a run, on a walk against the order of key. A contract sees it as the run's contents and how many of its points aren't
/// passed: those before its place.
#[derive(Drop)]
pub struct BackCursor<'a> {
    run: &'a Run,
    place: usize,
    /// The point just before the place, if there is one: it is read already.
    last: Option<PointRef<'a>>,
}

impl<'a> Model for BackCursor<'a> {
    ghost use Rattle.uc_run.specs.Cursors.{Standing};
    ghost use Rattle.uc_run.specs.HeldBackCursors.{standing, IsInside};

    ghost Value = { Standing };

    ghost view = { standing };

    ghost invariant = { IsInside };
}

/// A place moved back to before the points at and above a key, if they come before it: a few points one by one, more by a search by
/// the fences.
fn place_before(points: &Points, fences: &Fences, place: usize, key: &[u8]) -> usize
    requires sorted { IsStrictlySortedBy entry_cmp points.now }
    requires fenced { IsFenced points.now fences.now }
    requires within { place ≤ length points.now }
    ensures { result ≡ min place (seek_place points.now key.now false) }
{
    for passed in 0..place.min(FEW_POINTS) {
        let Some(last) = points.get(place - passed - 1) else {
            unreachable!();
        };
        if is_passed(key, false, last.key()) {
            return place - passed;
        }
    }
    place.min(seek_by_fences(points, fences, key, false))
}

/// Whether a point, if there is one, is at or above a key.
fn is_at_or_above(point: Option<&PointRef<'_>>, key: &[u8]) -> bool
    ensures { result ≡ false → (p : Entry) → option_map (λ p. p.now) point.entry ≡ Some p →
        seek.is_passed key.now false p.key ≡ true }
{
    match point {
        Some(point) => !is_passed(key, false, point.key()),
        None => false,
    }
}

/// The number of a run's points whose keys are below `high`, if there is one.
fn end_in(run: &Run, high: &Option<Bytes>) -> usize
    ensures place { result ≡ end_place run.now.points high.now }
    ensures within { result ≤ length run.now.points }
{
    run.recall();
    let points = run.entries();
    match high {
        None => points.len(),
        Some(high) => seek_by_fences(points, run.fences(), high.as_slice(), false),
    }
}

/// The point just before a place. It costs a step for each point before that in its quarter of a block.
fn before(points: &Points, place: usize) -> Option<PointRef<'_>>
    ensures { result ≡ point_before points.now place }
{
    points.get(place.checked_sub(1)?)
}

/// Whether a point, if there is one, is of a key.
fn is_of(point: Option<&PointRef<'_>>, key: &[u8]) -> bool
    ensures { result ≡ is_same key.now (option_map (λ p. p.now.key) point.entry) }
{
    match point {
        Some(point) => same_text(point.key(), key),
        None => false,
    }
}

/// The value of the point just before a place, if it is a put at or below a sequence and the only point of its key before the place; and
/// the point before it.
fn lone_put_before<'a>(
    points: &'a Points,
    place: usize,
    last: Option<&PointRef<'a>>,
    at: u64,
) -> Option<(&'a [u8], Option<PointRef<'a>>)>
    requires { option_map (λ p. p.now) last ≡ point_before points.now place }
    ensures value { option_map (λ row. row.0.now) result ≡ lone_put_before points.now place at }
    ensures before { IfSome result (λ row. row.1 ≡ point_before points.now (place - 1)) }
{
    let last = last?;
    let (seq, what) = last.seq_and_what();
    let WhatRef::Put(value) = what else {
        return None;
    };
    if seq > at {
        return None;
    }
    let earlier = before(points, place.saturating_sub(1));
    if is_of(earlier.as_ref(), last.key()) {
        return None;
    }
    Some((value, earlier))
}

impl<'a> BackCursor<'a> {
    /// Before the first point whose key is at or above `high`, or at the end if that is `None`. It costs a search by the fences.
    pub(crate) fn below(run: &'a Run, high: &Option<Bytes>) -> BackCursor<'a>
        ensures { result ≡ record { run = run.now; place = end_place run.now.points high.now } }
    {
        let place = end_in(run, high);
        BackCursor {
            run,
            place,
            last: before(run.entries(), place),
        }
    }

    /// The invariant of every run: its contents make one. Proof step: does nothing when it runs.
    #[inline]
    pub fn recall_run(&self)
        ensures { IsRun self.now.run.low self.now.run.high self.now.run.points self.now.run.fragments }
    {
        self.run.recall();
    }

    /// The key of the last point that isn't passed, without a search. After `back_cursor(high)` it is the greatest key below `high`.
    #[inline]
    pub fn key(&self) -> Option<&'a [u8]>
        ensures there { option_map (λ key. key.now) result ≡ last_key self.now }
        ensures last { (high : Option (List ℕ)) → self.now.place ≡ end_place self.now.run.points high →
            IsPreviousKey self.now.run.points high (option_map (λ key. key.now) result) }
    {
        self.run.recall();
        match &self.last {
            Some(last) => Some(last.key()),
            None => None,
        }
    }

    /// Whether the run has range deletions.
    #[inline]
    pub fn has_ranges(&self) -> bool
        ensures { result ≡ has_ranges self.now }
    {
        !self.run.fragments().is_empty()
    }

    /// Moves back to before the points at and above a key, never forward: a few points one by one, more by a search by the fences. If there
    /// is none, that costs a comparison.
    pub fn pass(&mut self, key: &[u8])
        ensures { self.new ≡
            record {
              run = self.old.run;
              place = min self.old.place
                  (seek_place self.old.run.points key.now false);
            } }
    {
        self.run.recall();
        if is_at_or_above(self.last.as_ref(), key) {
            self.place = place_before(self.run.entries(), self.run.fences(), self.place, key);
            self.last = before(self.run.entries(), self.place);
        }
    }

    /// The value of the last point that isn't passed, if it is a put at or below a sequence and, of the points that aren't passed, the only one
    /// of its key. Then the walk passes it; otherwise it stays. It looks at no range deletion, and reads the point before it, which the next
    /// call wants first.
    pub fn prev_put<O: Operator>(&mut self, at: u64) -> Option<&'a [u8]>
        ensures value { option_map (λ value. value.now) result ≡ lone_put_before self.old.run.points self.old.place at }
        ensures puts { IfSome result (λ value. (key : List ℕ) → last_key self.old ≡ Some key →
            self.old.place ≡ seek_place self.old.run.points key true → has_ranges self.old ≡ false →
            effect_on O.meaning (plain_list self.old.run) key at ≡ Set (Some value.now)) }
        ensures passes { IfSome result (λ value. (key : List ℕ) → last_key self.old ≡ Some key →
            self.new ≡ record { run = self.old.run; place = seek_place self.old.run.points key false }) }
        ensures stays { IfNone result (self.new ≡ self.old) }
    {
        self.run.recall();
        plain_list_does_what_is_found::<O>();
        let found = lone_put_before(self.run.entries(), self.place, self.last.as_ref(), at);
        let Some((value, last)) = found else {
            return None;
        };
        self.place = self.place.saturating_sub(1);
        self.last = last;
        Some(value)
    }

    /// The effect of the run's writes at or below a sequence on a key, if the walk's place is just before the key's points. It costs
    /// what [`Cursor::effect_ref`](crate::Cursor::effect_ref) does.
    pub fn effect_ref<O: Operator>(
        &self,
        alloc: Global,
        key: &[u8],
        at: u64,
    ) -> Result<EffectRef<'a>, AllocError>
        requires { self.now.place ≡ seek_place self.now.run.points key.now false }
        ensures { IfOk result (λ effect. effect ≡ effect_on O.meaning (plain_list self.now.run) key.now at) }
    {
        self.run.recall();
        plain_list_does_what_is_found::<O>();
        let points = self.run.entries().slice_from(self.place);
        effect_found::<O>(alloc, &points, self.run.fragments(), key, at)
    }

    /// The beginning of the fragment over the key, if that has a range deletion at or below the sequence. From that beginning up to
    /// the key the sequence sees nothing of older runs. It costs a search among the fragments.
    pub fn hidden_from(&self, key: &[u8], at: u64) -> Option<&'a [u8]>
        ensures { option_map (λ begin. begin.now) result ≡ hidden_from self.now.run key.now at }
    {
        self.run.recall();
        let fragments = self.run.fragments();
        let over = fragments_near(fragments, fragments.len(), key);
        begin_of_hiding(over, key, at)
    }
}
