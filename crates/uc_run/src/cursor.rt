//! [`Cursor`]: a walk over a run's points in order of key.
ghost use Rattle.std.specs.Prelude.{◌≡◌, ◌↔◌, ℕ, Bool, List, Some, true, false, drop, max, option_map, IfNone, IfOk, IfSome, IsTrue};
ghost use Rattle.std.specs.List.{slice_get};
ghost use Rattle.uc_run_entry.specs.Run.{IsRun};
ghost use Rattle.uc_run_entry.specs.PlainList.{plain_list};
ghost use Rattle.uc_run_entry.specs.Seek.{seek_place};
ghost use Rattle.uc_oper.specs.declared.effect.Effect.TheVariants.{Set};
ghost use Rattle.uc_model.specs.Meaning.{effect_on};
ghost use Rattle.uc_run.specs.Cursors.{has_ranges};
ghost use Rattle.uc_run.specs.Heads.{next_key};
ghost use Rattle.uc_run.specs.Hiding.{hidden_to};
ghost use Rattle.uc_run.specs.Lone.{lone_put};
ghost use Rattle.uc_run.specs.NextKey.{IsNextKey};

use crate::fences::{pass_before, pass_key};
use crate::lone::next_lone_put;
use crate::lookup::effect_found;
use crate::near::{end_of_hiding, fragments_ended, fragments_near};
use crate::run::Run;
use std::alloc::{AllocError, Global};
use std::marker::Model;
use uc_oper::{Effect, EffectRef, Operator};
use uc_run_entry::plain_list_does_what_is_found;
use uc_run_points::PointSlice;

/// A place in a run, on a walk in order of key. A contract sees it as the run's contents and how many of its points it
/// passed.
#[derive(Drop)]
pub struct Cursor<'a> {
    run: &'a Run,
    /// The points that aren't passed.
    ahead: PointSlice<'a>,
    /// The fragment at which the search for the one over the next key begins.
    fragment: usize,
}

impl<'a> Model for Cursor<'a> {
    ghost use Rattle.uc_run.specs.Cursors.{Standing, standing, IsInside};

    ghost Value = { Standing };

    ghost view = { standing };

    ghost invariant = { IsInside };
}

impl<'a> Cursor<'a> {
    /// Before the first point whose key is at or above `low`. It costs a search by the fences.
    pub(crate) fn before(run: &'a Run, low: &[u8]) -> Cursor<'a>
        ensures { result ≡ record { run = run.now; place = seek_place run.now.points low.now false } }
    {
        Cursor {
            run,
            ahead: run.found(low, false),
            fragment: 0,
        }
    }

    /// The invariant of every run: its contents make one. Proof step: does nothing when it runs.
    #[inline]
    pub fn recall_run(&self)
        ensures { IsRun self.now.run.low self.now.run.high self.now.run.points self.now.run.fragments }
    {
        self.run.recall();
    }

    /// The key of the first point that isn't passed, without a search. After `seek(low)` on a cursor that isn't past
    /// `low`, it is the least key at or above `low`.
    #[inline]
    pub fn key(&self) -> Option<&'a [u8]>
        ensures there { option_map (λ key. key.now) result ≡
            option_map (λ p. p.key) (slice_get self.now.run.points self.now.place) }
        ensures next { (low : List ℕ) (strict : Bool) → self.now.place ≡ seek_place self.now.run.points low strict →
            IsNextKey self.now.run.points low strict (option_map (λ key. key.now) result) }
    {
        self.run.recall();
        let point = self.ahead.first()?;
        Some(point.key())
    }

    /// Whether the run has range deletions.
    #[inline]
    pub fn has_ranges(&self) -> bool
        ensures { result ≡ has_ranges self.now }
    {
        !self.run.fragments().is_empty()
    }

    /// Whether the cursor is just before the key's points. It costs a search by the fences.
    pub fn is_before(&self, key: &[u8]) -> bool
        ensures { IsTrue result ↔ (self.now.place ≡ seek_place self.now.run.points key.now false) }
    {
        self.run.recall();
        self.run.found(key, false).len() == self.ahead.len()
    }

    /// As [`effect_ref`](Cursor::effect_ref), with a copy of the value that it puts.
    pub fn effect<O: Operator>(
        &self,
        alloc: Global,
        key: &[u8],
        at: u64,
    ) -> Result<Effect, AllocError>
        requires { self.now.place ≡ seek_place self.now.run.points key.now false }
        ensures { IfOk result (λ effect. effect ≡ effect_on O.meaning (plain_list self.now.run) key.now at) }
    {
        self.effect_ref::<O>(alloc, key, at)?.into_effect(alloc)
    }

    /// The effect of the run's writes at or below a sequence on a key, if the cursor is just before the key's
    /// points. It costs a step for each of the key's points down to the last put or delete at or below the sequence; above
    /// the sequence, if they are many, a search. A key past the end of the cursor's fragment costs a search too. A value that
    /// is put stays in the run.
    pub fn effect_ref<O: Operator>(
        &self,
        alloc: Global,
        key: &[u8],
        at: u64,
    ) -> Result<EffectRef<'a>, AllocError>
        requires { self.now.place ≡ seek_place self.now.run.points key.now false }
        ensures { IfOk result (λ effect. effect ≡ effect_on O.meaning (plain_list self.now.run) key.now at) }
    {
        self.run.recall();
        plain_list_does_what_is_found::<O>();
        let over = fragments_near(self.run.fragments(), self.fragment, key);
        effect_found::<O>(alloc, &self.ahead, over, key, at)
    }

    /// The value of the next point, if it is a put at or below a sequence and the only point of its key. Then the cursor passes it;
    /// otherwise it stays. It looks at no range deletion, and reads the point after it, which the next call wants first.
    #[inline]
    pub fn next_put<O: Operator>(&mut self, at: u64) -> Option<&'a [u8]>
        ensures value { option_map (λ value. value.now) result ≡ lone_put (drop self.old.place self.old.run.points) at }
        ensures puts { IfSome result (λ value. (key : List ℕ) → next_key self.old ≡ Some key →
            self.old.place ≡ seek_place self.old.run.points key false → has_ranges self.old ≡ false →
            effect_on O.meaning (plain_list self.old.run) key at ≡ Set (Some value.now)) }
        ensures passes { IfSome result (λ value. (key : List ℕ) → next_key self.old ≡ Some key →
            self.new ≡ record { run = self.old.run; place = seek_place self.old.run.points key true }) }
        ensures stays { IfNone result (self.new ≡ self.old) }
    {
        self.run.recall();
        plain_list_does_what_is_found::<O>();
        next_lone_put(&mut self.ahead, at)
    }

    /// The end of the fragment over the key, if that has a range deletion at or below the sequence. From the key to
    /// below that end the sequence sees nothing of older runs. It costs a search among the fragments unless it is the
    /// one at which the cursor is.
    pub fn hidden_to(&self, key: &[u8], at: u64) -> Option<&'a [u8]>
        ensures { option_map (λ end. end.now) result ≡ hidden_to self.now.run key.now at }
    {
        self.run.recall();
        let over = fragments_near(self.run.fragments(), self.fragment, key);
        end_of_hiding(over, key, at)
    }

    /// Moves to the first key above `key`, never back: a few points one by one, more by a search by the fences. If the next point is the
    /// only one of the key, that costs a look at the one after it.
    #[inline]
    pub fn pass(&mut self, key: &[u8])
        ensures { self.new ≡
            record {
              run = self.old.run;
              place = max self.old.place
                  (seek_place self.old.run.points key.now true);
            } }
    {
        self.run.recall();
        let (points, fences) = (self.run.entries(), self.run.fences());
        pass_key(points, fences, &mut self.ahead, key);
        self.fragment = fragments_ended(self.run.fragments(), self.fragment, key);
    }

    /// Moves to the first key at or above `low`, never back: a few points one by one, more by a search by the fences.
    /// If the next key is at or above it, that costs one comparison.
    #[inline]
    pub fn seek(&mut self, low: &[u8])
        ensures { self.new ≡
            record {
              run = self.old.run;
              place = max self.old.place
                  (seek_place self.old.run.points low.now false);
            } }
    {
        self.run.recall();
        let (points, fences) = (self.run.entries(), self.run.fences());
        pass_before(points, fences, &mut self.ahead, low, false);
        self.fragment = fragments_ended(self.run.fragments(), self.fragment, low);
    }

    /// The run that it walks through.
    #[inline]
    pub(crate) fn run(&self) -> &'a Run
        ensures { result.now ≡ self.now.run }
    {
        self.run
    }
}
