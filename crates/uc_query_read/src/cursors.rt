//! [`Cursors`]: a walk over the points of several runs, key by key.
ghost use Rattle.std.specs.Prelude.{◌≡◌, false, option_map, IfNone, IfOk, IfSome, Some};
ghost use Rattle.uc_model.specs.Meaning.{value_of};
ghost use Rattle.uc_compact.specs.Inputs.{writes_of};
ghost use Rattle.uc_version_state.specs.Versions.{contents_of};
ghost use Rattle.uc_query_read.specs.Ahead.{Comes};
ghost use Rattle.uc_query_read.specs.Walks.{walk_at, Skips};

use crate::walkers::{Walkers, is_below};
use std::alloc::{AllocError, Global};
use std::marker::Model;
use uc_bytes::Bytes;
use uc_oper::{Operator, ValueRef};
use uc_version_state::Placed;

/// The place of a walk over the points of runs. A contract sees it as the runs' contents, the newest first, and the
/// keys of their points that are still ahead: in order, each once, and below a bound if there is one.
#[derive(Drop)]
pub(crate) struct Cursors<'a> {
    // Before the points that are ahead.
    walkers: Walkers<'a>,
    // The points from here on are ahead (just above here if `strict`).
    low: &'a [u8],
    strict: bool,
    high: &'a Option<Bytes>,
}

impl<'a> Model for Cursors<'a> {
    ghost use Rattle.uc_query_read.specs.Walks.{Walk};
    ghost use Rattle.uc_query_read.specs.HeldWalks.{walk, AreThere};

    ghost Value = { Walk };

    ghost view = { walk };

    ghost invariant = { AreThere };
}

impl<'a> Cursors<'a> {
    /// Before the keys of the runs' points from `low` on, and below `high` if there is one. It costs a search in each
    /// run.
    pub(crate) fn from(
        alloc: Global,
        runs: &'a [Placed],
        low: &'a [u8],
        high: &'a Option<Bytes>,
    ) -> Result<Cursors<'a>, AllocError>
        ensures { IfOk result (λ cursors. cursors ≡ walk_at low.now false high.now (contents_of runs.now)) }
    {
        Ok(Cursors {
            walkers: Walkers::from(alloc, runs, low)?,
            low,
            strict: false,
            high,
        })
    }

    /// The first of the keys that are ahead, with its value at a sequence, if that is one put of the oldest run, and nothing else is said of
    /// the key. Then it passes the key; otherwise it stays where it is, and [`next`](Cursors::next) says what comes.
    #[inline]
    pub(crate) fn next_alone<O: Operator>(&mut self, at: u64) -> Option<(&'a [u8], &'a [u8])>
        ensures comes { IfSome result (λ row. Comes self.old.keys (Some row.0.now) self.new.keys) }
        ensures value { IfSome result (λ row. value_of O.meaning (writes_of self.old.runs) row.0.now at ≡ Some row.1.now) }
        ensures stays { IfNone result (self.new ≡ self.old) }
        ensures runs { self.new.runs ≡ self.old.runs }
    {
        let Some((key, value)) = self.walkers.next_alone::<O>(self.high, at) else {
            return None;
        };
        self.low = key;
        self.strict = true;
        Some((key, value))
    }

    /// The first of the keys that are ahead, with its value at a sequence, if it has one. It passes the key. It costs a
    /// step for each run, and for each of the key's points up to the last put or delete. After an `Err` it is where it
    /// was.
    pub(crate) fn next<O: Operator>(
        &mut self,
        alloc: Global,
        at: u64,
    ) -> Result<Option<(&'a [u8], Option<ValueRef<'a>>)>, AllocError>
        ensures comes { IfOk result (λ row. Comes self.old.keys (option_map (λ r. r.0.now) row) self.new.keys) }
        ensures value { IfOk result (λ row.
            IfSome row (λ r. r.1 ≡ value_of O.meaning (writes_of self.old.runs) r.0.now at)) }
        ensures runs { self.new.runs ≡ self.old.runs }
    {
        let Some(least) = self.walkers.least() else {
            return Ok(None);
        };
        if !is_below(least.key, self.high) {
            return Ok(None);
        }
        let value = self.walkers.take::<O>(alloc, least, at)?;
        self.low = least.key;
        self.strict = true;
        Ok(Some((least.key, value)))
    }

    /// Passes keys without a value at a sequence: those after the last passed key, as far as a run's range deletion
    /// hides it and neither that run nor a newer one has a point. It does nothing if no run hides that key. It costs a
    /// step for each run, and a search for those whose points are passed.
    pub(crate) fn skip_dead<O: Operator>(&mut self, at: u64)
        ensures { Skips O.meaning at self.old self.new }
    {
        if !self.strict {
            return;
        }
        let Some(bound) = self.walkers.dead_up_to::<O>(self.low, at) else {
            return;
        };
        self.walkers.seek(bound);
        self.low = bound;
        self.strict = false;
    }
}
