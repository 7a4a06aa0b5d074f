//! [`Groups`]: the points of several runs, key by key.
ghost use Rattle.std.specs.Prelude.{◌≡◌, [], map, option_map, take, drop, OnOk, OnErr, IfOk};
ghost use Rattle.std.specs.List.{AllByRecursion, flat_map};
ghost use Rattle.std.specs.List.Sorted.{IsStrictlySortedBy};
ghost use Rattle.std.specs.Ordering.{nat_cmp};
ghost use Rattle.uc_run_entry.specs.Order.{entry_cmp};
ghost use Rattle.uc_compact.specs.Groups.{groups_of, Comes};
ghost use Rattle.uc_compact.specs.Lasting.{lasting_group, with_lasting};
ghost use Rattle.uc_run.specs.Heads.{number_of};
ghost use Rattle.uc_compact.specs.Heads.{first_key, first_named};

use crate::cursor::Cursor;
use std::alloc::{AllocError, Global};
use std::marker::Model;
use uc_run::{Head, Heads};
use uc_run_points::{PointRef, PointSlice};

/// The place of a merge in several runs. A contract sees it as the groups that are still ahead: for each key those of its points
/// that none of them hides from all reads, those of the first run first. So it never holds many points of a key that is put or
/// deleted again and again.
#[derive(Drop)]
pub struct Groups<'a> {
    /// The sequences of reads.
    keeps: &'a [u64],
    cursors: Vec<Cursor<'a>>,
    /// The next key of each: a step touches only the cursors that are at its key.
    heads: Heads<'a>,
}

impl<'a> Model for Groups<'a> {
    ghost use Rattle.std.specs.Prelude.{List};
    ghost use Rattle.uc_compact.specs.Groups.{Group};
    ghost use Rattle.uc_compact.specs.Ahead.{ahead, AreHeld};

    ghost Value = { List Group };

    ghost view = { ahead };

    ghost invariant = { AreHeld };
}

/// A cursor for each run, before its first point.
fn cursors_over<'a>(alloc: Global, runs: &[PointSlice<'a>]) -> Result<Vec<Cursor<'a>>, AllocError>
    ensures { IfOk result (λ cursors. cursors.items ≡ runs.now) }
{
    let mut cursors = Vec::with_capacity(alloc, runs.len())?;
    for points in runs {
        cursors.push(Cursor::new(points))?;
    }
    Ok(cursors)
}

/// Takes the points of the key that last from each cursor that is at it, in order. After an `Err` the cursors and heads are
/// no longer of use.
fn take_from_each<'a>(
    keeps: &[u64],
    cursors: &mut [Cursor<'a>],
    heads: &mut Heads<'a>,
    head: Head<'_>,
    points: &mut Vec<PointRef<'a>>,
) -> Result<(), AllocError>
    requires rise { IsStrictlySortedBy nat_cmp keeps.now }
    requires keys { heads.old.keys ≡ map first_key cursors.old }
    requires number { head.number ≡ number_of heads.old.front head.key.now }
    ensures taken { OnOk result
        (points.new.items ≡
        with_lasting keeps.now points.old.items
        (flat_map (λ ps. take (first_named head.entry.key.now ps) ps) cursors.old)) }
    ensures left { OnOk result (cursors.new ≡ map (λ ps. drop (first_named head.entry.key.now ps) ps) cursors.old) }
    ensures heads { OnOk result (heads.new.keys ≡ map first_key cursors.new) }
{
    let mut place = heads.next_at(0, head);
    while place < cursors.len() {
        let cursor = &mut cursors[place];
        cursor.take_named(keeps, head.key, points)?;
        heads.set(place, cursor.key());
        place = heads.next_at(place + 1, head);
    }
    Ok(())
}

impl<'a> Groups<'a> {
    /// All groups of runs, each of which has its points in order, where reads are made at these keeps.
    pub fn over(
        alloc: Global,
        runs: &[PointSlice<'a>],
        keeps: &'a [u64],
    ) -> Result<Groups<'a>, AllocError>
        requires sorted { AllByRecursion (IsStrictlySortedBy entry_cmp) runs.now }
        requires rise { IsStrictlySortedBy nat_cmp keeps.now }
        ensures { IfOk result (λ groups.
            groups ≡ map (lasting_group keeps.now) (groups_of (flat_map (λ points. points) runs.now))) }
    {
        let cursors = cursors_over(alloc, runs)?;
        let heads = Heads::of_runs(alloc, runs)?;
        Ok(Groups {
            keeps,
            cursors,
            heads,
        })
    }

    /// The next key. Its points replace those in `points`; there are none if there is no key. After an `Err` `points`
    /// is empty, and nothing is ahead any more.
    pub fn next_into(
        &mut self,
        points: &mut Vec<PointRef<'a>>,
    ) -> Result<Option<&'a [u8]>, AllocError>
        ensures comes { IfOk result (λ key.
            Comes self.old (option_map (λ k. k.now) key) points.new.items
            self.new) }
        ensures err { OnErr result (self.new ≡ []) }
        ensures none_named { OnErr result (points.new.items ≡ []) }
    {
        points.clear();
        let Some(head) = self.heads.least() else {
            return Ok(None);
        };
        if let Err(error) = take_from_each(
            self.keeps,
            &mut self.cursors,
            &mut self.heads,
            head,
            points,
        ) {
            self.cursors.clear();
            self.heads.clear();
            points.clear();
            return Err(error);
        }
        Ok(Some(head.key))
    }
}
