//! [`Cursor`]: the place of a merge in one run.
ghost use Rattle.std.specs.Prelude.{◌≡◌, ◌∷◌, true, option_map, take, drop, IfSome, IfNone, OnOk};
ghost use Rattle.std.specs.List.Sorted.{IsStrictlySortedBy};
ghost use Rattle.std.specs.Ordering.{nat_cmp};
ghost use Rattle.uc_bytes.specs.Bytes.{same_bytes};
ghost use Rattle.uc_compact.specs.Heads as heads;
ghost use Rattle.uc_compact.specs.Lasting.{with_lasting};

use crate::lasting_points::push_lasting;
use std::alloc::AllocError;
use std::marker::Model;
use std::mem;
use uc_run::same_text;
use uc_run_points::{PointRef, PointSlice, PointsAhead};

/// The points of a run that are still ahead. A contract sees it as their list.
#[derive(Drop)]
pub(crate) struct Cursor<'a> {
    /// The next point: each is decoded once.
    next: Option<PointRef<'a>>,
    /// The points after it.
    behind: PointsAhead<'a>,
}

impl<'a> Model for Cursor<'a> {
    ghost use Rattle.std.specs.Prelude.{List, IfNone, ◌≡◌, []};
    ghost use Rattle.std.specs.List.{cons_option};
    ghost use Rattle.uc_run_entry.specs.declared.entry.Entry.{Entry};

    ghost Value = { List Entry };

    ghost view = { λ c. cons_option c.next c.behind };

    ghost invariant = { λ c. IfNone c.next (c.behind ≡ []) };
}

impl<'a> Cursor<'a> {
    /// Before the first of the points.
    pub(crate) fn new(points: &PointSlice<'a>) -> Cursor<'a>
        ensures { result ≡ points.now }
    {
        let mut behind = points.ahead();
        Cursor {
            next: behind.next(),
            behind,
        }
    }

    /// The key of the next point.
    #[inline]
    pub(crate) fn key(&self) -> Option<&'a [u8]>
        ensures { option_map (λ key. key.now) result ≡ heads.first_key self.now }
    {
        match &self.next {
            None => None,
            Some(point) => Some(point.key()),
        }
    }

    /// The next point, if there is one of the key, and moves past it.
    #[inline]
    fn next_named(&mut self, key: &[u8]) -> Option<PointRef<'a>>
        ensures found { IfSome result (λ p. (self.old ≡ p ∷ self.new) × (same_bytes p.key key.now ≡ true)) }
        ensures none { IfNone result ((heads.first_named key.now self.old ≡ 0) × (self.new ≡ self.old)) }
    {
        match &self.next {
            Some(point) if same_text(point.key(), key) => {
                mem::replace(&mut self.next, self.behind.next())
            }
            _ => None,
        }
    }

    /// Appends the next points as long as they are of the key, except those that one before them hides, and moves past them. After
    /// an `Err` it may have moved past some.
    pub(crate) fn take_named(
        &mut self,
        keeps: &[u64],
        key: &[u8],
        points: &mut Vec<PointRef<'a>>,
    ) -> Result<(), AllocError>
        requires { IsStrictlySortedBy nat_cmp keeps.now }
        ensures taken { OnOk result
            (points.new.items ≡
            with_lasting keeps.now points.old.items (take (heads.first_named key.now self.old) self.old)) }
        ensures left { OnOk result (self.new ≡ drop (heads.first_named key.now self.old) self.old) }
    {
        while let Some(point) = self.next_named(key) {
            push_lasting(keeps, points, point)?;
        }
        Ok(())
    }
}
