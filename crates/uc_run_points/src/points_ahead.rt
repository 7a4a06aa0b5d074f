//! [`PointsAhead`]: a walk over points.
ghost use Rattle.std.specs.Prelude.{◌≡◌, ◌≤◌, ◌<◌, ◌↔◌, true, false, [], length, take, drop, IsTrue};
ghost use Rattle.std.specs.List.{slice_get, AllWithin, HoldsAt};
ghost use Rattle.uc_run_points.specs.Spelling.{entries_from};

use crate::point_ref::PointRef;
use crate::point_test::PointTest;
use crate::spelling::read_entry;
use std::marker::Model;

/// A walk over points, in order. A contract sees it as the list of the remaining points.
///
/// The next point is already decoded, so looking at it again is free.
#[derive(Drop)]
pub struct PointsAhead<'a> {
    /// The next point. Meaningless if no point remains.
    first: PointRef<'a>,
    /// The bytes after the next point.
    behind: &'a [u8],
    /// Number of remaining points.
    count: usize,
}

impl<'a> Model for PointsAhead<'a> {
    ghost use Rattle.std.specs.Prelude.{List};
    ghost use Rattle.uc_run_entry.specs.declared.entry.Entry.{Entry};
    ghost use Rattle.uc_run_points.specs.Spelling.{entries_ahead};

    ghost Value = { List Entry };

    ghost view = { λ a. entries_ahead a.count a.first a.behind.now };
}

impl<'a> PointsAhead<'a> {
    /// Returns a walk over the first `count` points that `bytes` encodes. Decodes the first.
    #[inline]
    pub(crate) fn new(bytes: &'a [u8], count: usize) -> PointsAhead<'a>
        ensures { result ≡ entries_from count bytes.now }
    {
        let (first, behind) = read_entry(bytes);
        PointsAhead {
            first,
            behind,
            count,
        }
    }

    /// Returns a walk over no points. Decodes nothing.
    #[inline]
    pub(crate) fn none() -> PointsAhead<'a>
        ensures { result ≡ [] }
    {
        PointsAhead {
            first: PointRef::new(&[], &[], &[]),
            behind: &[],
            count: 0,
        }
    }

    /// Returns the number of remaining points.
    #[inline]
    pub fn len(&self) -> usize
        ensures { result ≡ length self.now }
    {
        self.count
    }

    /// Returns another walk over the same points.
    #[inline]
    pub(crate) fn again(&self) -> PointsAhead<'a>
        ensures { result ≡ self.now }
    {
        PointsAhead {
            first: self.first.again(),
            behind: self.behind,
            count: self.count,
        }
    }

    /// Returns the next point, if there is one, and doesn't pass it.
    #[inline]
    pub fn first(&self) -> Option<PointRef<'a>>
        ensures { result ≡ slice_get self.now 0 }
    {
        if self.count == 0 {
            return None;
        }
        Some(self.first.again())
    }

    /// Passes the next point, if there is one, and decodes the point after it.
    #[inline]
    pub(crate) fn step(&mut self)
        ensures { self.new ≡ drop 1 self.old }
    {
        if self.count <= 1 {
            self.count = 0;
            return;
        }
        let (first, behind) = read_entry(self.behind);
        self.first = first;
        self.behind = behind;
        self.count -= 1;
    }

    /// Returns the next point, if there is one, and passes it.
    #[inline]
    pub fn next(&mut self) -> Option<PointRef<'a>>
        ensures next { result ≡ slice_get self.old 0 }
        ensures rest { self.new ≡ drop 1 self.old }
    {
        let point = self.first();
        self.step();
        point
    }

    /// Passes `count` points, or all if fewer remain.
    #[inline]
    pub fn pass(&mut self, count: usize)
        ensures { self.new ≡ drop count self.old }
    {
        for _ in 0..count {
            self.step();
        }
    }

    /// Keeps the next `count` points, or all if fewer remain, and drops the others.
    #[inline]
    pub(crate) fn truncate(&mut self, count: usize)
        ensures { self.new ≡ take count self.old }
    {
        self.count = self.count.min(count);
    }

    /// Passes points while they pass a test, at most `most`, and returns the number of passed points. The first point that fails the test
    /// is then the next.
    pub fn pass_while<T: PointTest>(&mut self, most: usize, test: &T) -> usize
        ensures most { result ≤ most }
        ensures bound { result ≤ length self.old }
        ensures before { AllWithin (λ p. T.passing test.now p ≡ true) self.old 0 result }
        ensures there { result < most → result < length self.old →
            HoldsAt (λ p. T.passing test.now p ≡ false) self.old result }
        ensures rest { self.new ≡ drop result self.old }
    {
        let most = most.min(self.len());
        for count in 0..most {
            match self.first() {
                Some(point) if test.passes(&point) => self.step(),
                _ => return count,
            }
        }
        most
    }
}
