//! [`PointSlice`]: consecutive points.
ghost use Rattle.std.specs.Prelude.{◌≡◌, ◌≤◌, ◌<◌, ◌^◌, ◌-◌, ◌↔◌, true, false, Bool, Some, [], length, take, drop, IsTrue};
ghost use Rattle.std.specs.List.{slice_get, AllWithin, HoldsAt};
ghost use Rattle.std.specs.List.Sorted.{IsPartitionPoint, IsPartitionedBy};

use crate::point_ref::PointRef;
use crate::point_test::PointTest;
use crate::points::{Points, QUARTER_POINTS};
use crate::points_ahead::PointsAhead;
use std::marker::Model;

/// Consecutive points of a run, which a slice borrows and doesn't copy. A contract sees the list of them.
#[derive(Drop)]
pub struct PointSlice<'a> {
    /// The points from which the slice is cut.
    points: &'a Points,
    /// Number of points before the slice.
    begin: usize,
    /// The points of the slice. The first is already decoded.
    ahead: PointsAhead<'a>,
}

impl<'a> Model for PointSlice<'a> {
    ghost use Rattle.std.specs.Prelude.{List};
    ghost use Rattle.uc_run_entry.specs.declared.entry.Entry.{Entry};
    ghost use Rattle.uc_run_points.specs.Slices.{IsSlice};

    ghost Value = { List Entry };

    ghost view = { λ s. s.ahead };

    ghost invariant = { IsSlice };
}

impl<'a> PointSlice<'a> {
    /// Returns the slice of all points.
    #[inline]
    pub(crate) fn new(points: &'a Points) -> PointSlice<'a>
        ensures { result ≡ points.now }
    {
        // Proof step: there are fewer than 2 ^ 63 points.
        let _ = points.len();
        PointSlice {
            points,
            begin: 0,
            ahead: points.ahead(),
        }
    }

    /// Returns the points from index `place` on.
    #[inline]
    pub(crate) fn from_place(points: &'a Points, place: usize) -> PointSlice<'a>
        ensures { result ≡ drop place points.now }
    {
        let begin = place.min(points.len());
        PointSlice {
            points,
            begin,
            ahead: points.from(begin),
        }
    }

    /// Returns an empty slice.
    #[inline]
    pub(crate) fn none(points: &'a Points) -> PointSlice<'a>
        ensures { result ≡ [] }
    {
        PointSlice {
            points,
            begin: 0,
            ahead: PointsAhead::none(),
        }
    }

    /// Returns the same slice.
    #[inline]
    pub fn again(&self) -> PointSlice<'a>
        ensures { result ≡ self.now }
    {
        PointSlice {
            points: self.points,
            begin: self.begin,
            ahead: self.ahead.again(),
        }
    }

    /// Returns the number of points.
    #[inline]
    pub fn len(&self) -> usize
        ensures count { result ≡ length self.now }
        ensures bound { result < 2 ^ 63 }
    {
        self.ahead.len()
    }

    /// Returns true if there are no points.
    #[inline]
    pub fn is_empty(&self) -> bool
        ensures { IsTrue result ↔ (self.now ≡ []) }
    {
        self.ahead.len() == 0
    }

    /// Returns the points from index `place` on. Decodes the points before it, from the first of the slice or of its quarter, whichever
    /// is nearer.
    #[inline]
    fn from(&self, place: usize) -> PointsAhead<'a>
        requires { place ≤ length self.now }
        ensures { result ≡ drop place self.now }
    {
        let all = self.begin + place;
        if place <= all % QUARTER_POINTS {
            let mut ahead = self.ahead.again();
            ahead.pass(place);
            return ahead;
        }
        let mut ahead = self.points.from(all);
        ahead.truncate(self.ahead.len() - place);
        ahead
    }

    /// Returns the first point, if there is one. It is already decoded.
    #[inline]
    pub fn first(&self) -> Option<PointRef<'a>>
        ensures { result ≡ slice_get self.now 0 }
    {
        self.ahead.first()
    }

    /// Returns the points after the first. Decodes the first of these.
    #[inline]
    pub fn after_first(&self) -> PointSlice<'a>
        ensures { result ≡ drop 1 self.now }
    {
        if self.is_empty() {
            return self.again();
        }
        let mut ahead = self.ahead.again();
        ahead.step();
        PointSlice {
            points: self.points,
            begin: self.begin + 1,
            ahead,
        }
    }

    /// Returns the point at index `place`, if there is one. Decodes the points before it, in the slice or in its quarter if that has fewer.
    #[inline]
    pub fn get(&self, place: usize) -> Option<PointRef<'a>>
        ensures { result ≡ slice_get self.now place }
    {
        if place == 0 {
            self.ahead.first()
        } else if place < self.ahead.len() {
            self.from(place).first()
        } else {
            None
        }
    }

    /// Returns the point at index `place`, at the cost of [`get`](PointSlice::get).
    #[inline]
    pub fn at(&self, place: usize) -> PointRef<'a>
        requires { place < length self.now }
        ensures { slice_get self.now place ≡ Some result }
    {
        match self.get(place) {
            Some(point) => point,
            None => unreachable!(),
        }
    }

    /// Returns the number of points that pass a test. The points that pass must come first. A binary search.
    pub fn partition_point<T: PointTest>(&self, test: &T) -> usize
        requires { IsPartitionedBy (T.passing test.now) self.now }
        ensures bound { result ≤ length self.now }
        ensures place { IsPartitionPoint (λ p. T.passing test.now p ≡ true) (λ p. T.passing test.now p ≡ false) self.now
            result }
    {
        let mut passed = 0;
        let mut end = self.len();
        while passed < end {
            let middle = passed + (end - passed) / 2;
            let point = self.at(middle);
            if test.passes(&point) {
                passed = middle + 1;
            } else {
                end = middle;
            }
        }
        passed
    }

    /// Returns a walk over the points.
    #[inline]
    pub fn ahead(&self) -> PointsAhead<'a>
        ensures { result ≡ self.now }
    {
        self.ahead.again()
    }

    /// Returns the points from index `begin`, inclusive, to `end`, exclusive, at the cost of [`get`](PointSlice::get) of the first.
    #[inline]
    pub fn slice(&self, begin: usize, end: usize) -> PointSlice<'a>
        requires order { begin ≤ end }
        requires within { end ≤ length self.now }
        ensures { result ≡ take (end - begin) (drop begin self.now) }
    {
        let mut ahead = self.from(begin);
        ahead.truncate(end - begin);
        PointSlice {
            points: self.points,
            begin: self.begin + begin,
            ahead,
        }
    }

    /// Removes points from the front while they pass a test, at most `most`, and returns the number of removed points. Tests each point
    /// once. The first point that fails the test stays.
    #[inline]
    pub fn pass_while<T: PointTest>(&mut self, most: usize, test: &T) -> usize
        ensures most { result ≤ most }
        ensures bound { result ≤ length self.old }
        ensures before { AllWithin (λ p. T.passing test.now p ≡ true) self.old 0 result }
        ensures there { result < most → result < length self.old →
            HoldsAt (λ p. T.passing test.now p ≡ false) self.old result }
        ensures rest { self.new ≡ drop result self.old }
    {
        let count = self.ahead.pass_while(most, test);
        self.begin += count;
        count
    }

    /// Returns the points before index `place`, and the points from it on.
    pub fn split_at(&self, place: usize) -> (PointSlice<'a>, PointSlice<'a>)
        requires { place ≤ length self.now }
        ensures front { result.0 ≡ take place self.now }
        ensures back { result.1 ≡ drop place self.now }
    {
        (self.slice(0, place), self.slice(place, self.len()))
    }
}
