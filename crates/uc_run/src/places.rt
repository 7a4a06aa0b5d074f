//! Places among points and sequences, by binary search.
ghost use Rattle.std.specs.Prelude.{◌≡◌, ◌≤◌, ℕ, count_by, length, drop, filter};
ghost use Rattle.std.specs.List.Sorted.{IsStrictlySortedBy};
ghost use Rattle.uc_run_entry.specs.Order.{entry_cmp};
ghost use Rattle.uc_run_entry.specs.Seek as seek;
ghost use Rattle.uc_run_entry.specs.Lookup as lookup;
ghost use Rattle.uc_run.specs.Fences.{IsFenced};
ghost use Rattle.uc_run.specs.Filters.{AdmitsAll};
ghost use Rattle.uc_run.specs.Places as places;

use crate::fences::{Fences, found_by_fences};
use crate::filter::Filter;
use crate::sought_key::SoughtKey;
use crate::texts::{same_text, text_order};
use std::cmp::Ordering;
use uc_run_points::{PointRef, PointSlice, PointTest, Points};

/// The number of points that are passed one by one before a binary search.
const FEW_POINTS: usize = 16;

/// Among how many points a binary search begins.
const NEAR_POINTS: usize = 1024;

/// Whether `key` lies before a search that starts at `low` (just above it if `strict`).
#[inline]
pub(crate) fn is_passed(low: &[u8], strict: bool, key: &[u8]) -> bool
    ensures { result ≡ seek.is_passed low.now strict key.now }
{
    match text_order(key, low) {
        Ordering::Less => true,
        Ordering::Equal => strict,
        Ordering::Greater => false,
    }
}

/// Whether a point comes before those of the key at or below the sequence.
#[inline]
fn is_newer(point: &PointRef<'_>, key: &[u8], at: u64) -> bool
    ensures { result ≡ places.is_newer key.now at point.now }
{
    match text_order(point.key(), key) {
        Ordering::Less => true,
        Ordering::Equal => at < point.seq(),
        Ordering::Greater => false,
    }
}

/// Passes the points that come before those of the key at or below the sequence.
#[derive(Drop)]
struct IsNewer<'a> {
    key: &'a [u8],
    at: u64,
}

impl PointTest for IsNewer<'_> {
    ghost passing = { λ test. places.is_newer test.key.now test.at };

    #[inline]
    fn passes(&self, point: &PointRef<'_>) -> bool {
        is_newer(point, self.key, self.at)
    }
}

/// The number of points before the key's at or below the sequence. It is a binary search, at first among the nearest:
/// few keys have more points.
fn count_newer(points: &PointSlice<'_>, key: &[u8], at: u64) -> usize
    requires { IsStrictlySortedBy entry_cmp points.now }
    ensures bound { result ≤ length points.now }
    ensures count { result ≡ count_by (places.is_newer key.now at) points.now }
{
    let test = IsNewer { key, at };
    let near = points.slice(0, points.len().min(NEAR_POINTS));
    let count = near.partition_point(&test);
    if count < near.len() {
        return count;
    }
    points.partition_point(&test)
}

/// The points without those that come before the key's at or below the sequence. A few of these are passed one by one, more by
/// a binary search.
pub(crate) fn without_newer<'a>(points: &PointSlice<'a>, key: &[u8], at: u64) -> PointSlice<'a>
    requires { IsStrictlySortedBy entry_cmp points.now }
    ensures { result ≡ drop (count_by (places.is_newer key.now at) points.now) points.now }
{
    let mut rest = points.again();
    if rest.pass_while(FEW_POINTS, &IsNewer { key, at }) == FEW_POINTS {
        let (_, behind) = points.split_at(count_newer(points, key, at));
        return behind;
    }
    rest
}

/// Whether a point is one of the key, above a sequence if there is one.
#[inline]
pub(crate) fn is_on(point: &PointRef<'_>, key: &[u8], above: Option<u64>) -> bool
    ensures { result ≡ places.is_on key.now above point.now }
{
    match above {
        None => same_text(point.key(), key),
        Some(seq) => same_text(point.key(), key) && seq < point.seq(),
    }
}

/// The points of a key among points: all from the first of them on. There may be none if the filter doesn't admit the key.
pub(crate) fn points_from<'a>(
    points: &'a Points,
    fences: &Fences,
    key_filter: &Filter,
    key: &SoughtKey<'_>,
) -> PointSlice<'a>
    requires sorted { IsStrictlySortedBy entry_cmp points.now }
    requires fenced { IsFenced points.now fences.now }
    requires admitted { AdmitsAll key_filter.now points.now }
    ensures sorted { IsStrictlySortedBy entry_cmp result }
    ensures visible { (at : ℕ) →
        filter (lookup.is_visible key.now at) result ≡ filter (lookup.is_visible key.now at) points.now }
{
    if key_filter.admits(key) {
        found_by_fences(points, fences, key.key(), false)
    } else {
        points.none()
    }
}
