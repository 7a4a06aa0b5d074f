//! The keeps, points and sequences that this crate accepts.
ghost use Rattle.std.specs.Prelude.{◌≡◌, ◌≢◌, ◌<◌, ◌↔◌, IsTrue, map};
ghost use Rattle.std.specs.List.{AllByRecursion};
ghost use Rattle.std.specs.List.Sorted.{IsStrictlySortedBy};
ghost use Rattle.std.specs.Ordering.{nat_cmp};
ghost use Rattle.uc_compact.specs.Choice.{AreOfOneKey, PointsFall};

use crate::over::Over;
use uc_run_points::PointRef;

/// Whether each keep is below the next.
pub fn keeps_rise(keeps: &[u64]) -> bool
    ensures { IsTrue result ↔ IsStrictlySortedBy nat_cmp keeps.now }
{
    keeps.is_sorted_by(|keep, next| keep < next)
}

/// Whether no sequence is 0.
pub fn seqs_are_from_one(seqs: &Over<'_>) -> bool
    ensures { IsTrue result ↔ AllByRecursion (λ n. 0 < n) seqs.now }
{
    seqs.newest_at_or_below(0).is_none()
}

/// Whether each point is newer than the next.
fn points_fall(points: &[PointRef<'_>]) -> bool
    ensures { IsTrue result ↔ PointsFall points.now }
{
    points.is_sorted_by(|point, next| next.seq() < point.seq())
}

/// Whether no point has the sequence 0.
fn points_are_from_one(points: &[PointRef<'_>]) -> bool
    ensures { IsTrue result ↔ AllByRecursion (λ p. 0 < p.seq) points.now }
{
    points.iter().all(|point| 0 < point.seq())
}

/// Whether a point's sequence isn't among some.
fn is_apart(point: &PointRef<'_>, seqs: &Over<'_>) -> bool
    ensures { IsTrue result ↔ AllByRecursion (λ n. n ≢ point.now.seq) seqs.now }
{
    seqs.recall_falling();
    let seq = point.seq();
    match seqs.newest_at_or_below(seq) {
        None => true,
        Some(newest) => newest != seq,
    }
}

/// Whether no point has one of the sequences.
fn are_apart(points: &[PointRef<'_>], seqs: &Over<'_>) -> bool
    ensures { IsTrue result ↔
        AllByRecursion (λ p. AllByRecursion (λ n. n ≢ p.seq) seqs.now)
        points.now }
{
    points.iter().all(|point| is_apart(point, seqs))
}

/// Whether points and sequences are like those of one key: both from 1 on, the points newest first, and no sequence in
/// both. [`push_kept_points`](crate::push_kept_points) takes these.
pub fn are_of_one_key(points: &[PointRef<'_>], seqs: &Over<'_>) -> bool
    ensures { IsTrue result ↔ AreOfOneKey points.now seqs.now }
{
    seqs.recall_falling();
    points_fall(points)
        && points_are_from_one(points)
        && seqs_are_from_one(seqs)
        && are_apart(points, seqs)
}
