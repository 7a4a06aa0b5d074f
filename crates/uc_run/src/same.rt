//! Whether points are equal.
ghost use Rattle.std.specs.Prelude.{◌≡◌, ◌↔◌, Some, drop, IsTrue};
ghost use Rattle.std.specs.List.{slice_get};

use uc_run_points::{PointRef, Points, PointsAhead};

/// Whether the next of the points ahead says the same as this one.
fn comes(ahead: &mut PointsAhead<'_>, point: &PointRef<'_>) -> bool
    ensures next { IsTrue result ↔ (slice_get ahead.old 0 ≡ Some point.now) }
    ensures rest { ahead.new ≡ drop 1 ahead.old }
{
    match ahead.next() {
        None => false,
        Some(next) => next.same(point),
    }
}

/// Whether the same points are ahead of both.
fn are_alike(ahead: PointsAhead<'_>, other: PointsAhead<'_>) -> bool
    ensures { IsTrue result ↔ (ahead.entry ≡ other.entry) }
{
    let mut ahead = ahead;
    let mut other = other;
    while let Some(point) = ahead.next() {
        if !comes(&mut other, &point) {
            return false;
        }
    }
    other.next().is_none()
}

/// Whether points are equal.
pub(crate) fn same_points(points: &Points, others: &Points) -> bool
    ensures { IsTrue result ↔ (points.now ≡ others.now) }
{
    points.len() == others.len() && are_alike(points.ahead(), others.ahead())
}
