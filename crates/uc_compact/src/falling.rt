//! Parts of points that fall.
ghost use Rattle.std.specs.Prelude.{◌≡◌, ◌≤◌, length, map, take, drop, filter, nat_le, nat_lt};
ghost use Rattle.uc_compact.specs.Choice.{PointsFall};

use uc_run_points::PointRef;

/// The number of points above a sequence. They come first.
pub(crate) fn points_above(points: &[PointRef<'_>], seq: u64) -> usize
    requires { PointsFall points.now }
    ensures bound { result ≤ length points.now }
    ensures newer { take result points.now ≡
        filter (λ p. nat_lt seq p.seq) points.now }
    ensures older { drop result points.now ≡
        filter (λ p. nat_le p.seq seq) points.now }
{
    points.partition_point(|point| seq < point.seq())
}
