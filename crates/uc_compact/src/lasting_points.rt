//! [`push_lasting`]: pushes the next point of a key, unless no read sees it.
ghost use Rattle.std.specs.Prelude.{◌≡◌, ◌-◌, length, OnOk, OnErr};
ghost use Rattle.std.specs.List.{slice_get};
ghost use Rattle.std.specs.List.Sorted.{IsStrictlySortedBy};
ghost use Rattle.std.specs.Ordering.{nat_cmp};
ghost use Rattle.uc_compact.specs.Lasting as lasting;

use crate::stripe::Stripe;
use std::alloc::AllocError;
use uc_run_points::PointRef;

/// Whether a newer point hides an older one from all reads: it overwrites what is older, and they are of one stripe.
fn hides(keeps: &[u64], newer: &PointRef<'_>, older: &PointRef<'_>) -> bool
    requires { IsStrictlySortedBy nat_cmp keeps.now }
    ensures { result ≡ lasting.hides keeps.now newer.now older.now }
{
    if !newer.overwrites() {
        return false;
    }
    let stripe = Stripe::of(keeps, newer.seq());
    stripe.has(newer.seq()) && stripe.has(older.seq())
}

/// Whether the last of some points of a key, if there is one, hides the next.
fn is_hidden(keeps: &[u64], points: &[PointRef<'_>], next: &PointRef<'_>) -> bool
    requires { IsStrictlySortedBy nat_cmp keeps.now }
    ensures { result ≡ lasting.is_hidden keeps.now (slice_get points.now (length points.now - 1)) next.now }
{
    match points.last() {
        None => false,
        Some(last) => hides(keeps, last, next),
    }
}

/// Pushes the next point of a key, unless the last one hides it. The points come newest first. An `Err` pushes nothing.
pub(crate) fn push_lasting<'a>(
    keeps: &[u64],
    points: &mut Vec<PointRef<'a>>,
    next: PointRef<'a>,
) -> Result<(), AllocError>
    requires { IsStrictlySortedBy nat_cmp keeps.now }
    ensures pushed { OnOk result (points.new.items ≡ lasting.with_next keeps.now points.old.items next.entry) }
    ensures as_it_was { OnErr result (points.new.items ≡ points.old.items) }
{
    if !is_hidden(keeps, points, &next) {
        points.push(next)?;
    }
    Ok(())
}
