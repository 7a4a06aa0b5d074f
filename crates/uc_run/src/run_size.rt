//! The size of points and fragments, in bytes as a picker of compactions counts them.
ghost use Rattle.std.specs.Prelude.{◌≡◌, ◌+◌, ◌-◌, ◌^◌, min};
ghost use Rattle.std.specs.List.{sum_by};
ghost use Rattle.uc_run_entry.specs.Size as size;
ghost use Rattle.uc_run_entry.specs.Packed as packed;

use uc_run_entry::{Fragment, WhatRef};
use uc_run_points::{PointRef, Points};

/// The length of a point's value or operand.
#[inline]
fn what_size(what: WhatRef<'_>) -> u64
    ensures { result ≡ size.what_size (packed.what_of what.entry) }
{
    match what {
        WhatRef::Put(value) => value.len() as u64,
        WhatRef::Delete => 0,
        WhatRef::Merge(operand) => operand.len() as u64,
    }
}

/// The length of a point's key and of its value or operand, and 8; at most 2^64 - 1.
#[inline]
fn entry_size(point: &PointRef<'_>) -> u64
    ensures { result ≡ min (size.entry_size point.now) (2 ^ 64 - 1) }
{
    (point.key().len() as u64)
        .saturating_add(what_size(point.what()))
        .saturating_add(8)
}

/// The lengths of a fragment's ends, and 8 for each sequence; at most 2^64 - 1.
fn fragment_size(fragment: &Fragment) -> u64
    ensures { result ≡ min (size.fragment_size fragment.now) (2 ^ 64 - 1) }
{
    let ends = (fragment.begin().len() as u64).saturating_add(fragment.end().len() as u64);
    ends.saturating_add(fragment.seqs().len().saturating_mul(8))
}

/// The size of all points, at most 2^64 - 1.
fn points_size(points: &Points) -> u64
    ensures { result ≡ min (sum_by size.entry_size points.now) (2 ^ 64 - 1) }
{
    let mut sum = 0_u64;
    let mut ahead = points.ahead();
    while let Some(point) = ahead.next() {
        sum = sum.saturating_add(entry_size(&point));
    }
    sum
}

/// The size of all fragments, at most 2^64 - 1.
fn fragments_size(fragments: &[Fragment]) -> u64
    ensures { result ≡ min (sum_by size.fragment_size fragments.now) (2 ^ 64 - 1) }
{
    let mut sum = 0_u64;
    for fragment in fragments {
        sum = sum.saturating_add(fragment_size(fragment));
    }
    sum
}

/// The size of points and fragments, at most 2^64 - 1.
pub(crate) fn size_of(points: &Points, fragments: &[Fragment]) -> u64
    ensures { result ≡ min (sum_by size.entry_size points.now + sum_by size.fragment_size fragments.now) (2 ^ 64 - 1) }
{
    points_size(points).saturating_add(fragments_size(fragments))
}
