//! The pieces that a range covers.
ghost use Rattle.std.specs.Prelude.{◌≡◌, ◌≤◌, length, map, IfOk};
ghost use Rattle.std.specs.List.{count_by};
ghost use Rattle.std.specs.List.Sorted.{IsStrictlySortedBy};
ghost use Rattle.std.specs.Ordering.{is_lt, is_le};
ghost use Rattle.uc_bytes.specs.Bytes.{bytes_cmp};
ghost use Rattle.uc_run_entry.specs.Spanning as spanning;

use crate::Span;
use crate::range::Range;
use std::alloc::{AllocError, Global};

/// Whether a cut point is below a key.
fn is_below(cut: &[u8], key: &[u8]) -> bool
    ensures { result ≡ is_lt (bytes_cmp cut.now key.now) }
{
    cut.cmp(&key).is_lt()
}

/// Whether a cut point is at or below a key.
fn is_at_or_below(cut: &[u8], key: &[u8]) -> bool
    ensures { result ≡ is_le (bytes_cmp cut.now key.now) }
{
    cut.cmp(&key).is_le()
}

/// The number of cut points below a key.
fn count_below(cuts: &[&[u8]], key: &[u8]) -> usize
    requires { IsStrictlySortedBy bytes_cmp (map (λ cut. cut.now) cuts.now) }
    ensures { result ≡ count_by (λ cut. is_lt (bytes_cmp cut key.now)) (map (λ cut. cut.now) cuts.now) }
{
    cuts.partition_point(|cut| is_below(cut, key))
}

/// The number of cut points at or below a key.
fn count_up_to(cuts: &[&[u8]], key: &[u8]) -> usize
    requires { IsStrictlySortedBy bytes_cmp (map (λ cut. cut.now) cuts.now) }
    ensures count { result ≡ count_by (λ cut. is_le (bytes_cmp cut key.now)) (map (λ cut. cut.now) cuts.now) }
    ensures bound { result ≤ length cuts.now }
{
    cuts.partition_point(|cut| is_at_or_below(cut, key))
}

/// The pieces that a range covers.
///
/// It is a binary search of the cut points.
fn span_of(cuts: &[&[u8]], range: &Range<'_>) -> Span
    requires { IsStrictlySortedBy bytes_cmp (map (λ cut. cut.now) cuts.now) }
    ensures { result ≡ spanning.span_of (map (λ cut. cut.now) cuts.now) range.now }
{
    Span {
        seq: range.seq(),
        first: count_below(cuts, range.begin()),
        end: count_up_to(cuts, range.end()).saturating_sub(1),
    }
}

/// Whether a span covers any piece.
fn has_pieces(span: &Span) -> bool
    ensures { result ≡ spanning.has_pieces span.now }
{
    span.first < span.end
}

/// The spans of the ranges that cover pieces.
pub(crate) fn spans_of(
    alloc: Global,
    cuts: &[&[u8]],
    ranges: &[Range<'_>],
) -> Result<Vec<Span>, AllocError>
    requires { IsStrictlySortedBy bytes_cmp (map (λ cut. cut.now) cuts.now) }
    ensures { IfOk result (λ spans. spans.items ≡ spanning.spans_of (map (λ cut. cut.now) cuts.now) ranges.now) }
{
    let mut spans = Vec::with_capacity(alloc, ranges.len())?;
    for range in ranges {
        let span = span_of(cuts, range);
        if has_pieces(&span) {
            spans.push(span)?;
        }
    }
    Ok(spans)
}
