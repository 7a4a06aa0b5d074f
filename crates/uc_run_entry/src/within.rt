//! Whether spans lie among `fragments` fragments.
ghost use Rattle.std.specs.Prelude.{◌↔◌, IsTrue};
ghost use Rattle.std.specs.List.{AllByRecursion};
ghost use Rattle.uc_run_entry.specs.Spans.{IsWithin};

use crate::span::Span;

/// Whether a span has fragments, all of them below a count.
fn is_within(fragments: usize, span: &Span) -> bool
    ensures { IsTrue result ↔ IsWithin fragments span.now }
{
    span.first < span.end && span.end <= fragments
}

/// Whether each of some spans has fragments, all of them below a count.
pub fn are_within(fragments: usize, spans: &[Span]) -> bool
    ensures { IsTrue result ↔ AllByRecursion (IsWithin fragments) spans.now }
{
    spans.iter().all(|span| is_within(fragments, span))
}
