//! Spans made as few and as long as possible.
ghost use Rattle.std.specs.Prelude.{◌≡◌, ◌&&◌, ◌==◌, nat_le, IfOk};
ghost use Rattle.std.specs.List.{AllByRecursion};
ghost use Rattle.std.specs.List.Sorted.{IsPermutation};
ghost use Rattle.uc_run_entry.specs.Joined as joining;
ghost use Rattle.uc_run_entry.specs.Joined.{AreSorted, SayWhat};
ghost use Rattle.uc_run_entry.specs.Spans.{IsWithin};

use crate::freeing::make_small;
use crate::span::Span;
use std::alloc::{AllocError, Global};
use std::cmp::Reverse;

/// The spans in order: the newest first, and those of one sequence by their first fragment.
fn sorted(spans: Vec<Span>) -> Vec<Span>
    ensures permutation { IsPermutation spans.items result.items }
    ensures sorted { AreSorted result.items }
{
    let mut sorted = spans;
    sorted.sort_unstable_by_key(|span| (Reverse(span.seq), span.first));
    sorted
}

/// Whether no fragment lies between a span and the next one, and both have one sequence.
fn can_be_joined(span: &Span, next: &Span) -> bool
    ensures { result ≡ (next.now.seq == span.now.seq && nat_le next.now.first span.now.end) }
{
    next.seq == span.seq && next.first <= span.end
}

/// Sorted spans, joined where they can be.
fn joined(alloc: Global, spans: &[Span]) -> Result<Vec<Span>, AllocError>
    ensures { IfOk result (λ made. made.items ≡ joining.joined spans.now) }
{
    let mut made = Vec::new(alloc);
    let Some(first) = spans.first() else {
        return Ok(made);
    };
    let mut open = *first;
    for next in &spans[1..] {
        if can_be_joined(&open, next) {
            open.end = open.end.max(next.end);
        } else {
            made.push(open)?;
            open = *next;
        }
    }
    made.push(open)?;
    Ok(made)
}

/// Spans that say the same as others, as few and as long as possible: the newest first, and those of one sequence with
/// gaps between them.
pub(crate) fn in_few(
    alloc: Global,
    fragments: usize,
    spans: Vec<Span>,
) -> Result<Vec<Span>, AllocError>
    requires { AllByRecursion (IsWithin fragments) spans.items }
    ensures { IfOk result (λ made. SayWhat fragments spans.items made.items) }
{
    let mut ordered = sorted(spans);
    let made = joined(alloc, &ordered);
    make_small(&mut ordered, size_of::<Span>());
    made
}
