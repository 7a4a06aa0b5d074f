//! [`Spans`]: sequences over neighbouring fragments, with an index of them.
ghost use Rattle.std.specs.Prelude.{◌≡◌, ◌↔◌, ◌<◌, ◌-◌, ◌^◌, [], length, min, IsTrue, IfOk};
ghost use Rattle.std.specs.List.{AllByRecursion, slice_index_or};
ghost use Rattle.uc_run_entry.specs.Ahead.{ahead};
ghost use Rattle.uc_run_entry.specs.Newest as newest;
ghost use Rattle.uc_run_entry.specs.Spans as standing;
ghost use Rattle.uc_run_entry.specs.Spans.{IsWithin, IsFalling, listed};

use crate::ahead::SeqsAhead;
use crate::few_spans::in_few;
use crate::freeing::make_small;
use crate::lists::Lists;
use crate::span::Span;
use crate::tree::nodes;
use crate::walks::{count_over, newest_over};
use std::alloc::{AllocError, Global};
use std::marker::Model;

/// Whether spans are equal.
fn are_same(spans: &[Span], others: &[Span]) -> bool
    ensures { IsTrue result ↔ (spans.now ≡ others.now) }
{
    spans == others
}

/// The sequence of the first span, if there is one.
fn first_seq(spans: &[Span]) -> Option<u64>
    ensures { result ≡ standing.first_seq spans.now }
{
    match spans.first() {
        None => None,
        Some(span) => Some(span.seq),
    }
}

/// The sequences of each of some fragments, by the spans that they cover. A contract sees the list of the fragments'
/// sequences, each of them falling.
///
/// For n spans over m fragments it takes memory for m and for n log m numbers.
pub struct Spans {
    fragments: usize,
    spans: Vec<Span>,
    nodes: Lists<u64>,
}

impl Model for Spans {
    ghost use Rattle.std.specs.Prelude.{ℕ, List};
    ghost use Rattle.std.specs.Coded.{coded_ℕ, coded_list};

    ghost Value = { List (List ℕ) };

    ghost use Rattle.uc_run_entry.specs.Indexed.{lists_of, IsIndexed};

    ghost view = { lists_of };

    ghost invariant = { IsIndexed };
}

impl Drop for Spans {
    fn drop(mut self) {
        make_small(&mut self.spans, size_of::<Span>());
        let Spans {
            fragments: _,
            spans: _,
            nodes: _,
        } = self;
    }
}

impl Spans {
    /// The spans over `fragments` fragments. Spans of one sequence may overlap: each fragment has it once.
    ///
    /// For n spans over m fragments it takes n log n and n log m steps, and one for each fragment.
    pub fn new(alloc: Global, fragments: usize, spans: Vec<Span>) -> Result<Spans, AllocError>
        requires { AllByRecursion (IsWithin fragments) spans.items }
        ensures { IfOk result (λ made. made ≡ listed fragments spans.items) }
    {
        let spans = in_few(alloc, fragments, spans)?;
        let nodes = nodes(alloc, fragments, &spans)?;
        Ok(Spans {
            fragments,
            spans,
            nodes,
        })
    }

    /// The number of fragments.
    pub fn fragments(&self) -> usize
        ensures count { result ≡ length self.now }
        ensures falling { AllByRecursion IsFalling self.now }
    {
        self.fragments
    }

    /// The newest sequence of a fragment at or below a number, if there is one.
    ///
    /// It searches a number of lists logarithmic in the number of fragments.
    pub fn newest_at_or_below(&self, fragment: usize, at: u64) -> Option<u64>
        requires { fragment < length self.now }
        ensures { result ≡ newest.newest_at_or_below at (slice_index_or self.now fragment []) }
    {
        newest_over(&self.nodes, self.fragments, fragment, at)
    }

    /// The number of a fragment's sequences, at most 2^64 - 1.
    ///
    /// It looks at a number of lists logarithmic in the number of fragments.
    pub fn count(&self, fragment: usize) -> u64
        requires { fragment < length self.now }
        ensures { result ≡ min (length (slice_index_or self.now fragment [])) (2 ^ 64 - 1) }
    {
        count_over(&self.nodes, self.fragments, fragment)
    }

    /// Whether the fragments of both have the same sequences.
    ///
    /// It goes over the spans once, since equal fragments have equal spans.
    pub fn is_same(&self, other: &Spans) -> bool
        ensures { IsTrue result ↔ (self.now ≡ other.now) }
    {
        self.fragments == other.fragments && are_same(&self.spans, &other.spans)
    }

    /// The greatest sequence of all fragments, if there is one.
    pub(crate) fn greatest(&self) -> Option<u64>
        ensures { AllByRecursion (λ seqs. ahead result seqs ≡ seqs) self.now }
    {
        first_seq(&self.spans)
    }

    /// The sequences of a fragment, the newest first.
    pub fn seqs(&self, fragment: usize) -> SeqsAhead<'_>
        requires { fragment < length self.now }
        ensures { result ≡ slice_index_or self.now fragment [] }
    {
        SeqsAhead::new(self, fragment)
    }
}
