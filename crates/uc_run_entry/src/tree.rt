//! The tree over fragments: which node has which sequences.
ghost use Rattle.std.specs.Prelude.{◌≡◌, ℕ, ◌<◌, ◌≤◌, ◌-◌, ◌++◌, filter, IfOk, OnOk};
ghost use Rattle.uc_run_entry.specs.Tree as tree;

use crate::freeing::make_small;
use crate::lists::Lists;
use crate::node::middle;
use crate::span::Span;
use std::alloc::{AllocError, Global};

/// Whether a span covers each fragment from `low` to below `high`.
fn spans_all(low: usize, high: usize, span: &Span) -> bool
    ensures { result ≡ tree.spans_all low high span.now }
{
    span.first <= low && high <= span.end
}

/// Whether a span covers any fragment from `low` to below `high`.
fn meets(low: usize, high: usize, span: &Span) -> bool
    ensures { result ≡ tree.meets low high span.now }
{
    span.first < high && low < span.end
}

/// The sequences that the node from `low` to below `high` holds.
fn held(alloc: Global, low: usize, high: usize, spans: &[Span]) -> Result<Vec<u64>, AllocError>
    ensures { IfOk result (λ seqs. seqs.items ≡ tree.held low high spans.now) }
{
    spans
        .iter()
        .filter(|span| spans_all(low, high, span))
        .map(|span| span.seq)
        .collect(alloc)
}

/// The spans that the node from `low` to below `high` doesn't hold and that meet its half from `from` to below `to`.
fn passed_on(
    alloc: Global,
    low: usize,
    high: usize,
    from: usize,
    to: usize,
    spans: &[Span],
) -> Result<Vec<Span>, AllocError>
    ensures { IfOk result (λ passed.
        passed.items ≡ filter (tree.meets from to) (tree.left_over low high spans.now)) }
{
    spans
        .iter()
        .filter(|span| !spans_all(low, high, span))
        .filter(|span| meets(from, to, span))
        .copied()
        .collect(alloc)
}

/// The spans for the two halves of the node from `low` to below `high`. It frees those that it was given.
fn halved(
    alloc: Global,
    low: usize,
    high: usize,
    mut spans: Vec<Span>,
) -> Result<(Vec<Span>, Vec<Span>), AllocError>
    requires { low ≤ high }
    ensures first { IfOk result (λ halves.
        halves.0.items ≡ filter (tree.meets low (tree.middle low high)) (tree.left_over low high spans.items)) }
    ensures second { IfOk result (λ halves.
        halves.1.items ≡ filter (tree.meets (tree.middle low high) high) (tree.left_over low high spans.items)) }
{
    let middle = middle(low, high);
    let first = passed_on(alloc, low, high, low, middle, &spans)?;
    let second = passed_on(alloc, low, high, middle, high, &spans)?;
    make_small(&mut spans, size_of::<Span>());
    Ok((first, second))
}

/// Pushes what each node of the tree over the fragments from `low` to below `high` holds.
///
/// At each level, at most four nodes look at a span and at most two hold it.
fn push_nodes(
    alloc: Global,
    lists: &mut Lists<u64>,
    low: usize,
    high: usize,
    spans: Vec<Span>,
) -> Result<(), AllocError>
    requires { low < high }
    ensures { (depth : ℕ) → high - low ≤ depth → OnOk result (lists.new ≡ lists.old ++ tree.nodes depth low high spans.items) }
{
    lists.push(&held(alloc, low, high, &spans)?)?;
    if high - low <= 1 {
        return Ok(());
    }
    let middle = middle(low, high);
    let (first, second) = halved(alloc, low, high, spans)?;
    push_nodes(alloc, lists, low, middle, first)?;
    push_nodes(alloc, lists, middle, high, second)
}

/// The lists of the nodes of the tree over `fragments` fragments.
pub(crate) fn nodes(
    alloc: Global,
    fragments: usize,
    spans: &[Span],
) -> Result<Lists<u64>, AllocError>
    ensures { IfOk result (λ lists. lists ≡ tree.nodes fragments 0 fragments spans.now) }
{
    let mut lists = Lists::new(alloc)?;
    if fragments > 0 {
        push_nodes(alloc, &mut lists, 0, fragments, spans.to_vec(alloc)?)?;
    }
    Ok(lists)
}
