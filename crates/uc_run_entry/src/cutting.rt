//! [`cut_ranges`]: the fragments of ranges.
ghost use Rattle.std.specs.Prelude.{◌≡◌, ◌<◌, ◌+◌, ◌-◌, [], length, map, IfOk};
ghost use Rattle.std.specs.Arc.{arc_value};
ghost use Rattle.std.specs.List.{slice_index_or};
ghost use Rattle.uc_run_entry.specs.Cutting as cutting;
ghost use Rattle.uc_run_entry.specs.Cutting.{fragments_of, pieces};
ghost use Rattle.uc_run_entry.specs.Spanning as spanning;
ghost use Rattle.uc_run_entry.specs.Spanning.{with_seqs};
ghost use Rattle.uc_run_entry.specs.declared.fragments.TheConstants.{FEW};

use crate::fragment::Fragment;
use crate::fragments::{FEW, Fragments};
use crate::lists::Lists;
use crate::range::Range;
use crate::spanning::spans_of;
use crate::{Seqs, Spans};
use std::alloc::{AllocError, Global};
use std::collections::BTreeSet;
use std::sync::Arc;

/// The cut points: both ends of each range that covers a key, in byte order, each once.
fn cut_points<'a>(alloc: Global, ranges: &[Range<'a>]) -> Result<BTreeSet<&'a [u8]>, AllocError>
    ensures { IfOk result (λ cuts. map (λ cut. cut.now) cuts.keys ≡ cutting.cut_points ranges.now) }
{
    let mut cuts = BTreeSet::new(alloc);
    for range in ranges {
        if range.has_keys() {
            cuts.insert(range.begin())?;
            cuts.insert(range.end())?;
        }
    }
    Ok(cuts)
}

/// The cut points in a vector.
fn in_order<'a>(alloc: Global, cuts: BTreeSet<&'a [u8]>) -> Result<Vec<&'a [u8]>, AllocError>
    ensures { IfOk result (λ list. map (λ cut. cut.now) list.items ≡ map (λ cut. cut.now) cuts.entry.keys) }
{
    cuts.into_iter().collect(alloc)
}

/// The sequences of each piece that has few, and none for the others.
fn few_seqs(alloc: Global, spans: &Spans) -> Result<Lists<u64>, AllocError>
    ensures { IfOk result (λ lists. lists ≡ map (spanning.if_few FEW) spans.now) }
{
    let mut lists = Lists::new(alloc)?;
    for piece in 0..spans.fragments() {
        if spans.count(piece) <= FEW {
            lists.push(&spans.seqs(piece).to_vec(alloc)?)?;
        } else {
            lists.push(&[])?;
        }
    }
    Ok(lists)
}

/// The sequences of a piece: a list if they are few, else a share of the spans.
fn seqs_over(spans: &Arc<Spans>, few: &Arc<Lists<u64>>, piece: usize) -> Result<Seqs, AllocError>
    requires piece { piece < length (arc_value spans.now) }
    requires few { arc_value few.now ≡ map (spanning.if_few FEW) (arc_value spans.now) }
    ensures { IfOk result (λ seqs. seqs ≡ slice_index_or (arc_value spans.now) piece []) }
{
    if spans.count(piece) <= FEW {
        Seqs::listed(few, piece)
    } else {
        Ok(Seqs::shared(spans.clone()?, piece))
    }
}

/// One fragment for each piece that a range covers.
fn covered(
    alloc: Global,
    cuts: &Arc<Lists<u8>>,
    spans: &Arc<Spans>,
    few: &Arc<Lists<u64>>,
) -> Result<Vec<Fragment>, AllocError>
    requires pieces { length (arc_value spans.now) ≡ length (arc_value cuts.now) - 1 }
    requires few { arc_value few.now ≡ map (spanning.if_few FEW) (arc_value spans.now) }
    ensures { IfOk result (λ fragments. fragments.items ≡
        spanning.covered (with_seqs (pieces (arc_value cuts.now)) (arc_value spans.now))) }
{
    let mut fragments = Vec::new(alloc);
    for piece in 0..spans.fragments() {
        let seqs = seqs_over(spans, few, piece)?;
        if !seqs.is_empty() {
            fragments.push(Fragment::new(cuts.clone()?, piece, seqs))?;
        }
    }
    Ok(fragments)
}

/// The fragments of some ranges: the pieces between neighbouring ends that some range covers, in order. Each has the
/// sequences of the ranges over it, the newest first and each once.
///
/// For n ranges it takes n log n steps and numbers, however they overlap.
pub fn cut_ranges(alloc: Global, ranges: &[Range<'_>]) -> Result<Fragments, AllocError>
    ensures { IfOk result (λ fragments. fragments ≡ fragments_of ranges.now) }
{
    let cuts = in_order(alloc, cut_points(alloc, ranges)?)?;
    let lists = spans_of(alloc, &cuts, ranges)?;
    let spans = Arc::new(
        alloc,
        Spans::new(alloc, cuts.len().saturating_sub(1), lists)?,
    )?;
    let few = Arc::new(alloc, few_seqs(alloc, &spans)?)?;
    let texts = Arc::new(alloc, Lists::of(alloc, &cuts)?)?;
    let fragments = covered(alloc, &texts, &spans, &few)?;
    Ok(Fragments::with_spans(fragments, spans))
}
