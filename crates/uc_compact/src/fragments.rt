//! The fragments that a compaction keeps.
ghost use Rattle.std.specs.Prelude.{◌≡◌, ◌++◌, ◌-◌, [], ◌∷◌, length, map, filter, fold, nat_lt, IfOk, OnOk};
ghost use Rattle.std.specs.Arc.{arc_value};
ghost use Rattle.std.specs.BTreeSet.{insert_key};
ghost use Rattle.std.specs.List.Sorted.{IsStrictlySortedBy};
ghost use Rattle.std.specs.Ordering.{nat_cmp};
ghost use Rattle.uc_bytes.specs.Bytes.{bytes_cmp};
ghost use Rattle.uc_run_entry.specs.Cutting.{fragments_of, pieces};
ghost use Rattle.uc_run_entry.specs.Spanning.{covered, with_seqs};
ghost use Rattle.uc_compact.specs.Inputs.{ranges_of};
ghost use Rattle.uc_compact.specs.NextCut.{ends_in};
ghost use Rattle.uc_compact.specs.Output.{fragment_kept};
ghost use Rattle.uc_compact.specs.Pieces.{kept_over, pieces_over};

use crate::front::Front;
use crate::fronts::{fronts_of, lists_over, next_cut};
use crate::inputs::are_runs;
use crate::{Keeping, Over, kept_seqs};
use std::alloc::{AllocError, Global};
use std::sync::Arc;
use uc_run::Run;
use uc_run_entry::{Fragments, Lists, Seqs};

/// Pushes what is kept of the sequences over a key. What is in `lists` is replaced.
fn push_kept<'a>(
    alloc: Global,
    kept: &mut Lists<u64>,
    fronts: &mut [Front<'a>],
    lists: &mut Vec<&'a Seqs>,
    key: &[u8],
    keeping: &Keeping<'_>,
) -> Result<(), AllocError>
    requires { IsStrictlySortedBy nat_cmp keeping.now.keeps }
    ensures same { OnOk result (fronts.new ≡ fronts.old) }
    ensures pushed { OnOk result (kept.new ≡ kept.old ++ kept_over keeping.now fronts.old key.now ∷ []) }
{
    lists_over(fronts, key, lists)?;
    let seqs = kept_seqs(alloc, &Over::new(lists), keeping)?;
    kept.push(&seqs)
}

/// The empty key and the cut points above it, and what is kept of the sequences over each piece between neighbouring ones:
/// those over its first key.
fn kept_along(
    alloc: Global,
    fronts: &mut [Front<'_>],
    keeping: &Keeping<'_>,
) -> Result<(Lists<u8>, Lists<u64>), AllocError>
    requires { IsStrictlySortedBy nat_cmp keeping.now.keeps }
    ensures long { IfOk result (λ made. length made.1 ≡ length made.0 - 1) }
    ensures kept { IfOk result (λ made.
        covered (with_seqs (pieces made.0) made.1) ≡
        filter (λ f. nat_lt 0 (length f.seqs))
        (map (fragment_kept keeping.now)
        (pieces_over fronts.old (fold (insert_key bytes_cmp) [] (ends_in fronts.old))))) }
{
    let mut cuts = Lists::new(alloc)?;
    let mut kept = Lists::new(alloc)?;
    let mut lists = Vec::new(alloc);
    // No key is below the empty one.
    let mut begin: &[u8] = &[];
    cuts.push(begin)?;
    while let Some(end) = next_cut(fronts, begin) {
        push_kept(alloc, &mut kept, fronts, &mut lists, begin, keeping)?;
        cuts.push(end)?;
        begin = end;
    }
    Ok((cuts, kept))
}

/// The fragments that have kept sequence numbers: those of all range deletions of the runs, each with the sequence numbers that are
/// kept of it.
///
/// It takes a few steps of each run for each piece between neighbouring cut points, however many sequence numbers the fragments
/// have, and no memory except for the result and a list for each run.
pub(crate) fn fragments_kept(
    alloc: Global,
    inputs: &[Arc<Run>],
    keeping: &Keeping<'_>,
) -> Result<Fragments, AllocError>
    requires { IsStrictlySortedBy nat_cmp keeping.now.keeps }
    ensures { IfOk result (λ kept.
        kept ≡
        filter (λ f. nat_lt 0 (length f.seqs))
        (map (fragment_kept keeping.now) (fragments_of (ranges_of (map arc_value inputs.now))))) }
{
    are_runs(inputs);
    let mut fronts = fronts_of(alloc, inputs)?;
    let (cuts, kept) = kept_along(alloc, &mut fronts, keeping)?;
    Fragments::of_lists(alloc, &Arc::new(alloc, cuts)?, &Arc::new(alloc, kept)?)
}
