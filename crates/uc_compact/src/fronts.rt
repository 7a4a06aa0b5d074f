//! The [`Front`]s of several runs, side by side.
ghost use Rattle.std.specs.Prelude.{◌≡◌, map, IfOk, OnOk};
ghost use Rattle.std.specs.Arc.{arc_value};
ghost use Rattle.std.specs.Option.{option_copied};
ghost use Rattle.uc_compact.specs.NextCut as next;
ghost use Rattle.uc_compact.specs.NextCut.{ends_in, least_above};
ghost use Rattle.uc_compact.specs.Pieces.{AreOver, fragments_in};

use crate::front::Front;
use std::alloc::{AllocError, Global};
use std::sync::Arc;
use uc_run::{Run, text_order};
use uc_run_entry::Seqs;

/// The runs that have fragments, each before its first.
pub(crate) fn fronts_of<'a>(
    alloc: Global,
    inputs: &'a [Arc<Run>],
) -> Result<Vec<Front<'a>>, AllocError>
    ensures { IfOk result (λ fronts. fragments_in fronts.items ≡ fragments_in (map arc_value inputs.now)) }
{
    let mut fronts = Vec::new(alloc);
    for run in inputs {
        if !run.fragments().is_empty() {
            fronts.push(Front::new(run))?;
        }
    }
    Ok(fronts)
}

/// The sequences of each run's fragment over a key, if it has one. They replace what is in `lists`.
///
/// A walk over rising keys uses one such buffer for all of them.
pub(crate) fn lists_over<'a>(
    fronts: &mut [Front<'a>],
    key: &[u8],
    lists: &mut Vec<&'a Seqs>,
) -> Result<(), AllocError>
    ensures same { OnOk result (fronts.new ≡ fronts.old) }
    ensures lists { OnOk result (AreOver key.now fronts.old (map (λ seqs. seqs.now) lists.new.items)) }
{
    lists.clear();
    for front in fronts.iter_mut() {
        if let Some(fragment) = front.covering(key) {
            lists.push(fragment.seqs())?;
        }
    }
    Ok(())
}

/// The lesser of two keys, if there are any.
fn lesser<'a>(a: Option<&'a [u8]>, b: Option<&'a [u8]>) -> Option<&'a [u8]>
    ensures { option_copied result ≡ next.lesser (option_copied a.entry) (option_copied b.entry) }
{
    let Some(key) = a else {
        return b;
    };
    let Some(other) = b else {
        return a;
    };
    if text_order(key, other).is_le() { a } else { b }
}

/// The next cut point above a key: the least key above it at which a fragment of one of the runs begins or ends.
pub(crate) fn next_cut<'a>(fronts: &mut [Front<'a>], key: &[u8]) -> Option<&'a [u8]>
    ensures same { fronts.new ≡ fronts.old }
    ensures least { option_copied result ≡ least_above key.now (ends_in fronts.old) }
{
    let mut least = None;
    for front in fronts.iter_mut() {
        least = lesser(least, front.next_cut(key));
    }
    least
}
