//! [`cut_keys`]: keys that cut the key space into parts with about as many points each.
ghost use Rattle.std.specs.Prelude.{◌≡◌, ◌<◌, ◌≤◌, ◌+◌, map, vec_len, IfOk, OnOk};
ghost use Rattle.std.specs.List.Sorted.{IsStrictlySortedBy};
ghost use Rattle.uc_bytes.specs.Bytes.{bytes_cmp};

use std::alloc::{AllocError, Global};
use std::sync::Arc;
use uc_run::Run;

/// About how many fences are sampled from all runs together.
const SAMPLE: u64 = 256;

/// The number of blocks that the points of all runs fill.
fn blocks_in(inputs: &[Arc<Run>]) -> u64 {
    let mut blocks = 0_u64;
    for run in inputs {
        blocks = blocks.saturating_add(run.blocks());
    }
    blocks
}

/// Draws every `step`-th fence of a run, from the block `first` on.
fn push_fences<'a>(
    sample: &mut Vec<&'a [u8]>,
    run: &'a Run,
    first: u64,
    step: u64,
) -> Result<(), AllocError>
    requires { 0 < step }
{
    for block in (first..run.blocks()).step_by(step as usize) {
        if let Some(fence) = run.fence(block) {
            sample.push(fence)?;
        }
    }
    Ok(())
}

/// A sample of the runs' fences, in order of key: every `step`-th of the concatenated fences. So each run contributes in proportion
/// to its number of points.
fn sample_of<'a>(alloc: Global, inputs: &'a [Arc<Run>]) -> Result<Vec<&'a [u8]>, AllocError> {
    let step = (blocks_in(inputs) / SAMPLE).max(1);
    let mut sample = Vec::new(alloc);
    let mut passed = 0_u64;
    for run in inputs {
        push_fences(&mut sample, run, (step - passed % step) % step, step)?;
        passed = passed.saturating_add(run.blocks());
    }
    sample.sort_unstable();
    Ok(sample)
}

/// Pushes a key if it is above the last one, or above the least fence if there is none.
fn push_above<'a>(cuts: &mut Vec<&'a [u8]>, least: &[u8], key: &'a [u8]) -> Result<(), AllocError>
    requires { IsStrictlySortedBy bytes_cmp (map (λ cut. cut.now) cuts.old.items) }
    ensures rise { OnOk result (IsStrictlySortedBy bytes_cmp (map (λ cut. cut.now) cuts.new.items)) }
    ensures count { OnOk result (vec_len cuts.new ≤ vec_len cuts.old + 1) }
{
    let above = match cuts.last() {
        None => least.cmp(&key).is_lt(),
        Some(last) => last.cmp(&key).is_lt(),
    };
    if above {
        cuts.push(key)?;
    }
    Ok(())
}

/// Keys that cut the key space into at most this many parts, with about as many of the runs' points each. They rise. A key
/// with many points isn't cut, so there may be fewer parts, and none below the least fence.
///
/// They are the quantiles of a sample of the runs' fences, which takes about a thousand comparisons of keys.
pub(crate) fn cut_keys<'a>(
    alloc: Global,
    inputs: &'a [Arc<Run>],
    parts: usize,
) -> Result<Vec<&'a [u8]>, AllocError>
    requires { 0 < parts }
    ensures rise { IfOk result (λ cuts. IsStrictlySortedBy bytes_cmp (map (λ cut. cut.now) cuts.items)) }
    ensures count { IfOk result (λ cuts. vec_len cuts < parts) }
{
    let mut cuts = Vec::new(alloc);
    if parts == 1 {
        return Ok(cuts);
    }
    let sample = sample_of(alloc, inputs)?;
    let Some(least) = sample.first() else {
        return Ok(cuts);
    };
    for part in 1..parts {
        if let Some(key) = sample.get(sample.len().saturating_mul(part) / parts) {
            push_above(&mut cuts, least, key)?;
        }
    }
    Ok(cuts)
}
