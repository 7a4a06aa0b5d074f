//! [`kept_seqs`]: what is kept of a fragment's sequences.
ghost use Rattle.std.specs.Prelude.{◌≡◌, ◌<◌, ◌≤◌, ℕ, List, Some, None, filter, nat_lt, nat_le, if◌then◌else◌, IfOk};
ghost use Rattle.std.specs.List.{AllByRecursion, slice_get};
ghost use Rattle.std.specs.List.Sorted.{IsStrictlySortedBy};
ghost use Rattle.std.specs.Ordering.{nat_cmp};
ghost use Rattle.uc_run_entry.specs.Order.{IsFalling};
ghost use Rattle.uc_compact.specs.Output.{seq_kept, seqs_kept};
ghost use Rattle.uc_compact.specs.Stripes.{stripe_of};

use crate::keeping::Keeping;
use crate::over::Over;
use crate::stripe::Stripe;
use std::alloc::{AllocError, Global};

/// The sequence that is kept of a stripe, if any. It is the stripe of `newest`, and `newest` is the newest of the
/// sequences that isn't above the stripe.
fn newest_kept(keeping: &Keeping<'_>, stripe: &Stripe, newest: u64, seqs: &Over<'_>) -> Option<u64>
    ensures { (rest : List ℕ) → IsFalling rest → AllByRecursion (λ n. 0 < n) rest → slice_get rest 0 ≡ Some newest →
        stripe.now ≡ stripe_of keeping.now.keeps newest →
        ((at : ℕ) → at ≤ newest → filter (λ n. nat_le n at) seqs.now ≡ filter (λ n. nat_le n at) rest) →
        result ≡ seq_kept keeping.now rest stripe.now }
{
    if keeping.is_bottom(stripe) {
        None
    } else if stripe.has(newest) {
        Some(newest)
    } else {
        stripe.newest_of(seqs)
    }
}

/// For each stripe but the bottom one, the greatest of a fragment's sequences, the newest first.
///
/// It takes time only for the stripes that have sequences, and none for the sequences that aren't kept.
pub fn kept_seqs(
    alloc: Global,
    seqs: &Over<'_>,
    keeping: &Keeping<'_>,
) -> Result<Vec<u64>, AllocError>
    requires from_one { AllByRecursion (λ n. 0 < n) seqs.now }
    requires keeps_rise { IsStrictlySortedBy nat_cmp keeping.now.keeps }
    ensures { IfOk result (λ kept. kept.items ≡ seqs_kept keeping.now seqs.now) }
{
    seqs.recall_falling();
    let mut kept = Vec::new(alloc);
    let mut next = seqs.newest();
    while let Some(newest) = next {
        let stripe = keeping.stripe_of(newest);
        if let Some(seq) = newest_kept(keeping, &stripe, newest, seqs) {
            kept.push(seq)?;
        }
        next = seqs.newest_at_or_below(stripe.above());
    }
    Ok(kept)
}
