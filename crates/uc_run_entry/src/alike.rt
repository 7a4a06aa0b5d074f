//! Whether sequences that are stored in different ways are equal.
ghost use Rattle.std.specs.Prelude.{◌≡◌, ◌↔◌, Some, drop, IsTrue};
ghost use Rattle.std.specs.List.{slice_get};

use crate::ahead::SeqsAhead;

/// Whether sequences are equal.
pub(crate) fn are_equal(seqs: &[u64], others: &[u64]) -> bool
    ensures { IsTrue result ↔ (seqs.now ≡ others.now) }
{
    seqs == others
}

/// Whether the next of the sequences ahead is this one.
fn comes(ahead: &mut SeqsAhead<'_>, seq: u64) -> bool
    ensures next { IsTrue result ↔ (slice_get ahead.old 0 ≡ Some seq) }
    ensures rest { ahead.new ≡ drop 1 ahead.old }
{
    match ahead.next() {
        None => false,
        Some(next) => next == seq,
    }
}

/// Whether the sequences ahead are these.
pub(crate) fn are_ahead(ahead: SeqsAhead<'_>, seqs: &[u64]) -> bool
    ensures { IsTrue result ↔ (ahead.entry ≡ seqs.now) }
{
    let mut ahead = ahead;
    for seq in seqs {
        if !comes(&mut ahead, *seq) {
            return false;
        }
    }
    ahead.next().is_none()
}

/// Whether the same sequences are ahead of both.
pub(crate) fn are_alike(ahead: SeqsAhead<'_>, other: SeqsAhead<'_>) -> bool
    ensures { IsTrue result ↔ (ahead.entry ≡ other.entry) }
{
    let mut ahead = ahead;
    let mut other = other;
    while let Some(seq) = ahead.next() {
        if !comes(&mut other, seq) {
            return false;
        }
    }
    other.next().is_none()
}
