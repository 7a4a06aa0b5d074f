//! Whether sequences fall.
ghost use Rattle.std.specs.Prelude.{◌↔◌, IsTrue};
ghost use Rattle.uc_run_entry.specs.Spans.{IsFalling};

/// Whether each sequence is above the next.
pub(crate) fn are_falling(seqs: &[u64]) -> bool
    ensures { IsTrue result ↔ IsFalling seqs.now }
{
    seqs.is_sorted_by(|seq, next| next < seq)
}
