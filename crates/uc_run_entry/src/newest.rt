//! The newest sequence at or below a number.
ghost use Rattle.std.specs.Prelude.{◌≡◌};
ghost use Rattle.uc_run_entry.specs.Newest as newest;
ghost use Rattle.uc_run_entry.specs.Newest.{Descends};

/// The first of falling sequences that isn't above a number.
pub(crate) fn newest_at_or_below(seqs: &[u64], at: u64) -> Option<u64>
    requires { Descends seqs.now }
    ensures { result ≡ newest.newest_at_or_below at seqs.now }
{
    let above = seqs.partition_point(|seq| at < *seq);
    seqs[above..].first().copied()
}

/// The greater of two sequences, if there are two; else the one there is.
pub fn newer(a: Option<u64>, b: Option<u64>) -> Option<u64>
    ensures { result ≡ newest.newer a b }
{
    match a {
        None => b,
        Some(x) => match b {
            None => Some(x),
            Some(y) => Some(x.max(y)),
        },
    }
}
