//! [`ClaimError`]: why a stretch isn't claimed.
use thiserror::Error;

/// Why a stretch isn't claimed.
#[derive(Clone, Copy, Debug, PartialEq, Eq, Error)]
pub enum ClaimError {
    /// The stretch isn't all there.
    #[error("the store has no such runs")]
    OutOfRange,
    /// It has fewer than two runs, so there is nothing to compact.
    #[error("a compaction takes two runs or more")]
    TooNarrow,
    /// The run with this slot is claimed already: the newest of those that are.
    #[error("slot {0} is claimed")]
    Busy(usize),
    /// Its runs aren't neighbours any more. An owner of a store never returns this.
    #[error("the runs have been replaced")]
    Moved,
    /// Memory ran out. An owner of a store never returns this.
    #[error("out of memory")]
    Memory,
}
