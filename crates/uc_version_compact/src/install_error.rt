//! [`InstallError`]: why a compaction isn't installed.
use thiserror::Error;

/// Why a compaction isn't installed.
#[derive(Clone, Copy, Debug, PartialEq, Eq, Error)]
pub enum InstallError {
    /// Its inputs aren't the claimed runs; or it was made for the oldest run, and the claim doesn't have that.
    #[error("the claimed runs were not compacted")]
    WrongInputs,
    /// It wasn't made for this keep: the least such one below the greatest sequence of the inputs.
    #[error("the compaction does not keep sequence {0}")]
    WrongKeeps(u64),
    /// A run has been replaced since. An owner of a store never returns this.
    #[error("the runs have been replaced")]
    Stale,
    /// No id is left: 2^64 - 1 is never given.
    #[error("no run numbers are left")]
    IdsSpent,
    /// Memory ran out. An owner of a store never returns this.
    #[error("out of memory")]
    Memory,
}
