//! [`CompactError`]: why a stretch isn't compacted at once.
ghost use Rattle.std.specs.Prelude.{◌≡◌};
ghost use Rattle.uc_version.specs.declared.compact_error.CompactError.TheVariants.{Memory};

use std::alloc::AllocError;
use thiserror::Error;
use uc_version_compact::ClaimError;

/// Why a stretch isn't compacted at once.
#[derive(Clone, Copy, Debug, PartialEq, Eq, Error)]
pub enum CompactError {
    /// It can't be claimed.
    #[error("the runs can't be claimed: {0}")]
    NotClaimed(ClaimError),
    /// No id is left for its result: 2^64 - 1 is never given.
    #[error("no run numbers are left")]
    IdsSpent,
    /// Memory ran out.
    #[error("out of memory")]
    Memory,
}

impl From<AllocError> for CompactError {
    ghost from_gives = { λ _ e. e ≡ Memory };

    fn from(_e: AllocError) -> CompactError {
        CompactError::Memory
    }
}
