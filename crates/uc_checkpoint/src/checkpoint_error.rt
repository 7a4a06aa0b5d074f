//! [`CheckpointError`]: why a piece isn't laid out.
ghost use Rattle.std.specs.Prelude.{◌≡◌};
ghost use Rattle.uc_checkpoint.specs.declared.checkpoint_error.CheckpointError.TheVariants.{Memory};

use std::alloc::AllocError;
use thiserror::Error;

/// Why a piece of a checkpoint isn't laid out.
#[derive(Clone, Copy, Debug, PartialEq, Eq, Error)]
pub enum CheckpointError {
    /// A row that is left has a key or a value of 2^32 bytes or more, and so no batch puts it.
    #[error("a text has 2^32 bytes or more")]
    TooLong,
    /// Too few sequence numbers are left: the greatest is 2^56 - 1. It can't occur for a view of a store that took each of its
    /// writes itself.
    #[error("too few sequences are left")]
    SequencesSpent,
    /// An allocation failed.
    #[error("out of memory")]
    Memory,
}

impl From<AllocError> for CheckpointError {
    ghost from_gives = { λ _ e. e ≡ Memory };

    fn from(_e: AllocError) -> CheckpointError {
        CheckpointError::Memory
    }
}
