//! Why a batch takes no other operation.
ghost use Rattle.std.specs.Prelude.{◌≡◌};
ghost use Rattle.uc_batch.specs.declared.push_error.PushError.TheVariants.{Memory};

use std::alloc::AllocError;
use thiserror::Error;

/// Why a batch takes no other operation.
#[derive(Clone, Copy, Debug, PartialEq, Eq, Error)]
pub enum PushError {
    /// A key or value has 2^32 bytes or more.
    #[error("a text has 2^32 bytes or more")]
    TooLong,
    /// There are 2^32 - 1 operations, as many as a batch counts.
    #[error("a batch has at most 2^32 - 1 operations")]
    Full,
    /// Memory ran out.
    #[error("out of memory")]
    Memory,
}

impl From<AllocError> for PushError {
    ghost from_gives = { λ _ e. e ≡ Memory };

    fn from(_e: AllocError) -> PushError {
        PushError::Memory
    }
}
