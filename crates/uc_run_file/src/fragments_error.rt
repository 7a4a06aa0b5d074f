//! Why bytes give no fragments.
ghost use Rattle.std.specs.Prelude.{◌≡◌};
ghost use Rattle.uc_run_file.specs.declared.fragments_error.FragmentsError.TheVariants.{Memory};

use std::alloc::{AllocError, AllocFailed};
use thiserror::Error;

/// Why bytes give no fragments.
#[derive(Clone, Copy, Debug, PartialEq, Eq, Error)]
pub enum FragmentsError {
    /// No fragment is spelled at this offset, where bytes follow the last one that is.
    #[error("no fragment at byte {0}")]
    Fault(usize),
    /// Memory ran out.
    #[error("out of memory")]
    Memory,
}

impl From<AllocError> for FragmentsError {
    ghost from_gives = { λ _ e. e ≡ Memory };

    fn from(_e: AllocError) -> FragmentsError {
        FragmentsError::Memory
    }
}

impl<T: Drop> From<AllocFailed<T>> for FragmentsError {
    ghost from_gives = { λ _ e. e ≡ Memory };

    fn from(_e: AllocFailed<T>) -> FragmentsError {
        FragmentsError::Memory
    }
}
