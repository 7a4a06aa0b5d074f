//! [`AddRunError`]: why a run isn't added.
ghost use Rattle.std.specs.Prelude.{◌≡◌};
ghost use Rattle.uc_live.specs.declared.add_run_error.AddRunError.TheVariants.{Memory};

use std::alloc::{AllocError, AllocFailed};
use thiserror::Error;

/// Why a run isn't added to a store.
#[derive(Clone, Copy, Debug, PartialEq, Eq, Error)]
pub enum AddRunError {
    /// The run isn't above the store's last sequence number.
    #[error("the run is out of order")]
    Order,
    /// Writes are in memtables or prepared, or a job has runs.
    #[error("the store has writes that no run has, or a job")]
    Busy,
    /// No slot or no id is left for a run.
    #[error("no place is left for a run")]
    Full,
    /// Memory ran out.
    #[error("out of memory")]
    Memory,
}

impl From<AllocError> for AddRunError {
    ghost from_gives = { λ _ e. e ≡ Memory };

    fn from(_e: AllocError) -> AddRunError {
        AddRunError::Memory
    }
}

impl<T: Drop> From<AllocFailed<T>> for AddRunError {
    ghost from_gives = { λ _ e. e ≡ Memory };

    fn from(_e: AllocFailed<T>) -> AddRunError {
        AddRunError::Memory
    }
}
