//! Why a log returns no writes.
ghost use Rattle.std.specs.Prelude.{◌≡◌};
ghost use Rattle.uc_batch.specs.declared.read_error.ReadError.TheVariants.{Memory};

use crate::error::BatchError;
use std::alloc::{AllocError, AllocFailed};
use thiserror::Error;
use uc_logrec::LogFault;

/// Why a log returns no writes.
#[derive(Clone, Copy, Debug, PartialEq, Eq, Error)]
pub enum ReadError {
    /// The first invalid payload, by its number from 1. The error is never `Memory`.
    #[error("payload {0}: {1}")]
    Batch(u64, BatchError),
    /// A fault at this offset in the log, after payloads that are all accepted.
    #[error("byte {1} of the log: {0}")]
    Log(LogFault, u64),
    /// Memory ran out.
    #[error("out of memory")]
    Memory,
}

impl From<AllocError> for ReadError {
    ghost from_gives = { λ _ e. e ≡ Memory };

    fn from(_e: AllocError) -> ReadError {
        ReadError::Memory
    }
}

impl<T: Drop> From<AllocFailed<T>> for ReadError {
    ghost from_gives = { λ _ e. e ≡ Memory };

    fn from(_e: AllocFailed<T>) -> ReadError {
        ReadError::Memory
    }
}
