//! [`ScriptError`]: why a script, or the head of a log, could not be read.

ghost use Rattle.std.specs.Prelude.{◌≡◌};
ghost use Rattle.uc_script.specs.declared.error.ScriptError.TheVariants.{Memory};

use std::alloc::{AllocError, AllocFailed};
use thiserror::Error;

/// Why a script, or the head of a log, could not be read.
#[derive(Debug, Drop, Error)]
pub enum ScriptError {
    /// The number, from 1, of the first faulty line. If only `open`, only a `feed` after a write, or only `log` is
    /// missing, that is the line after the last.
    #[error("line {0} is not as it should be")]
    Fault(u64),
    /// There was no memory for what the lines say.
    #[error("out of memory")]
    Memory,
}

impl From<AllocError> for ScriptError {
    ghost from_gives = { λ _ e. e ≡ Memory };

    fn from(_e: AllocError) -> ScriptError {
        ScriptError::Memory
    }
}

impl<T: Drop> From<AllocFailed<T>> for ScriptError {
    ghost from_gives = { λ _ e. e ≡ Memory };

    fn from(_e: AllocFailed<T>) -> ScriptError {
        ScriptError::Memory
    }
}
