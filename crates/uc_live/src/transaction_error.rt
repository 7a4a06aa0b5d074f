//! [`TransactionError`]: why a live store takes no transaction.
ghost use Rattle.std.specs.Prelude.{◌≡◌};
ghost use Rattle.uc_live.specs.declared.transaction_error.TransactionError.TheVariants.{Write};

use crate::write_error::WriteError;
use thiserror::Error;

/// Why a live store takes no transaction.
#[derive(Clone, Copy, Debug, PartialEq, Eq, Error)]
pub enum TransactionError {
    /// A read is changed: the first at this place of the read set.
    #[error("read {0} is changed")]
    Conflict(usize),
    /// The batch isn't prepared.
    #[error("{0}")]
    Write(WriteError),
}

impl From<WriteError> for TransactionError {
    ghost from_gives = { λ cause e. e ≡ Write cause };

    fn from(error: WriteError) -> TransactionError {
        TransactionError::Write(error)
    }
}
