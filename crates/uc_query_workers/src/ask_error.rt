//! [`AskError`]: why a batch of queries isn't answered.
ghost use Rattle.std.specs.Prelude.{◌≡◌};
ghost use Rattle.uc_query_workers.specs.declared.ask_error.AskError.TheVariants.{Memory};

use std::alloc::AllocError;
use thiserror::Error;

/// The most workers that answer a batch.
pub const MOST_WORKERS: usize = 64;

/// Why a batch of queries isn't answered.
#[derive(Clone, Copy, Debug, PartialEq, Eq, Error)]
pub enum AskError {
    /// There is no worker, or there are more than [`MOST_WORKERS`].
    #[error("a batch has 1 to 64 workers")]
    BadWorkers,
    /// A piece would have no query.
    #[error("a piece has one query or more")]
    BadPiece,
    /// Memory ran out.
    #[error("out of memory")]
    Memory,
}

impl From<AllocError> for AskError {
    ghost from_gives = { λ _ e. e ≡ Memory };

    fn from(_e: AllocError) -> AskError {
        AskError::Memory
    }
}
