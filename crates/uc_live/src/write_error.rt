//! [`WriteError`]: why a live store takes no write.
ghost use Rattle.std.specs.Prelude.{◌≡◌};
ghost use Rattle.uc_live.specs.declared.room_error.RoomError.TheVariants.{Memory};
ghost use Rattle.uc_live.specs.declared.write_error.WriteError.TheVariants.{NoRoom};

use crate::room_error::RoomError;
use std::alloc::AllocError;
use thiserror::Error;
use uc_batch::BatchError;

/// Why a live store takes no write.
#[derive(Clone, Copy, Debug, PartialEq, Eq, Error)]
pub enum WriteError {
    /// The bytes aren't a write batch that may come next.
    #[error("the bytes aren't a batch: {0}")]
    Faulty(BatchError),
    /// Too few sequences are left: the greatest is 2^56 - 1.
    #[error("too few sequences are left")]
    SequencesSpent,
    /// A key or value has 2^32 bytes or more, and so no batch holds it.
    #[error("a text has 2^32 bytes or more")]
    TooLong,
    /// A run can't be added.
    #[error("{0}")]
    NoRoom(RoomError),
}

impl From<AllocError> for WriteError {
    ghost from_gives = { λ _ e. e ≡ NoRoom Memory };

    fn from(_e: AllocError) -> WriteError {
        WriteError::NoRoom(RoomError::Memory)
    }
}

impl From<RoomError> for WriteError {
    ghost from_gives = { λ room e. e ≡ NoRoom room };

    fn from(error: RoomError) -> WriteError {
        WriteError::NoRoom(error)
    }
}
