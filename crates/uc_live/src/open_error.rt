//! [`LiveOpenError`]: why a live store isn't opened.
ghost use Rattle.std.specs.Prelude.{◌≡◌};
ghost use Rattle.uc_live.specs.declared.room_error.RoomError.TheVariants.{Memory};
ghost use Rattle.uc_live.specs.declared.open_error.LiveOpenError.TheVariants.{NoRoom};

use crate::room_error::RoomError;
use std::alloc::AllocError;
use thiserror::Error;

/// Why a live store isn't opened.
#[derive(Clone, Copy, Debug, PartialEq, Eq, Error)]
pub enum LiveOpenError {
    /// An option isn't in its range.
    #[error("an option is out of range")]
    BadOption,
    /// A run can't be added.
    #[error("{0}")]
    NoRoom(RoomError),
}

impl From<AllocError> for LiveOpenError {
    ghost from_gives = { λ _ e. e ≡ NoRoom Memory };

    fn from(_e: AllocError) -> LiveOpenError {
        LiveOpenError::NoRoom(RoomError::Memory)
    }
}

impl From<RoomError> for LiveOpenError {
    ghost from_gives = { λ room e. e ≡ NoRoom room };

    fn from(error: RoomError) -> LiveOpenError {
        LiveOpenError::NoRoom(error)
    }
}
