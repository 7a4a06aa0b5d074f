//! [`RoomError`]: why a run can't be added.
ghost use Rattle.std.specs.Prelude.{◌≡◌};
ghost use Rattle.uc_live.specs.declared.room_error.RoomError.TheVariants.{Memory};

use std::alloc::AllocError;
use thiserror::Error;

/// Why nothing can be flushed or compacted. A store of which no job is out never says `RunsClaimed`.
#[derive(Clone, Copy, Debug, PartialEq, Eq, Error)]
pub enum RoomError {
    /// A run would get the id 2^64 - 1, which is never given.
    #[error("no id is left for a run")]
    IdsSpent,
    /// There are as many runs as there may be, and jobs have those that would be compacted: end a job, and try again.
    #[error("jobs have the runs that would be compacted")]
    RunsClaimed,
    /// Memory ran out.
    #[error("out of memory")]
    Memory,
}

impl From<AllocError> for RoomError {
    ghost from_gives = { λ _ e. e ≡ Memory };

    fn from(_e: AllocError) -> RoomError {
        RoomError::Memory
    }
}
