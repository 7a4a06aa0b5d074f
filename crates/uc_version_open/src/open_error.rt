//! [`OpenError`]: why a store isn't opened.
ghost use Rattle.std.specs.Prelude.{◌≡◌};
ghost use Rattle.uc_version_open.specs.declared.open_error.OpenError.TheVariants.{Memory};

use std::alloc::AllocError;
use thiserror::Error;

/// Why a store isn't opened.
#[derive(Clone, Copy, Debug, PartialEq, Eq, Error)]
pub enum OpenError {
    /// A shared store is for 1 to 128 readers and up to 64 seats. A store that isn't shared never says so.
    #[error("a shared store is for 1 to 128 readers and up to 64 seats")]
    BadCount,
    /// An option isn't in its range.
    #[error("an option is out of range")]
    BadOption,
    /// This snapshot, the first one given that is, is above the last write.
    #[error("snapshot {0} is above the last write")]
    SnapshotAhead(u64),
    /// The writes need more runs than a store has slots.
    #[error("the writes make more runs than a store has slots")]
    TooManyRuns,
    /// Memory ran out.
    #[error("out of memory")]
    Memory,
}

impl From<AllocError> for OpenError {
    ghost from_gives = { λ _ e. e ≡ Memory };

    fn from(_e: AllocError) -> OpenError {
        OpenError::Memory
    }
}
