//! [`FeedError`]: why writes aren't fed to a store.
ghost use Rattle.std.specs.Prelude.{◌≡◌};
ghost use Rattle.uc_version_state.specs.declared.feed_error.FeedError.TheVariants.{Memory};

use std::alloc::AllocError;
use thiserror::Error;

/// Why writes aren't fed to a store: the first of these reasons that holds.
#[derive(Clone, Copy, Debug, PartialEq, Eq, Error)]
pub enum FeedError {
    /// The first write isn't above the last sequence of the store, which is this.
    #[error("the first write isn't above the last sequence, {0}")]
    Back(u64),
    /// The runs would be more than there are slots, with those that are there.
    #[error("the runs would be more than there are slots")]
    TooManyRuns,
    /// A run would get the id 2^64 - 1, which is never given.
    #[error("no id is left for a run")]
    IdsSpent,
    /// Memory ran out.
    #[error("out of memory")]
    Memory,
}

impl From<AllocError> for FeedError {
    ghost from_gives = { λ _ e. e ≡ Memory };

    fn from(_e: AllocError) -> FeedError {
        FeedError::Memory
    }
}
