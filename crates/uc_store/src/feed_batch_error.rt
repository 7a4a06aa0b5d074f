//! [`FeedBatchError`]: why a batch isn't fed to a store.
ghost use Rattle.std.specs.Prelude.{◌≡◌};
ghost use Rattle.uc_store.specs.declared.feed_batch_error.FeedBatchError.TheVariants.{NotFed};
ghost use Rattle.uc_version_state.specs.declared.feed_error.FeedError.TheVariants.{Memory};

use std::alloc::AllocError;
use thiserror::Error;
use uc_version::FeedError;

/// Why a batch isn't fed to a store.
#[derive(Clone, Copy, Debug, PartialEq, Eq, Error)]
pub enum FeedBatchError {
    /// It isn't one batch: too few sequences are left for it, it has 2^32 operations or more, or it has a string of 2^32 bytes
    /// or more.
    #[error("the operations don't fit one batch")]
    DoesNotFit,
    /// The store doesn't take it.
    #[error("the batch isn't fed: {0}")]
    NotFed(FeedError),
}

impl From<AllocError> for FeedBatchError {
    ghost from_gives = { λ _ e. e ≡ NotFed Memory };

    fn from(_e: AllocError) -> FeedBatchError {
        FeedBatchError::NotFed(FeedError::Memory)
    }
}
