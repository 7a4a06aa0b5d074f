//! [`ReleaseError`]: why a keep isn't released.
use thiserror::Error;

/// Why a keep isn't released.
#[derive(Clone, Copy, Debug, PartialEq, Eq, Error)]
pub enum ReleaseError {
    /// This sequence isn't a keep.
    #[error("no snapshot keeps sequence {0}")]
    NotKept(u64),
    /// Memory ran out. A store of one owner never answers it.
    #[error("out of memory")]
    Memory,
}
