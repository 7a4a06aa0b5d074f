//! [`PointsError`]: a reason why bytes encode no points.
ghost use Rattle.std.specs.Prelude.{◌≡◌};
ghost use Rattle.uc_run_points.specs.declared.points_error.PointsError.TheVariants.{Memory};

use std::alloc::{AllocError, AllocFailed};
use thiserror::Error;

/// Reason why bytes encode no points.
#[derive(Clone, Copy, Debug, PartialEq, Eq, Error)]
pub enum PointsError {
    /// The bytes from this offset on begin with no valid point, and those before it are valid points.
    #[error("no point at byte {0}")]
    Fault(usize),
    /// Allocation failed.
    #[error("out of memory")]
    Memory,
}

impl From<AllocError> for PointsError {
    ghost from_gives = { λ _ e. e ≡ Memory };

    fn from(_e: AllocError) -> PointsError {
        PointsError::Memory
    }
}

impl<T: Drop> From<AllocFailed<T>> for PointsError {
    ghost from_gives = { λ _ e. e ≡ Memory };

    fn from(_e: AllocFailed<T>) -> PointsError {
        PointsError::Memory
    }
}
