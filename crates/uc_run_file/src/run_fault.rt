//! Why bytes are no run.
ghost use Rattle.std.specs.Prelude.{◌≡◌};
ghost use Rattle.uc_run_file.specs.declared.run_fault.RunFileError.TheVariants.{Memory};

use std::alloc::{AllocError, AllocFailed};
use thiserror::Error;

/// The fault of a file that is no run's.
#[derive(Clone, Copy, Debug, PartialEq, Eq, Error)]
pub enum RunFault {
    /// The file is shorter than a footer.
    #[error("shorter than a footer")]
    TooShort,
    /// The last eight bytes are others than those of a run's file.
    #[error("no file of a run")]
    NoRun,
    /// The version of the format is another one.
    #[error("format version {0}")]
    Version(u32),
    /// The lengths in the footer are those of another file.
    #[error("lengths in the footer do not match the file")]
    Lengths,
    /// The footer or the table of checksums doesn't match its checksum.
    #[error("checksum mismatch in the footer")]
    Footer,
    /// The piece at this offset doesn't match its checksum.
    #[error("checksum mismatch in the piece at byte {0}")]
    Piece(usize),
    /// No point is spelled at this offset.
    #[error("no point at byte {0}")]
    Point(usize),
    /// No fragment is spelled at this offset.
    #[error("no fragment at byte {0}")]
    Fragment(usize),
    /// The footer has other numbers of points and fragments.
    #[error("counts in the footer do not match the file")]
    Counts,
    /// The range of sequences is empty, or not between 1 and 2^56 - 1.
    #[error("range of sequences")]
    Range,
    /// A fragment is out of order, or its sequences are out of order or out of range.
    #[error("fragments out of order or range")]
    Fragments,
    /// The point with this number, from 0, isn't after the one before it.
    #[error("point {0} out of order")]
    Order(usize),
    /// The sequence of the point with this number, from 0, is out of range.
    #[error("sequence of point {0} out of range")]
    Sequence(usize),
    /// The point with this number, from 0, has the sequence of a fragment over its key.
    #[error("point {0} with the sequence of a range deletion")]
    Shared(usize),
}

/// Why a run isn't read.
#[derive(Clone, Copy, Debug, PartialEq, Eq, Error)]
pub enum RunFileError {
    /// The bytes aren't those of a run's file.
    #[error("{0}")]
    Fault(RunFault),
    /// Memory ran out.
    #[error("out of memory")]
    Memory,
}

impl From<AllocError> for RunFileError {
    ghost from_gives = { λ _ e. e ≡ Memory };

    fn from(_e: AllocError) -> RunFileError {
        RunFileError::Memory
    }
}

impl<T: Drop> From<AllocFailed<T>> for RunFileError {
    ghost from_gives = { λ _ e. e ≡ Memory };

    fn from(_e: AllocFailed<T>) -> RunFileError {
        RunFileError::Memory
    }
}
