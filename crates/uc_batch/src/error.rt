//! Errors of a batch.
ghost use Rattle.std.specs.Prelude.{◌≡◌};
ghost use Rattle.uc_batch.specs.declared.error.BatchError.TheVariants.{Memory};

use std::alloc::{AllocError, AllocFailed};
use thiserror::Error;

/// Why a batch isn't valid. Offsets are bytes from the batch's start.
///
/// The first three are checked in this order, before any record. Then the records are read from left to right, and the first fault
/// among them is returned; `WrongCount` comes last.
#[derive(Clone, Copy, Debug, PartialEq, Eq, Error)]
pub enum BatchError {
    /// There are fewer than the 12 bytes of a header.
    #[error("a batch has at least 12 bytes")]
    TooShort,
    /// The batch has records, and its sequence isn't above the last one used, which this is.
    #[error("the sequence isn't above {0}, the last one used")]
    SequenceBack(u64),
    /// The sequence of the last record would be 2^56 or more.
    #[error("a sequence is at most 2^56 - 1")]
    SequenceTooLarge,
    /// No record begins with this tag, at this offset.
    #[error("unknown tag {0} at byte {1}")]
    BadTag(u8, u64),
    /// The batch ends inside the record whose tag is at this offset.
    #[error("the record at byte {0} is cut short")]
    Cut(u64),
    /// The number that begins at this offset doesn't fit 32 bits.
    #[error("the number at byte {0} doesn't fit 32 bits")]
    BadVarint(u64),
    /// A record is for a column family other than the default one.
    #[error("column family {0} isn't the default one")]
    OtherFamily(u32),
    /// The batch doesn't have as many counted records as its header says.
    #[error("the header's count isn't the number of records")]
    WrongCount,
    /// Memory ran out.
    #[error("out of memory")]
    Memory,
}

impl From<AllocError> for BatchError {
    ghost from_gives = { λ _ e. e ≡ Memory };

    fn from(_e: AllocError) -> BatchError {
        BatchError::Memory
    }
}

impl<T: Drop> From<AllocFailed<T>> for BatchError {
    ghost from_gives = { λ _ e. e ≡ Memory };

    fn from(_e: AllocFailed<T>) -> BatchError {
        BatchError::Memory
    }
}
