//! The codes of a log's faults.
ghost use Rattle.std.specs.Prelude.{◌≡◌};
ghost use Rattle.uc_c.specs.FaultCodes as codes;

use uc_engine::BatchError;
use uc_logrec::LogFault;

/// The code of a fault of a record of the log.
pub fn log_fault_code(fault: LogFault) -> u32
    ensures { result ≡ codes.log_fault_code fault }
{
    match fault {
        LogFault::BadLength => 1,
        LogFault::BadChecksum => 2,
        LogFault::UnsupportedType => 3,
        LogFault::MiddleAlone => 4,
        LogFault::LastAlone => 5,
        LogFault::FullInside => 6,
        LogFault::FirstInside => 7,
    }
}

/// The code of a fault of a batch.
pub fn batch_fault_code(error: BatchError) -> u32
    ensures { result ≡ codes.batch_fault_code error }
{
    match error {
        BatchError::TooShort => 1,
        BatchError::SequenceBack(_) => 2,
        BatchError::SequenceTooLarge => 3,
        BatchError::BadTag(_, _) => 4,
        BatchError::Cut(_) => 5,
        BatchError::BadVarint(_) => 6,
        BatchError::OtherFamily(_) => 7,
        BatchError::WrongCount => 8,
        BatchError::Memory => 9,
    }
}
