//! [`Ending`]: the end of a log.
use crate::fault::LogFault;

/// The end of a log. Offsets are in bytes from the log's start.
#[derive(Clone, Copy, Debug, PartialEq, Eq)]
pub enum Ending {
    /// After a complete payload. Zero bytes to the log's end may follow.
    Clean,
    /// Inside a payload, as when the writer was stopped. The offset is that of the payload's first record, or of the
    /// record that is cut off if none of its records is whole.
    Torn(u64),
    /// At a record that can't be there, and its offset.
    Fault(LogFault, u64),
}
