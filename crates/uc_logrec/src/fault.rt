//! [`LogFault`]: a fault of a log's records.
use thiserror::Error;

/// A fault of a record of a log.
///
/// Reading ends at the first fault. The types and the order of fragments are those of LevelDB's `log_format.md`.
#[derive(Clone, Copy, Debug, PartialEq, Eq, Error)]
pub enum LogFault {
    /// The length passes the end of the block.
    #[error("the record's length passes the end of its block of 32768 bytes")]
    BadLength,
    /// The checksum is not that of the type and the data.
    #[error("the record's checksum does not match its type and data")]
    BadChecksum,
    /// The type is none of FULL, FIRST, MIDDLE and LAST (1 to 4). Recycled logs and log compression,
    /// whose types are above 4, are not read.
    #[error("the record's type is not 1 to 4 (recycled and compressed logs are not read)")]
    UnsupportedType,
    /// A MIDDLE, but no payload was begun.
    #[error("a MIDDLE record comes without a FIRST before it")]
    MiddleAlone,
    /// A LAST, but no payload was begun.
    #[error("a LAST record comes without a FIRST before it")]
    LastAlone,
    /// A FULL, before the payload that was begun is complete.
    #[error("a FULL record comes before the LAST of an unfinished payload")]
    FullInside,
    /// A FIRST, before the payload that was begun is complete.
    #[error("a FIRST record comes before the LAST of an unfinished payload")]
    FirstInside,
}
