//! [`Query`]: what a line asks to read.

use crate::seq::Seq;
use uc_bytes::Bytes;

/// A query of a line, in a script after its `open` and in the head before a log.
#[derive(Debug, Drop, PartialEq, Eq)]
pub enum Query {
    /// The value of a key. A line writes `get K S`.
    Get {
        /// The key.
        key: Bytes,
        /// The sequence at which to read.
        at: Seq,
    },
    /// The rows from `low` on, in order of key. A line writes `scan LOW HIGH LIMIT S`.
    Scan {
        /// The first key that may be a row's.
        low: Bytes,
        /// The rows are below this key; `None` means no end. A line writes `-` for none.
        high: Option<Bytes>,
        /// The most rows.
        limit: u64,
        /// The sequence at which to read.
        at: Seq,
    },
}
