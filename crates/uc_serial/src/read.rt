//! [`Read`]: what a transaction read.
use uc_bytes::Bytes;

/// A read of a transaction.
#[derive(Debug, PartialEq, Eq, Drop)]
pub enum Read {
    /// The value of a key, or that it has none.
    Key(Bytes),
    /// The rows of a range of keys, as far as they were walked.
    Range {
        /// The first key that may be a row's.
        low: Bytes,
        /// The rows' keys are below this one, if there is one.
        high: Option<Bytes>,
    },
}
