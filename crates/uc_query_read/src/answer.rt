//! [`Answer`]: the answer to a query.
use uc_bytes::Bytes;
use uc_rows::Rows;

/// The answer to a query.
#[derive(Debug, PartialEq, Eq, Drop)]
pub enum Answer {
    /// The key's value, if it has one.
    Value(Option<Bytes>),
    /// The first rows.
    Rows(Rows),
    /// No snapshot protects this sequence, at which the query reads (RocksDB wiki, "Snapshot").
    NotProtected(u64),
}
