//! [`Mode`]: the logs that are accepted, and up to where.
/// The logs that are accepted, and up to where (RocksDB, `WALRecoveryMode`).
#[derive(Clone, Copy, Debug, PartialEq, Eq)]
pub enum Mode {
    /// A log that ends cleanly, or whose last record was still being written.
    TornTail,
    /// Every log, up to its first fault.
    PointInTime,
}
