//! [`Report`]: what a version holds.
use crate::run_line::RunLine;
use uc_bytes::Items;
use uc_fold::Totals;

/// The report of a version: its runs, the newest first, and all of them together; the sequences that it keeps, which rise; and
/// the last sequence.
#[derive(Debug, PartialEq, Drop)]
pub struct Report {
    /// A line for each run, the newest first.
    pub lines: Items<RunLine>,
    /// The sums of the lines, each held at 2^64 - 1.
    pub total: Totals,
    /// The sequences that reads are made at.
    pub keeps: Items<u64>,
    /// The last sequence; 0 where nothing was written.
    pub last: u64,
}
