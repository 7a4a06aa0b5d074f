//! [`Candidate`]: a run as the picker sees it.

/// A run as the picker sees it.
#[derive(Clone, Copy, Debug, PartialEq, Eq)]
pub struct Candidate {
    /// The run's size in bytes.
    pub size: u64,
    /// Whether a compaction has it already.
    pub claimed: bool,
}
