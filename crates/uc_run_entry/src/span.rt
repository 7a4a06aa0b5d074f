//! [`Span`]: a sequence over neighbouring fragments.

/// A sequence in each fragment from `first` to below `end`.
#[derive(Clone, Copy, Debug, PartialEq, Eq)]
pub struct Span {
    /// The sequence.
    pub seq: u64,
    /// The first fragment that has it.
    pub first: usize,
    /// The fragment after the last one that has it.
    pub end: usize,
}
