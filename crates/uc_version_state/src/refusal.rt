//! [`Refusal`]: why an install may not happen to a version.

/// Why an install may not happen to a version: the first of these reasons that holds.
#[derive(Clone, Copy, Debug, PartialEq, Eq)]
pub enum Refusal {
    /// It was made for the oldest run of all, but older runs come after its inputs.
    OlderBehind,
    /// It wasn't made for this keep: the least such one below the greatest sequence of its inputs.
    UnknownKeep(u64),
    /// Its inputs aren't in the version as neighbours in their order.
    NotInPlace,
    /// No id is left: 2^64 - 1 is never given.
    IdsSpent,
}
