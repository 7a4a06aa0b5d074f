//! [`Seq`]: a sequence number as a script names it.

/// A sequence number as a script names it.
#[derive(Clone, Copy, PartialEq, Eq, Debug)]
pub enum Seq {
    /// The number itself, at most 2^64 - 1.
    Number(u64),
    /// The last sequence number at opening, even after more writes. A script writes `last`.
    Last,
}
