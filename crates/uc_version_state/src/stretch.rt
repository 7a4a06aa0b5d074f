//! [`Stretch`]: neighbouring runs.

/// Neighbouring runs among some that come newest first. Positions count from 0, the newest.
#[derive(Clone, Copy, Debug, PartialEq, Eq)]
pub struct Stretch {
    /// The number of newer runs before them.
    pub first: usize,
    /// The number of runs.
    pub count: usize,
}
