//! [`Call`]: what a script asks of the store.

use crate::query::Query;
use crate::script::Ops;
use crate::seq::Seq;

/// The number of names that a script has for its claims, from 0 on: as many as a store's owner holds claims at once.
pub const NAMES: usize = 128;

/// A call that a script makes of the store after its `open`.
#[derive(Debug, Drop, PartialEq, Eq)]
pub enum Call {
    /// Writes the changes since the last `feed`, or since `open`, in order. A script writes `feed`.
    Feed(Ops),
    /// A snapshot at the last sequence. A script writes `keep`.
    Keep,
    /// Ends a snapshot. A script writes `release S`.
    Release(Seq),
    /// To read. A script writes `get K S` or `scan LOW HIGH LIMIT S`.
    Read(Query),
    /// A claim of `count` neighbouring runs, to be known by a name below [`NAMES`]. A script writes
    /// `claim N FIRST COUNT`.
    Claim {
        /// The name of the claim.
        name: u8,
        /// The position of the newest of the runs. Positions count from 0, the newest run of all.
        first: usize,
        /// The number of runs.
        count: usize,
    },
    /// Merges the runs claimed under a name into one, which takes their place. A script
    /// writes `install N`.
    Install {
        /// The name of the claim, below [`NAMES`].
        name: u8,
    },
    /// Gives back the runs claimed under a name as they are. A script writes `abandon N`.
    Abandon {
        /// The name of the claim, below [`NAMES`].
        name: u8,
    },
    /// A whole compaction of `count` neighbouring runs: a claim and its install. A script writes
    /// `compact FIRST COUNT`.
    Compact {
        /// The position of the newest of the runs, from 0.
        first: usize,
        /// The number of runs.
        count: usize,
    },
    /// Asks for the neighbouring runs that universal compaction picks. A script writes `pick`.
    Pick,
    /// Asks for the figures of the store. A script writes `report`.
    Report,
}
