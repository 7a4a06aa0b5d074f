//! [`Plan`]: the parameters of random stores and of the work on them.
use uc_share::Options;

/// Largest number of writes in one feed.
pub const MOST_FED: u64 = 3;

/// Parameters of random stores, and of the work on them.
#[derive(Clone, Copy)]
pub struct Plan {
    /// Number of stores.
    pub stores: u64,
    /// Bounds of the number of runs with which a store opens.
    pub fewest: u64,
    pub most: u64,
    /// Largest number of runs in a pick, and the percentage of the oldest run's size at which all runs are picked.
    pub greatest: u32,
    pub percent: u32,
    /// Number of turns of each of four compactors. If `draws` is true, two of them claim random stretches, and return some.
    pub turns: u64,
    pub draws: bool,
    /// Number of feeds that each of two feeders tries. If it is 0, no thread keeps or releases.
    pub feeds: u64,
    /// Least number of installs in all stores together.
    pub installs: u64,
}

/// The plans for each operator: stores of a few runs, which are fed more than they open with; stores of more runs, with picks of any size;
/// and stores without feeds, keeps and releases.
static SMALL: [Plan; 3] = [
    Plan {
        stores: 5,
        fewest: 8,
        most: 8,
        greatest: u32::MAX,
        percent: 25,
        turns: 120,
        draws: true,
        feeds: 30,
        installs: 5,
    },
    Plan {
        stores: 25,
        fewest: 32,
        most: 64,
        greatest: u32::MAX,
        percent: 25,
        turns: 24,
        draws: true,
        feeds: 6,
        installs: 25,
    },
    Plan {
        stores: 10,
        fewest: 32,
        most: 64,
        greatest: u32::MAX,
        percent: 25,
        turns: 24,
        draws: true,
        feeds: 0,
        installs: 10,
    },
];

/// The plans for one operator. Stores with few free slots or none, and picks of at most eight runs, so that many runs remain for a while. A
/// store with a run in each slot, and picks of two runs, so that there are many installs. A store with free slots, which is fed for long.
static LARGE: [Plan; 3] = [
    Plan {
        stores: 6,
        fewest: 200,
        most: 256,
        greatest: 8,
        percent: u32::MAX,
        turns: 24,
        draws: true,
        feeds: 6,
        installs: 6,
    },
    Plan {
        stores: 1,
        fewest: 256,
        most: 256,
        greatest: 2,
        percent: 100_000,
        turns: 200,
        draws: false,
        feeds: 6,
        installs: 100,
    },
    Plan {
        stores: 1,
        fewest: 64,
        most: 64,
        greatest: 2,
        percent: 100_000,
        turns: 200,
        draws: false,
        feeds: 100,
        installs: 30,
    },
];

/// Returns the plans for each operator.
pub fn small() -> &'static [Plan] {
    &SMALL
}

/// Returns the plans for one operator.
pub fn large() -> &'static [Plan] {
    &LARGE
}

/// Options under which each write becomes a run, and two runs are compacted.
pub fn small_runs() -> Options {
    Options {
        memtable: 1,
        trigger: 2,
        percent: 25,
        ..Options::usual()
    }
}

impl Plan {
    /// Returns the options of a store.
    pub fn options(self) -> Options {
        Options {
            greatest: self.greatest,
            percent: self.percent,
            ..small_runs()
        }
    }

    /// Returns the largest number of writes: those of the opening and of both feeders, and one before the first keep.
    pub fn writes(self) -> u64 {
        let fed = self.feeds.saturating_mul(2 * MOST_FED);
        self.most.saturating_add(fed).saturating_add(1)
    }
}
