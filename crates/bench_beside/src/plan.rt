//! [`Plan`]: the parameters of a measurement.
use crate::input::Input;

/// Parameters of a measurement, in the order in which they are read.
#[derive(Clone, Copy)]
pub(crate) struct Plan {
    /// True if only results that are the same in each run are printed.
    pub(crate) is_few: bool,
    /// Number of actors that compact, and number of those that install. Together they are two at most.
    pub(crate) compactors: usize,
    pub(crate) installers: usize,
    /// Number of readers that answer a batch meanwhile, and number of those that answer it again at the end.
    pub(crate) batch: usize,
    pub(crate) last: usize,
    /// Numbers of actors that feed, that look up keys, and that pin.
    pub(crate) feeders: usize,
    pub(crate) drawers: usize,
    pub(crate) pinners: usize,
    /// Number of pins in a step. If `is_timed` is true, a step is one pin, which is timed.
    pub(crate) rounds: u64,
    pub(crate) is_timed: bool,
    /// Size of the memtables in bytes, while a store opens.
    pub(crate) memtable: u64,
    /// Number of stores, measured in turn.
    pub(crate) stores: u64,
    /// Numbers of lookups and scans in a batch. Without feeders, an actor that looks up keys makes as many lookups.
    pub(crate) lookups: u64,
    pub(crate) scans: u64,
    /// Number of keys to choose from.
    pub(crate) keys: u64,
    /// Number of writes in a batch that is fed, and number of these batches.
    pub(crate) size: usize,
    pub(crate) count: usize,
}

impl Plan {
    /// Reads the next plan.
    pub(crate) fn of(input: &mut Input<'_>, is_few: bool) -> Plan {
        Plan {
            is_few,
            compactors: input.count(),
            installers: input.count(),
            batch: input.count(),
            last: input.count(),
            feeders: input.count(),
            drawers: input.count(),
            pinners: input.count(),
            rounds: input.number(),
            is_timed: input.flag(),
            memtable: input.number(),
            stores: input.number(),
            lookups: input.number(),
            scans: input.number(),
            keys: input.number(),
            size: input.count(),
            count: input.count(),
        }
    }

    /// Returns the number of actors that compact or install.
    pub(crate) fn changers(self) -> usize {
        self.compactors.saturating_add(self.installers)
    }

    /// Returns the number of actors that feed, look up keys or pin.
    pub(crate) fn lone_readers(self) -> usize {
        self.feeders
            .saturating_add(self.drawers)
            .saturating_add(self.pinners)
    }

    /// Returns the number of readers.
    pub(crate) fn readers(self) -> usize {
        let of_batches = self.batch.saturating_add(self.last);
        self.changers()
            .saturating_add(self.lone_readers())
            .saturating_add(of_batches)
    }
}
