//! [`Options`]: how a store is opened and compacted.

use uc_claims::MOST_SLOTS;

/// The greatest number that the first run may have: as many others as a store has slots come after it below 2^64.
pub const GREATEST_FIRST_ID: u64 = u64::MAX - MOST_SLOTS as u64;

/// The options by which a store is opened and compacted, with RocksDB's name for each (RocksDB wiki, "Universal Compaction").
#[derive(Clone, Copy, Debug, PartialEq, Eq)]
pub struct Options {
    /// From how many bytes on a memtable is flushed, at least 1 (`write_buffer_size`).
    pub memtable: u64,
    /// From how many runs on something is compacted, at least 1 (`level0_file_num_compaction_trigger`).
    pub trigger: u32,
    /// By how many percent a run may be larger than those above it to be compacted with them (`size_ratio`).
    pub ratio: u32,
    /// Above how many percent of the oldest run's size the newer ones together are compacted with it
    /// (`max_size_amplification_percent`).
    pub percent: u32,
    /// The least number of runs for a compaction by size ratio, at least 2 (`min_merge_width`). A compaction that
    /// lowers the number of runs needs two.
    pub least: u32,
    /// The greatest number of runs for a compaction (`max_merge_width`).
    pub greatest: u32,
    /// The number of the first run, from 1 to [`GREATEST_FIRST_ID`].
    pub first_id: u64,
}

impl Options {
    ghost use Rattle.std.specs.Prelude.{◌≡◌};
    ghost use Rattle.uc_version_state.specs.Options as options;

    /// The default options: memtables of 4 MiB, 4 runs, 1 percent, 200 percent, at least 2 runs and no limit to them,
    /// numbers from 1.
    pub fn usual() -> Options
        ensures { result ≡
            record {
              memtable = 4194304;
              trigger = 4;
              ratio = 1;
              percent = 200;
              least = 2;
              greatest =
                  4294967295;
              first_id = 1;
            } }
    {
        Options {
            memtable: 4_194_304,
            trigger: 4,
            ratio: 1,
            percent: 200,
            least: 2,
            greatest: u32::MAX,
            first_id: 1,
        }
    }

    /// Whether a store opens with them: each is in its range, and `least` isn't above `greatest`.
    pub fn are_good(&self) -> bool
        ensures { result ≡ options.are_good self.now }
    {
        let sizes = 1 <= self.memtable && 1 <= self.trigger;
        let widths = 2 <= self.least && self.least <= self.greatest;
        sizes && widths && 1 <= self.first_id && self.first_id <= GREATEST_FIRST_ID
    }
}
