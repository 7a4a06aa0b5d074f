//! [`LiveOptions`]: how a live store is kept.
ghost use Rattle.std.specs.Prelude.{◌≡◌, true};
ghost use Rattle.uc_live.specs.LiveOptions as options;
ghost use Rattle.uc_live.specs.declared.live_options.TheConstants as limits;

use crate::store_id::StoreId;
use uc_claims::MOST_SLOTS;
use uc_version::Options;

/// The greatest number of runs from which on writes stop: one slot stays free for a run.
pub const GREATEST_STOP: u32 = MOST_SLOTS as u32 - 1;

/// The number of range deletions that fill a memtable: a lookup asks each of them.
pub const MOST_RANGES: usize = 64;

/// Writes stop at 255 runs at the latest, and 64 range deletions fill a memtable.
pub fn limits_have_their_numbers()
    ensures stop { limits.GREATEST_STOP ≡ 255 }
    ensures ranges { limits.MOST_RANGES ≡ 64 }
{}

/// The options of a live store.
#[derive(Clone, Copy, Debug, PartialEq, Eq)]
pub struct LiveOptions {
    /// The options of its compactions, and the size in bytes from which on the active memtable is full (`write_buffer_size`).
    pub store: Options,
    /// From how many runs on it compacts before it flushes (`level0_stop_writes_trigger`): no fewer than the store's
    /// `trigger`, and at most [`GREATEST_STOP`].
    pub stop_trigger: u32,
    /// The most memtables (`max_write_buffer_number`), at least 1. With 1, a write that finds the memtable full flushes it. With
    /// more, it leaves a full one to a flush job, until this many are full: then it flushes all of them.
    pub max_write_buffer_number: u32,
    /// Whether it compacts after each flush while runs are picked. Else its owner does, and the store only from
    /// `stop_trigger` runs on.
    pub compacts_itself: bool,
    /// The store's id.
    pub id: StoreId,
}

impl LiveOptions {
    /// The default options: those of [`Options::usual`], stops at 36 runs, one memtable, and automatic compaction.
    pub fn usual() -> LiveOptions
        ensures store { result.store ≡
            record { memtable = 4194304; trigger = 4; ratio = 1; percent = 200; least = 2; greatest = 4294967295; first_id = 1 } }
        ensures stop { result.stop_trigger ≡ 36 }
        ensures one { result.max_write_buffer_number ≡ 1 }
        ensures itself { result.compacts_itself ≡ true }
    {
        LiveOptions {
            store: Options::usual(),
            stop_trigger: 36,
            max_write_buffer_number: 1,
            compacts_itself: true,
            id: StoreId::NONE,
        }
    }

    /// Whether a store opens with them: each is in its range.
    pub fn are_good(&self) -> bool
        ensures { result ≡ options.are_good self.now }
    {
        self.store.are_good()
            && self.store.trigger <= self.stop_trigger
            && self.stop_trigger <= GREATEST_STOP
            && self.max_write_buffer_number >= 1
    }
}
