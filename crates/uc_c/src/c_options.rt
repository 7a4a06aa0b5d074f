//! [`COptions`]: a store's options, as C writes them.
ghost use Rattle.std.specs.Prelude.{◌≡◌};
ghost use Rattle.uc_c.specs.declared.status.TheConstants.{OK};

use crate::status::OK;
use std::mem::size_of;
use uc_engine::{LiveOptions, Options, StoreId};

/// The size of the struct in bytes.
pub const OPTIONS_SIZE: usize = 48;

/// A store's options, as C writes them. [`LiveOptions`](uc_engine::LiveOptions) says what each means.
#[repr(C)]
#[derive(Clone, Copy, Debug, PartialEq, Eq)]
pub struct COptions {
    /// [`OPTIONS_SIZE`]. A later library may have more fields after these.
    pub size: usize,
    /// From how many bytes on the memtable is full.
    pub write_buffer_size: u64,
    /// From how many runs on something is compacted.
    pub compaction_trigger: u32,
    /// From how many runs on a write waits for a compaction.
    pub stop_trigger: u32,
    /// By how many percent a run may be larger than those above it to be compacted with them.
    pub size_ratio: u32,
    /// Above how many percent of the oldest run's size the newer ones together are compacted with it.
    pub max_size_amplification_percent: u32,
    /// The least number of runs for a compaction by size ratio.
    pub min_merge_width: u32,
    /// The greatest number of runs for a compaction.
    pub max_merge_width: u32,
    /// Not 0 if the store compacts after a flush.
    pub compacts_itself: u32,
    /// The most memtables, full ones included.
    pub max_write_buffer_number: u32,
}

const _: () = prove!(size_of::<COptions>() == OPTIONS_SIZE);

impl COptions {
    ghost use Rattle.uc_c.specs.Numbers.{options_in};

    /// The options of the store with a number.
    pub fn options(&self, number: u64) -> LiveOptions
        ensures { result ≡ options_in self.now number }
    {
        LiveOptions {
            store: Options {
                memtable: self.write_buffer_size,
                trigger: self.compaction_trigger,
                ratio: self.size_ratio,
                percent: self.max_size_amplification_percent,
                least: self.min_merge_width,
                greatest: self.max_merge_width,
                first_id: 1,
            },
            stop_trigger: self.stop_trigger,
            max_write_buffer_number: self.max_write_buffer_number,
            compacts_itself: self.compacts_itself != 0,
            id: StoreId { number },
        }
    }
}

/// Fills in the default options and their size: memtables of 4 MiB, 4 runs, stops at 36 runs, 1 percent, 200 percent, at least 2
/// runs and no limit to them, automatic compaction, and one memtable.
#[unsafe(no_mangle)]
pub extern "C" fn ucstore_options_init(options: &mut COptions) -> i32
    ensures status { result ≡ OK }
    ensures options { options.new ≡
        record {
          size = 48;
          write_buffer_size = 4194304;
          compaction_trigger = 4;
          stop_trigger = 36;
          size_ratio = 1;
          max_size_amplification_percent = 200;
          min_merge_width = 2;
          max_merge_width =
              4294967295;
          compacts_itself = 1;
          max_write_buffer_number = 1;
        } }
{
    *options = COptions {
        size: OPTIONS_SIZE,
        write_buffer_size: 4_194_304,
        compaction_trigger: 4,
        stop_trigger: 36,
        size_ratio: 1,
        max_size_amplification_percent: 200,
        min_merge_width: 2,
        max_merge_width: u32::MAX,
        compacts_itself: 1,
        max_write_buffer_number: 1,
    };
    OK
}
