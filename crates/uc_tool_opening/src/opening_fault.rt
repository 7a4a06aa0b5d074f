//! [`OpeningFault`]: why a store isn't opened, with the option or the number that stands against it.

ghost use Rattle.std.specs.Prelude.{◌≡◌, is_none};
ghost use Rattle.uc_version_state.specs.Options.{are_good};
ghost use Rattle.uc_tool_opening.specs.Faults as faults;

use thiserror::Error;
use uc_claims::MOST_SLOTS;
use uc_version_open::OpenError;
use uc_version_state::{GREATEST_FIRST_ID, Options};

/// Why a store isn't opened, with the option or the number that stands against it.
#[derive(Clone, Copy, Debug, PartialEq, Eq, Error)]
pub enum OpeningFault {
    /// Memtables of no bytes.
    #[error("--memtable is 0: a memtable is flushed at 1 byte at the least")]
    Memtable,
    /// A compaction that is due at no runs.
    #[error("--trigger is 0: a compaction is due at 1 run at the least")]
    Trigger,
    /// Compactions of fewer than two runs.
    #[error("--least is {0}: a compaction takes 2 runs at the least")]
    Least(u32),
    /// Compactions of more runs at the least than at the most.
    #[error("--least is {least}, above --greatest, which is {greatest}")]
    Widths {
        /// The fewest runs of a compaction.
        least: u32,
        /// The most runs of a compaction.
        greatest: u32,
    },
    /// A first run whose number is out of its range.
    #[error("the first run's number is {0}: it is from 1 to {greatest}", greatest = GREATEST_FIRST_ID)]
    FirstId(u64),
    /// This sequence is to be kept, and is above the last one.
    #[error("sequence {0} is to be kept, and is above the last one")]
    Ahead(u64),
    /// The writes fill more memtables of this many bytes than a store has slots.
    #[error("the writes fill more than {most} memtables of {0} bytes: --memtable has to be larger", most = MOST_SLOTS)]
    TooManyRuns(u64),
}

/// The first option that is out of its range, if one is.
pub fn option_fault(options: &Options) -> Option<OpeningFault>
    ensures value { result ≡ faults.option_fault options.now }
    ensures none { is_none result ≡ are_good options.now }
{
    if options.memtable == 0 {
        Some(OpeningFault::Memtable)
    } else if options.trigger == 0 {
        Some(OpeningFault::Trigger)
    } else if options.least < 2 {
        Some(OpeningFault::Least(options.least))
    } else if options.greatest < options.least {
        Some(OpeningFault::Widths {
            least: options.least,
            greatest: options.greatest,
        })
    } else if options.first_id == 0 || GREATEST_FIRST_ID < options.first_id {
        Some(OpeningFault::FirstId(options.first_id))
    } else {
        None
    }
}

/// The fault of an opening that failed with this error, under these options. It is `None` if allocation failed, and for the number
/// of threads, which a store that isn't shared doesn't have.
pub fn fault_of_opening(error: OpenError, options: &Options) -> Option<OpeningFault>
    ensures { result ≡ faults.fault_of_opening error options.now }
{
    match error {
        OpenError::BadOption => option_fault(options),
        OpenError::SnapshotAhead(keep) => Some(OpeningFault::Ahead(keep)),
        OpenError::TooManyRuns => Some(OpeningFault::TooManyRuns(options.memtable)),
        OpenError::BadCount | OpenError::Memory => None,
    }
}
