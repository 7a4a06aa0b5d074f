//! [`Ended`]: where a log ended, and why.
ghost use Rattle.std.specs.Prelude.{◌≡◌};
ghost use Rattle.uc_batch.specs.Log.{ended_by};

use crate::error::BatchError;
use uc_logrec::{Ending, LogFault};

/// Where a log ended, and why.
#[derive(Clone, Copy, Debug, PartialEq, Eq)]
pub enum Ended {
    /// To its end.
    Clean,
    /// To a record that was still being written, or to an unfinished payload, which begins at this
    /// offset in the log.
    Torn(u64),
    /// To a fault at this offset in the log.
    LogFault(LogFault, u64),
    /// To the payload of this number, from 1, which isn't a batch, or not one that may follow.
    BatchFault(u64, BatchError),
}

/// Where the log ended, if all its payloads are valid.
impl From<Ending> for Ended {
    ghost from_gives = { λ ending ended. ended ≡ ended_by ending };

    fn from(ending: Ending) -> Ended {
        match ending {
            Ending::Clean => Ended::Clean,
            Ending::Torn(offset) => Ended::Torn(offset),
            Ending::Fault(fault, offset) => Ended::LogFault(fault, offset),
        }
    }
}
