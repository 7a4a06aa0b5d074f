//! [`CEnded`]: how a log ended, as C sees it.
ghost use Rattle.std.specs.Prelude.{◌≡◌, [], ◌∷◌};
ghost use Rattle.uc_c.specs.declared.c_ended.TheConstants as ends;

use crate::fault_codes::{batch_fault_code, log_fault_code};
use uc_engine::Ended;

/// The log was read to its end.
pub const CLEAN: u32 = 0;

/// The log was read to an unfinished record or payload, which begins at `place`.
pub const TORN: u32 = 1;

/// The log was read to a fault at `place`.
pub const LOG_FAULT: u32 = 2;

/// The log was read to the payload of the number `place`, from 1, which isn't a batch that may follow.
pub const BATCH_FAULT: u32 = 3;

/// The kinds have the numbers that `enum ucstore_end` gives them, in its order.
pub fn ends_are_numbered()
    ensures { ends.CLEAN ∷ ends.TORN ∷ ends.LOG_FAULT ∷ ends.BATCH_FAULT ∷ [] ≡ 0 ∷ 1 ∷ 2 ∷ 3 ∷ [] }
{}

/// The end of a log, as C sees it.
#[repr(C)]
#[derive(Clone, Copy, Debug, PartialEq, Eq)]
pub struct CEnded {
    /// [`CLEAN`], [`TORN`], [`LOG_FAULT`] or [`BATCH_FAULT`].
    pub kind: u32,
    /// The code of the fault; 0 if there is none.
    pub fault: u32,
    /// The offset in the log, or the number of the payload; 0 if the log is clean.
    pub place: u64,
}

impl CEnded {
    ghost use Rattle.uc_c.specs.Numbers.{ended_in};

    /// The end of a log, as C sees it.
    pub fn of(ended: Ended) -> CEnded
        ensures { result ≡ ended_in ended }
    {
        match ended {
            Ended::Clean => CEnded {
                kind: CLEAN,
                fault: 0,
                place: 0,
            },
            Ended::Torn(offset) => CEnded {
                kind: TORN,
                fault: 0,
                place: offset,
            },
            Ended::LogFault(fault, offset) => CEnded {
                kind: LOG_FAULT,
                fault: log_fault_code(fault),
                place: offset,
            },
            Ended::BatchFault(number, error) => CEnded {
                kind: BATCH_FAULT,
                fault: batch_fault_code(error),
                place: number,
            },
        }
    }
}
