//! [`Step`]: the effect of a record on the payload that is not complete yet.
ghost use Rattle.std.specs.Prelude.{◌≡◌, IfOk};
ghost use Rattle.uc_logrec.specs.Log as log;
ghost use Rattle.uc_logrec.specs.Steps.{fragments_of, open_in, step_with_data};

use crate::fault::LogFault;
use crate::kind::Kind;
use crate::log_record::Record;
use std::alloc::AllocError;

/// A payload whose LAST has not come yet. A separate buffer has the joined data of its fragments.
#[derive(Clone, Copy)]
pub(crate) struct Unfinished {
    /// The offset of its FIRST in the log.
    pub(crate) start: u64,
    /// Whether there is nothing but a FIRST without data. Old writers left one at the end of a block, so it is dropped
    /// if another payload begins after it.
    pub(crate) is_empty_first: bool,
}

/// The effect of a record on the payload that is open.
#[derive(Clone, Copy)]
pub(crate) enum Step {
    /// Its data is a complete payload in place, and none is open now.
    Whole,
    /// The payload in the buffer is complete, and none is open now.
    Joined,
    /// This payload is open now, with the buffer's data.
    Open(Unfinished),
    /// The record can't be there.
    Refused(LogFault),
}

/// The effect of a record at an offset.
pub(crate) fn step_at(
    unfinished: Option<Unfinished>,
    joined: &mut Vec<u8>,
    offset: u64,
    found: Record<'_>,
) -> Result<Step, AllocError>
    ensures { IfOk result (λ step. step_with_data step joined.new.items found.entry.fragment.now ≡
        log.step_at (open_in unfinished joined.old.items) offset found.entry.kind found.entry.fragment.now) }
{
    match unfinished {
        None => step_outside(joined, offset, found),
        Some(unfinished) => step_inside(unfinished, joined, offset, found),
    }
}

/// The effect of a record if no payload is open.
fn step_outside(joined: &mut Vec<u8>, offset: u64, found: Record<'_>) -> Result<Step, AllocError>
    ensures { IfOk result (λ step. step_with_data step joined.new.items found.entry.fragment.now ≡
        log.step_outside offset found.entry.kind found.entry.fragment.now) }
{
    match found.kind {
        Kind::Full => Ok(Step::Whole),
        Kind::First => {
            joined.clear();
            joined.extend_from_slice(found.fragment)?;
            Ok(Step::Open(Unfinished {
                start: offset,
                is_empty_first: found.fragment.is_empty(),
            }))
        }
        Kind::Middle => Ok(Step::Refused(LogFault::MiddleAlone)),
        Kind::Last => Ok(Step::Refused(LogFault::LastAlone)),
    }
}

/// The effect of a record on an open payload.
fn step_inside(
    unfinished: Unfinished,
    joined: &mut Vec<u8>,
    offset: u64,
    found: Record<'_>,
) -> Result<Step, AllocError>
    ensures { IfOk result (λ step. step_with_data step joined.new.items found.entry.fragment.now ≡
        log.step_inside (fragments_of unfinished joined.old.items) offset found.entry.kind found.entry.fragment.now) }
{
    match found.kind {
        Kind::Full | Kind::First if unfinished.is_empty_first => {
            step_outside(joined, offset, found)
        }
        Kind::Full => Ok(Step::Refused(LogFault::FullInside)),
        Kind::First => Ok(Step::Refused(LogFault::FirstInside)),
        Kind::Middle => {
            joined.extend_from_slice(found.fragment)?;
            Ok(Step::Open(Unfinished {
                start: unfinished.start,
                is_empty_first: false,
            }))
        }
        Kind::Last => {
            joined.extend_from_slice(found.fragment)?;
            Ok(Step::Joined)
        }
    }
}
