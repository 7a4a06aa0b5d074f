//! The calls of lines after `open`, one after the other: a `feed` takes the changes collected before it.

ghost use Rattle.std.specs.Prelude.{◌≡◌, IfOk, OnOk, OnErr};
ghost use Rattle.uc_script.specs.Reading as reading;
ghost use Rattle.uc_script.specs.Script.{call_after, ops_after};

use crate::call::Call;
use crate::call_line::CallLine;
use std::alloc::{AllocError, Global};
use std::mem;
use uc_bytes::{Items, Op};

/// The call of a line, if it is one. A change is appended to the others, and a `feed` takes them all, without a copy.
///
/// An `Err` leaves the changes as they were.
pub(crate) fn take_line(
    alloc: Global,
    said: CallLine,
    ops: &mut Vec<Op>,
) -> Result<Option<Call>, AllocError>
    ensures call { IfOk result (λ call. call ≡ call_after ops.old.items said) }
    ensures ops { OnOk result (ops.new.items ≡ ops_after ops.old.items said) }
    ensures err { OnErr result (ops.new.items ≡ ops.old.items) }
{
    match said {
        CallLine::Skipped => Ok(None),
        CallLine::Change(op) => {
            ops.push(op)?;
            Ok(None)
        }
        CallLine::Feed => {
            let fed = mem::replace(ops, Vec::new(alloc));
            Ok(Some(Call::Feed(Items::from(fed))))
        }
        CallLine::Ask(call) => Ok(Some(call)),
    }
}

/// Whether changes are left after a line that no `feed` took yet, by whether some were before it.
pub(crate) fn unfed_after(is_unfed: bool, said: &CallLine) -> bool
    ensures { result ≡ reading.unfed_after is_unfed said.now }
{
    match said {
        CallLine::Skipped | CallLine::Ask(_) => is_unfed,
        CallLine::Change(_) => true,
        CallLine::Feed => false,
    }
}
