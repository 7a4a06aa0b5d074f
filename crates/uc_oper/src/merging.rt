//! Merges of an operand into a value, or into none.
ghost use Rattle.std.specs.Prelude.{◌≡◌, IfOk};
ghost use Rattle.uc_oper.specs.Merging as merging;

use crate::operator::Operator;
use std::alloc::{AllocError, Global};
use uc_bytes::Bytes;

/// Applies an operand to a value, in the value's memory, or to none. An `Err` loses the value.
pub fn merged<O: Operator>(
    alloc: Global,
    value: Option<Bytes>,
    operand: &[u8],
) -> Result<Bytes, AllocError>
    ensures { IfOk result (λ after. after ≡ merging.merged O.meaning value operand.now) }
{
    let after = match value {
        None => O::first(alloc, operand)?,
        Some(base) => O::join_onto(alloc, base.into_vec(), operand)?,
    };
    Ok(Bytes::from(after))
}
