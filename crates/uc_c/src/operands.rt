//! Operands of the operator `mixed`, which C merges as it merges others.
ghost use Rattle.std.specs.Prelude.{Some};
ghost use Rattle.uc_mixed.specs.Operands.{is_operand};
ghost use Rattle.uc_c.specs.Operands.{LaysOfKind, LaysOperand, SaysOperand};

use crate::logs::lay;
use crate::status::{BAD_OPERAND, OK, OUT_OF_MEMORY, TOO_LONG, UNKNOWN_OPERATOR};
use std::alloc::Global;
use uc_mixed::{PartKind, has_shape, is_operand, operand_of};

/// The length from which on a payload is too long.
const LENGTHS: usize = 1 << 32;

/// Copies the operand that applies an operator with a payload into the buffer, and stores its length. The parameter is the delimiter of
/// `append`, the number of bytes of `tail`, and 0 for all others. If the operand doesn't fit, only its length is stored. Fails if no
/// operator has the number and the parameter, if the payload hasn't the operator's shape or has 2^32 bytes or more, or if allocation
/// fails.
#[unsafe(no_mangle)]
pub extern "C" fn ucstore_operand(
    alloc: Global,
    operator: u32,
    parameter: u32,
    payload: &[u8],
    room: &mut [u8],
    size: &mut usize,
) -> i32
    ensures { LaysOperand result operator parameter payload.now room.old room.new size.old size.new }
{
    match PartKind::of(operator, parameter) {
        None => UNKNOWN_OPERATOR,
        Some(kind) => lay_operand(alloc, kind, payload, room, size),
    }
}

/// Copies an operand of an operator into the buffer, and stores its length.
fn lay_operand(
    alloc: Global,
    kind: PartKind,
    payload: &[u8],
    room: &mut [u8],
    size: &mut usize,
) -> i32
    ensures { LaysOfKind result payload.now room.old room.new size.old size.new (Some kind) }
{
    if !has_shape(kind, payload) {
        return BAD_OPERAND;
    }
    if payload.len() >= LENGTHS {
        return TOO_LONG;
    }
    match operand_of(alloc, kind, payload) {
        Ok(operand) => lay(operand.as_slice(), room, size),
        Err(_) => OUT_OF_MEMORY,
    }
}

/// Fails if the bytes aren't an operand of `mixed`: one or more parts and nothing else, each with a payload of its operator's shape.
#[unsafe(no_mangle)]
pub extern "C" fn ucstore_operand_check(operand: &[u8]) -> i32
    ensures { SaysOperand result (is_operand operand.now) }
{
    if is_operand(operand) { OK } else { BAD_OPERAND }
}
