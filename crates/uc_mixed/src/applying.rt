//! The value that an operand makes of another.
ghost use Rattle.std.specs.Prelude.{◌≡◌, ◌≤◌, ◌<◌, ℕ, List, Option, length, take, IfOk};
ghost use Rattle.uc_mixed.specs.Parts as parts;
ghost use Rattle.uc_mixed.specs.Mixing as mixing;
ghost use Rattle.uc_mixed.specs.Walks as walks;

use crate::combining::{begin, combine_onto};
use crate::part::cut;
use crate::part_kind::PartKind;
use std::alloc::{AllocError, Global};
use uc_bytes::Bytes;

/// Applies a part to a value, in its memory, or to none.
fn apply_part(
    alloc: Global,
    value: Option<Bytes>,
    kind: PartKind,
    payload: &[u8],
) -> Result<Bytes, AllocError>
    ensures { IfOk result (λ after. after ≡ mixing.applied kind payload.now value) }
{
    let after = match value {
        None => begin(alloc, kind, payload)?,
        Some(base) => combine_onto(kind, base.into_vec(), 0, payload)?,
    };
    Ok(Bytes::from(after))
}

/// The ends of an operand's parts, the last part first, and the number of bytes before the first part.
struct Ends {
    ends: Vec<usize>,
    front: usize,
}

/// Finds the ends of an operand's parts.
fn find_ends(alloc: Global, operand: &[u8]) -> Result<Ends, AllocError>
    ensures within { IfOk result (λ w. w.front ≤ length operand.now) }
    ensures parts { IfOk result (λ w. (value : Option (List ℕ)) →
        walks.finished operand.now (parts.backward w.ends.items) (mixing.front value (take w.front operand.now)) ≡
        mixing.after value operand.now) }
{
    let mut ends = Vec::new(alloc);
    let mut end = operand.len();
    while let Some(part) = cut(&operand[..end]) {
        ends.push(end)?;
        end = part.rest.len();
    }
    Ok(Ends { ends, front: end })
}

/// Applies the parts that end at these places to a value or none, the last place first.
fn finish(
    alloc: Global,
    operand: &[u8],
    mut ends: Vec<usize>,
    mut value: Option<Bytes>,
) -> Result<Option<Bytes>, AllocError>
    ensures { IfOk result (λ after. after ≡ walks.finished operand.now (parts.backward ends.items) value) }
{
    while let Some(end) = ends.pop() {
        if let Some(part) = cut(&operand[..end.min(operand.len())]) {
            value = Some(apply_part(alloc, value, part.kind, part.payload)?);
        }
    }
    Ok(value)
}

/// The bytes before the first part, or the value before the operand if there are none.
fn value_before(
    alloc: Global,
    value: Option<Bytes>,
    front: &[u8],
) -> Result<Option<Bytes>, AllocError>
    ensures { IfOk result (λ before. before ≡ mixing.front value front.now) }
{
    if front.is_empty() {
        Ok(value)
    } else {
        Ok(Some(Bytes::from_slice(alloc, front)?))
    }
}

/// The value after an operand of several parts.
fn value_of_parts(
    alloc: Global,
    value: Option<Bytes>,
    operand: &[u8],
) -> Result<Vec<u8>, AllocError>
    requires { 0 < length operand.now }
    ensures { IfOk result (λ after. after.items ≡ mixing.value_after value operand.now) }
{
    let Ends { ends, front } = find_ends(alloc, operand)?;
    let before = value_before(alloc, value, &operand[..front])?;
    match finish(alloc, operand, ends, before)? {
        Some(after) => Ok(after.into_vec()),
        None => unreachable!(),
    }
}

/// The value that an operand makes of a value, in its memory, or of none. One part takes no memory of its own.
pub(crate) fn value_after(
    alloc: Global,
    value: Option<Bytes>,
    operand: &[u8],
) -> Result<Vec<u8>, AllocError>
    ensures { IfOk result (λ after. after.items ≡ mixing.value_after value operand.now) }
{
    match cut(operand) {
        None => Vec::from_slice(alloc, operand),
        Some(part) => {
            if part.rest.is_empty() {
                let after = apply_part(alloc, value, part.kind, part.payload)?;
                Ok(after.into_vec())
            } else {
                value_of_parts(alloc, value, operand)
            }
        }
    }
}
