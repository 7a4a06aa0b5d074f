//! Payloads that are combined with the value before them, or with the payload of the part before them.
ghost use Rattle.std.specs.Prelude.{◌≡◌, ◌++◌, ◌∷◌, ◌+◌, ◌≤◌, length, take, drop, IfOk};
ghost use Rattle.uc_oper.specs.Greatest as greatest;
ghost use Rattle.uc_oper.specs.Tails as tails;
ghost use Rattle.uc_oper.specs.Appending as appending;
ghost use Rattle.uc_mixed.specs.Least as least;
ghost use Rattle.uc_mixed.specs.Kinds as kinds;

use crate::bytewise::{ByteFunction, combine_bytes};
use crate::number::{greater_number, lesser_number, limited_sum, number, wrapped_sum};
use crate::part_kind::PartKind;
use crate::set::unite;
use std::alloc::{AllocError, Global};

/// The bytes before `start`, and then others.
pub(crate) fn replaced(
    mut bytes: Vec<u8>,
    start: usize,
    others: &[u8],
) -> Result<Vec<u8>, AllocError>
    ensures { IfOk result (λ after. after.items ≡ take start bytes.items ++ others.now) }
{
    bytes.truncate(start);
    bytes.extend_from_slice(others)?;
    Ok(bytes)
}

/// The bytes without `count` of them from `start` on, in the same memory.
fn without(mut bytes: Vec<u8>, start: usize, count: usize) -> Vec<u8>
    requires { start + count ≤ length bytes.items }
    ensures { result.items ≡ take start bytes.items ++ drop (start + count) bytes.items }
{
    let len = bytes.len();
    bytes.copy_within(start + count..len, start);
    bytes.truncate(len - count);
    bytes
}

/// The greater of the bytes from `start` on and others, in their place.
fn keep_greater(bytes: Vec<u8>, start: usize, others: &[u8]) -> Result<Vec<u8>, AllocError>
    requires { start ≤ length bytes.items }
    ensures { IfOk result (λ after.
        after.items ≡ take start bytes.items ++ greatest.greater_of (drop start bytes.items) others.now) }
{
    if bytes[start..].cmp(&others).is_lt() {
        replaced(bytes, start, others)
    } else {
        Ok(bytes)
    }
}

/// The lesser of the bytes from `start` on and others, in their place.
fn keep_lesser(bytes: Vec<u8>, start: usize, others: &[u8]) -> Result<Vec<u8>, AllocError>
    requires { start ≤ length bytes.items }
    ensures { IfOk result (λ after.
        after.items ≡ take start bytes.items ++ least.lesser_of (drop start bytes.items) others.now) }
{
    if others.cmp(&&bytes[start..]).is_lt() {
        replaced(bytes, start, others)
    } else {
        Ok(bytes)
    }
}

/// The bytes, a delimiter, and then others.
fn appended(mut bytes: Vec<u8>, delimiter: u8, others: &[u8]) -> Result<Vec<u8>, AllocError>
    ensures { IfOk result (λ after. after.items ≡ appending.appended delimiter bytes.items others.now) }
{
    bytes.push(delimiter)?;
    bytes.extend_from_slice(others)?;
    Ok(bytes)
}

/// The last `count` of the bytes from `start` on and others, in their place.
fn keep_last(
    mut bytes: Vec<u8>,
    start: usize,
    count: usize,
    others: &[u8],
) -> Result<Vec<u8>, AllocError>
    requires { start ≤ length bytes.items }
    ensures { IfOk result (λ after.
        after.items ≡ take start bytes.items ++ tails.last_of_both count (drop start bytes.items) others.now) }
{
    bytes.extend_from_slice(others)?;
    let cut = (bytes.len() - start).saturating_sub(count);
    Ok(without(bytes, start, cut))
}

/// The bytes before `start`, and then those from `start` on combined with a payload, in their memory.
pub(crate) fn combine_onto(
    kind: PartKind,
    bytes: Vec<u8>,
    start: usize,
    payload: &[u8],
) -> Result<Vec<u8>, AllocError>
    requires { start ≤ length bytes.items }
    ensures { IfOk result (λ after.
        after.items ≡ take start bytes.items ++ kinds.combined kind (drop start bytes.items) payload.now) }
{
    match kind {
        PartKind::Add => {
            let sum = wrapped_sum(&bytes[start..], payload).to_le_bytes();
            replaced(bytes, start, &sum)
        }
        PartKind::MaxBytes => keep_greater(bytes, start, payload),
        PartKind::MinBytes => keep_lesser(bytes, start, payload),
        PartKind::Set => replaced(bytes, start, payload),
        PartKind::Append(delimiter) => appended(bytes, delimiter, payload),
        PartKind::Or => combine_bytes(ByteFunction::Or, bytes, start, payload),
        PartKind::And => combine_bytes(ByteFunction::And, bytes, start, payload),
        PartKind::Xor => combine_bytes(ByteFunction::Xor, bytes, start, payload),
        PartKind::MaxRegisters => combine_bytes(ByteFunction::Max, bytes, start, payload),
        PartKind::Tail(count) => keep_last(bytes, start, usize::from(count), payload),
        PartKind::MaxU64 => {
            let greater = greater_number(&bytes[start..], payload).to_le_bytes();
            replaced(bytes, start, &greater)
        }
        PartKind::MinU64 => {
            let lesser = lesser_number(&bytes[start..], payload).to_le_bytes();
            replaced(bytes, start, &lesser)
        }
        PartKind::AddU64 => {
            let sum = limited_sum(&bytes[start..], payload).to_le_bytes();
            replaced(bytes, start, &sum)
        }
        PartKind::SetUnion => unite(bytes, start, payload),
    }
}

/// The last `count` bytes, or all if there are fewer.
fn last_bytes(bytes: &[u8], count: usize) -> &[u8]
    ensures { result.now ≡ tails.last_bytes count bytes.now }
{
    &bytes[bytes.len().saturating_sub(count)..]
}

/// The value that a part makes if there is none.
pub(crate) fn begin(alloc: Global, kind: PartKind, payload: &[u8]) -> Result<Vec<u8>, AllocError>
    ensures { IfOk result (λ value. value.items ≡ kinds.begun kind payload.now) }
{
    match kind {
        PartKind::Add => Vec::from_slice(alloc, &number(payload).to_le_bytes()),
        PartKind::MaxBytes => Vec::from_slice(alloc, payload),
        PartKind::MinBytes => Vec::from_slice(alloc, payload),
        PartKind::Set => Vec::from_slice(alloc, payload),
        PartKind::Append(_) => Vec::from_slice(alloc, payload),
        PartKind::Or => Vec::from_slice(alloc, payload),
        PartKind::And => Vec::from_slice(alloc, payload),
        PartKind::Xor => Vec::from_slice(alloc, payload),
        PartKind::MaxRegisters => Vec::from_slice(alloc, payload),
        PartKind::Tail(count) => Vec::from_slice(alloc, last_bytes(payload, usize::from(count))),
        PartKind::MaxU64 => Vec::from_slice(alloc, &number(payload).to_le_bytes()),
        PartKind::MinU64 => Vec::from_slice(alloc, &number(payload).to_le_bytes()),
        PartKind::AddU64 => Vec::from_slice(alloc, &number(payload).to_le_bytes()),
        PartKind::SetUnion => Vec::from_slice(alloc, payload),
    }
}
