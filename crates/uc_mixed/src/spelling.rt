//! Parts as bytes.
ghost use Rattle.std.specs.Prelude.{◌≡◌, ◌++◌, ◌∷◌, [], ◌+◌, ◌≤◌, ◌%◌, length, take, drop, IfOk};
ghost use Rattle.uc_mixed.specs.Parts as parts;

use crate::part_kind::PartKind;
use std::alloc::AllocError;

/// The number of bytes from which on a length takes five bytes.
const LONG: usize = 255;

/// The low byte of a number.
fn low_byte(number: usize) -> u8
    ensures { result ≡ number % 256 }
{
    (number % 256) as u8
}

/// Appends a length. An `Err` also comes for 2^32 bytes and more.
fn push_length(mut bytes: Vec<u8>, length: usize) -> Result<Vec<u8>, AllocError>
    ensures { IfOk result (λ after. after.items ≡ bytes.items ++ parts.length_bytes length) }
{
    if length < LONG {
        bytes.push(length as u8)?;
        return Ok(bytes);
    }
    let second = length / 256;
    let third = second / 256;
    let fourth = third / 256;
    if fourth > 255 {
        return Err(AllocError);
    }
    bytes.extend_from_slice(&[
        low_byte(length),
        low_byte(second),
        low_byte(third),
        fourth as u8,
        255,
    ])?;
    Ok(bytes)
}

/// Appends an operator.
fn push_kind(mut bytes: Vec<u8>, kind: PartKind) -> Result<Vec<u8>, AllocError>
    ensures { IfOk result (λ after. after.items ≡ bytes.items ++ parts.kind_bytes kind) }
{
    match kind {
        PartKind::Append(delimiter) => bytes.extend_from_slice(&[delimiter, 5])?,
        PartKind::Tail(count) => {
            bytes.extend_from_slice(&[(count % 256) as u8, (count / 256) as u8, 10])?;
        }
        _ => bytes.push(kind.number())?,
    }
    Ok(bytes)
}

/// Makes the bytes from `start` on the payload of a part.
pub(crate) fn end_part(kind: PartKind, bytes: Vec<u8>, start: usize) -> Result<Vec<u8>, AllocError>
    requires { start ≤ length bytes.items }
    ensures { IfOk result (λ after.
        after.items ≡ take start bytes.items ++ parts.part_bytes kind (drop start bytes.items)) }
{
    let length = bytes.len() - start;
    push_kind(push_length(bytes, length)?, kind)
}

/// Appends a part.
pub(crate) fn push_part(
    mut bytes: Vec<u8>,
    kind: PartKind,
    payload: &[u8],
) -> Result<Vec<u8>, AllocError>
    ensures { IfOk result (λ after. after.items ≡ bytes.items ++ parts.part_bytes kind payload.now) }
{
    let start = bytes.len();
    bytes.extend_from_slice(payload)?;
    end_part(kind, bytes, start)
}
