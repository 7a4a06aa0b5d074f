//! [`Part`]: the last part of an operand.
ghost use Rattle.std.specs.Prelude.{◌≡◌, ◌≢◌, ◌++◌, ◌≤◌, ◌<◌, ◌^◌, [], ◌∷◌, ℕ, length, take, drop, MatchOption, IfSome, IfOk, IsTrue, true};
ghost use Rattle.uc_mixed.specs.Parts as parts;

use crate::part_kind::PartKind;
use std::alloc::AllocError;

/// The number of bytes from which on a length is spelled by five bytes.
const LONG: usize = 255;

/// The last part of an operand, and the bytes before it.
#[derive(Clone, Copy)]
pub(crate) struct Part<'a> {
    /// Its operator.
    pub(crate) kind: PartKind,
    /// Its payload.
    pub(crate) payload: &'a [u8],
    /// The bytes before the part.
    pub(crate) rest: &'a [u8],
}

/// The operator `append`, of which the number follows these bytes, and the bytes before it.
fn delimiter_at_end(bytes: &[u8]) -> Option<(PartKind, &[u8])>
    ensures { MatchOption result
        (parts.kind_back (parts.backward (bytes.now ++ 5 ∷ [])) ≡ None)
        (λ p. bytes.now ++ 5 ∷ [] ≡ p.1.now ++ parts.kind_bytes p.0) }
{
    match bytes.split_last() {
        None => None,
        Some((delimiter, rest)) => Some((PartKind::Append(*delimiter), rest)),
    }
}

/// The operator `tail`, of which the number follows these bytes, and the bytes before it.
fn count_at_end(bytes: &[u8]) -> Option<(PartKind, &[u8])>
    ensures { MatchOption result
        (parts.kind_back (parts.backward (bytes.now ++ 10 ∷ [])) ≡ None)
        (λ p. bytes.now ++ 10 ∷ [] ≡ p.1.now ++ parts.kind_bytes p.0) }
{
    if bytes.len() < 2 {
        return None;
    }
    let (rest, two) = bytes.split_at(bytes.len() - 2);
    let count = u16::from(two[0]) + 256 * u16::from(two[1]);
    Some((PartKind::Tail(count), rest))
}

/// The operator at the end of some bytes, and the bytes before it.
fn kind_at_end(bytes: &[u8]) -> Option<(PartKind, &[u8])>
    ensures { MatchOption result
        (parts.kind_back (parts.backward bytes.now) ≡ None)
        (λ p. bytes.now ≡ p.1.now ++ parts.kind_bytes p.0) }
{
    match bytes.split_last() {
        None => None,
        Some((number, rest)) => match *number {
            1 => Some((PartKind::Add, rest)),
            2 => Some((PartKind::MaxBytes, rest)),
            3 => Some((PartKind::MinBytes, rest)),
            4 => Some((PartKind::Set, rest)),
            5 => delimiter_at_end(rest),
            6 => Some((PartKind::Or, rest)),
            7 => Some((PartKind::And, rest)),
            8 => Some((PartKind::Xor, rest)),
            9 => Some((PartKind::MaxRegisters, rest)),
            10 => count_at_end(rest),
            11 => Some((PartKind::MaxU64, rest)),
            12 => Some((PartKind::MinU64, rest)),
            13 => Some((PartKind::AddU64, rest)),
            14 => Some((PartKind::SetUnion, rest)),
            _ => None,
        },
    }
}

/// The length in the last four bytes, if it needs them, and the bytes before it.
fn long_length_at_end(bytes: &[u8]) -> Option<(usize, &[u8])>
    ensures { MatchOption result
        (parts.length_back (parts.backward (bytes.now ++ 255 ∷ [])) ≡ None)
        (λ p. bytes.now ++ 255 ∷ [] ≡ p.1.now ++ parts.length_bytes p.0) }
{
    if bytes.len() < 4 {
        return None;
    }
    let (rest, four) = bytes.split_at(bytes.len() - 4);
    let upper = usize::from(four[1]) + 256 * (usize::from(four[2]) + 256 * usize::from(four[3]));
    let length = usize::from(four[0]) + 256 * upper;
    if length < LONG {
        None
    } else {
        Some((length, rest))
    }
}

/// The length at the end of some bytes, and the bytes before it.
fn length_at_end(bytes: &[u8]) -> Option<(usize, &[u8])>
    ensures { MatchOption result
        (parts.length_back (parts.backward bytes.now) ≡ None)
        (λ p. bytes.now ≡ p.1.now ++ parts.length_bytes p.0) }
{
    match bytes.split_last() {
        None => None,
        Some((255, rest)) => long_length_at_end(rest),
        Some((length, rest)) => Some((usize::from(*length), rest)),
    }
}

/// The part of an operator whose payload is the last `length` bytes, if there are at least `length`.
fn payload_at_end(kind: PartKind, length: usize, bytes: &[u8]) -> Option<Part<'_>>
    ensures { MatchOption result
        (parts.cut (bytes.now ++ (parts.length_bytes length ++ parts.kind_bytes kind)) ≡ None)
        (λ p. bytes.now ++ (parts.length_bytes length ++ parts.kind_bytes kind) ≡ p.rest.now ++ parts.part_bytes p.kind p.payload.now) }
{
    if bytes.len() < length {
        return None;
    }
    let (rest, payload) = bytes.split_at(bytes.len() - length);
    Some(Part {
        kind,
        payload,
        rest,
    })
}

/// The part of an operator of which the length is at the end of some bytes.
fn part_at_end(kind: PartKind, bytes: &[u8]) -> Option<Part<'_>>
    ensures { MatchOption result
        (parts.cut (bytes.now ++ parts.kind_bytes kind) ≡ None)
        (λ p. bytes.now ++ parts.kind_bytes kind ≡ p.rest.now ++ parts.part_bytes p.kind p.payload.now) }
{
    match length_at_end(bytes) {
        None => None,
        Some((length, rest)) => payload_at_end(kind, length, rest),
    }
}

/// The last part, if the bytes end with one.
pub(crate) fn cut(bytes: &[u8]) -> Option<Part<'_>>
    ensures { MatchOption result
        (parts.cut bytes.now ≡ None)
        (λ p. bytes.now ≡ p.rest.now ++ parts.part_bytes p.kind p.payload.now) }
{
    match kind_at_end(bytes) {
        None => None,
        Some((kind, rest)) => part_at_end(kind, rest),
    }
}
