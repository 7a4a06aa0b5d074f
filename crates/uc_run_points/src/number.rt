//! Numbers in one to nine bytes.
ghost use Rattle.std.specs.Prelude.{◌≡◌, ℕ, ◌<◌, ◌≤◌, ◌^◌, ◌++◌, List, length, slice_index, IsTrue, OnOk, IfSome, IfNone, ◌↔◌};
ghost use Rattle.std.specs.Int.{w64, from_le_bytes};
ghost use mathlib.Core.List.{IsPrefix};
ghost use Rattle.uc_run_points.specs.Numbers as numbers;

use std::alloc::AllocError;

/// The least number that takes more than one byte.
const LEAST_LONG: u64 = 248;

/// The first byte of a longer number, minus the number of bytes that follow it.
const LONG: u8 = 247;

/// Returns the width of a number: the bytes that it takes without leading zeros.
#[tactic(auto, unfolding(crate::specs::Numbers::width_of))]
fn width_of(number: u64) -> usize
    ensures width { result ≡ numbers.width_of number }
    ensures bound { result ≤ 8 }
{
    if number < 1 << 8 {
        1
    } else if number < 1 << 16 {
        2
    } else if number < 1 << 24 {
        3
    } else if number < 1 << 32 {
        4
    } else if number < 1 << 40 {
        5
    } else if number < 1 << 48 {
        6
    } else if number < 1 << 56 {
        7
    } else {
        8
    }
}

/// Pushes the encoding of a number. On `Err` some of its bytes may have been pushed.
#[tactic(auto, unfolding(crate::specs::Numbers::number_text))]
pub fn push_number(bytes: &mut Vec<u8>, number: u64) -> Result<(), AllocError>
    ensures pushed { OnOk result (bytes.new.items ≡ bytes.old.items ++ numbers.number_text number) }
    ensures begins { IsPrefix bytes.old.items bytes.new.items }
{
    if number < LEAST_LONG {
        bytes.push(number as u8)?;
        return Ok(());
    }
    let width = width_of(number);
    bytes.push(LONG + width as u8)?;
    bytes.extend_from_slice(&number.to_le_bytes()[..width])?;
    Ok(())
}

/// Returns the byte at index `place`, or 0 if there is none.
#[inline]
fn byte_or_zero(bytes: &[u8], place: usize) -> u8
    ensures { result ≡ slice_index bytes.now place }
{
    match bytes.get(place) {
        Some(byte) => *byte,
        None => 0,
    }
}

/// Returns the first eight bytes as a little-endian number. Missing bytes count as 0. Fast for up to four bytes, the usual case.
#[inline]
fn low_number(bytes: &[u8]) -> u64
    ensures { result ≡ from_le_bytes w64 bytes.now }
{
    match bytes {
        [a] => u64::from(*a),
        [a, b] => u64::from_le_bytes([*a, *b, 0, 0, 0, 0, 0, 0]),
        [a, b, c] => u64::from_le_bytes([*a, *b, *c, 0, 0, 0, 0, 0]),
        [a, b, c, d] => u64::from_le_bytes([*a, *b, *c, *d, 0, 0, 0, 0]),
        _ => wide_number(bytes),
    }
}

/// The general case of [`low_number`]: any number of bytes.
fn wide_number(bytes: &[u8]) -> u64
    ensures { result ≡ from_le_bytes w64 bytes.now }
{
    u64::from_le_bytes([
        byte_or_zero(bytes, 0),
        byte_or_zero(bytes, 1),
        byte_or_zero(bytes, 2),
        byte_or_zero(bytes, 3),
        byte_or_zero(bytes, 4),
        byte_or_zero(bytes, 5),
        byte_or_zero(bytes, 6),
        byte_or_zero(bytes, 7),
    ])
}

/// Returns the number at the front, and the bytes that follow it.
#[inline]
#[tactic(auto, unfolding(crate::specs::Numbers::number_from))]
pub fn read_number(bytes: &[u8]) -> (u64, &[u8])
    ensures number { result.0 ≡ (numbers.number_from bytes.now).0 }
    ensures rest { result.1.now ≡ (numbers.number_from bytes.now).1 }
{
    let [first, rest @ ..] = bytes else {
        return (0, bytes);
    };
    if *first <= LONG {
        return (u64::from(*first), rest);
    }
    let width = usize::from(*first - LONG);
    let (low, rest) = rest.split_at(width.min(rest.len()));
    (low_number(low), rest)
}

/// Returns the bytes after the number at the front.
#[inline]
#[tactic(auto, unfolding(crate::specs::Numbers::number_from))]
pub(crate) fn skip_number(bytes: &[u8]) -> &[u8]
    ensures { result.now ≡ (numbers.number_from bytes.now).1 }
{
    let [first, rest @ ..] = bytes else {
        return bytes;
    };
    if *first <= LONG {
        return rest;
    }
    let width = usize::from(*first - LONG);
    let (_, rest) = rest.split_at(width.min(rest.len()));
    rest
}

/// Returns true if the number takes more than one byte and has this width.
fn needs(number: u64, width: usize) -> bool
    ensures { IsTrue result ↔ ((248 ≤ number) × (numbers.width_of number ≡ width)) }
{
    LEAST_LONG <= number && width_of(number) == width
}

/// Returns the number at the front and the bytes that follow it, or `None` unless it is in its shortest encoding.
pub fn spelled_number(bytes: &[u8]) -> Option<(u64, &[u8])>
    ensures some { IfSome result (λ read. bytes.now ≡ numbers.number_text read.0 ++ read.1.now) }
    ensures none { IfNone result ((number : ℕ) (rest : List ℕ) → number < 2 ^ 64 →
        bytes.now ≡ numbers.number_text number ++ rest → ⊥) }
    ensures bound { IfSome result (λ read. read.0 < 2 ^ 64) }
{
    let [first, rest @ ..] = bytes else {
        return None;
    };
    if *first <= LONG {
        return Some((u64::from(*first), rest));
    }
    let width = usize::from(*first - LONG);
    if width > rest.len() {
        return None;
    }
    let (low, rest) = rest.split_at(width);
    let number = low_number(low);
    if !needs(number, width) {
        return None;
    }
    Some((number, rest))
}
