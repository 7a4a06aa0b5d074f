//! Byte strings: their order, compared eight bytes at a time, and their prefixes.
ghost use Rattle.std.specs.Prelude.{◌≡◌, take, drop};
ghost use Rattle.uc_bytes.specs.Bytes.{bytes_cmp, same_bytes};

use crate::prefixes::{PREFIX_BYTES, prefix_of};
use std::cmp::Ordering;

/// Compares two byte strings: byte by byte, a proper prefix first. It costs a step for each eight bytes that are equal, where the
/// `cmp` of slices compares each byte.
pub fn text_order(text: &[u8], other: &[u8]) -> Ordering
    ensures { result ≡ bytes_cmp text.now other.now }
{
    let (mut rest, mut other_rest) = (text, other);
    loop {
        let (number, other_number) = (prefix_of(rest), prefix_of(other_rest));
        if number != other_number {
            return number.cmp(&other_number);
        }
        if rest.len().min(other_rest.len()) <= PREFIX_BYTES {
            return rest.len().cmp(&other_rest.len());
        }
        rest = &rest[PREFIX_BYTES..];
        other_rest = &other_rest[PREFIX_BYTES..];
    }
}

/// Whether two byte strings are equal. It costs a step for each eight bytes.
pub fn same_text(text: &[u8], other: &[u8]) -> bool
    ensures { result ≡ same_bytes text.now other.now }
{
    let (mut rest, mut other_rest) = (text, other);
    loop {
        if rest.len().min(other_rest.len()) < PREFIX_BYTES {
            return rest == other_rest;
        }
        if prefix_of(rest) != prefix_of(other_rest) {
            return false;
        }
        rest = &rest[PREFIX_BYTES..];
        other_rest = &other_rest[PREFIX_BYTES..];
    }
}

/// This many bytes at the front, and those after them; all and none if there are fewer.
#[inline]
pub(crate) fn split_front(text: &[u8], count: usize) -> (&[u8], &[u8])
    ensures front { result.0.now ≡ take count text.now }
    ensures rest { result.1.now ≡ drop count text.now }
{
    text.split_at(count.min(text.len()))
}
