//! Prefixes of keys: numbers that order as the keys do, made of the bytes after those that all keys share.
ghost use Rattle.std.specs.Prelude.{◌≡◌, ◌<◌, ◌≤◌, ◌↔◌, true, false, Some, length, map, drop, slice_index, nat_eq, IsTrue, IfOk};
ghost use Rattle.std.specs.List as list;
ghost use Rattle.std.specs.List.{AllWithin, slice_get};
ghost use Rattle.std.specs.List.Sorted.{IsNonDecreasing, IsPartitionPoint};
ghost use Rattle.uc_run_entry.specs.Seek as seek;
ghost use Rattle.uc_run.specs.Prefixes as prefixes;
ghost use Rattle.uc_run.specs.Prefixes.{AreBytes, AreRising, ArePrefixes};

use crate::places::is_passed;
use std::alloc::{AllocError, Global};
use uc_bytes::Bytes;

/// The number of bytes of a key that make a prefix.
pub(crate) const PREFIX_BYTES: usize = 8;

/// The byte at a place, or 0 if there is none.
#[inline]
pub(crate) fn byte_or_zero(bytes: &[u8], place: usize) -> u8
    ensures { result ≡ slice_index bytes.now place }
{
    match bytes.get(place) {
        Some(byte) => *byte,
        None => 0,
    }
}

/// The first eight bytes as a number, with zeros for those that aren't there.
#[inline(never)]
fn padded_prefix(bytes: &[u8]) -> u64
    ensures { result ≡ prefixes.prefix_of bytes.now }
{
    u64::from_be_bytes([
        byte_or_zero(bytes, 0),
        byte_or_zero(bytes, 1),
        byte_or_zero(bytes, 2),
        byte_or_zero(bytes, 3),
        byte_or_zero(bytes, 4),
        byte_or_zero(bytes, 5),
        byte_or_zero(bytes, 6),
        byte_or_zero(bytes, 7),
    ])
}

/// The first eight bytes as a number: read at once if there are eight.
#[inline]
pub(crate) fn prefix_of(bytes: &[u8]) -> u64
    ensures prefix { result ≡ prefixes.prefix_of bytes.now }
    ensures bytes { AreBytes bytes.now }
{
    match bytes.first_chunk::<8>() {
        Some(first) => u64::from_be_bytes(*first),
        None => padded_prefix(bytes),
    }
}

/// The number of bytes that two keys have in common at their front.
pub(crate) fn common_prefix_len(first: &[u8], last: &[u8]) -> usize
    ensures shared { result ≡ list.common_prefix_len nat_eq first.now last.now }
    ensures within { result ≤ length first.now }
{
    let short = first.len().min(last.len());
    for place in 0..short {
        if first[place] != last[place] {
            return place;
        }
    }
    short
}

/// Whether the prefix at a place is this one.
#[inline]
fn is_at(prefixes: &[u64], place: usize, wanted: u64) -> bool
    ensures { IsTrue result ↔ (slice_get prefixes.now place ≡ Some wanted) }
{
    match prefixes.get(place) {
        None => false,
        Some(prefix) => *prefix == wanted,
    }
}

/// The number of prefixes below one, and at or below it. Few searches have an equal prefix: only those cost a second
/// search.
pub(crate) fn equal_range(prefixes: &[u64], wanted: u64) -> (usize, usize)
    requires { IsNonDecreasing prefixes.now }
    ensures below { IsPartitionPoint (λ prefix. prefix < wanted) (λ prefix. wanted ≤ prefix) prefixes.now result.0 }
    ensures up_to { IsPartitionPoint (λ prefix. prefix ≤ wanted) (λ prefix. wanted < prefix) prefixes.now result.1 }
    ensures order { result.0 ≤ result.1 }
    ensures bound { result.1 ≤ length prefixes.now }
{
    let below = prefixes.partition_point(|prefix| *prefix < wanted);
    if !is_at(prefixes, below, wanted) {
        return (below, below);
    }
    let up_to = prefixes.partition_point(|prefix| *prefix <= wanted);
    (below, up_to)
}
