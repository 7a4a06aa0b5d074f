//! The encoding of an entry.
ghost use Rattle.std.specs.Prelude.{◌≡◌, ◌<◌, ◌^◌, ◌++◌, take, drop, OnOk};
ghost use mathlib.Core.List.{IsPrefix};
ghost use Rattle.uc_run_entry.specs.Packed.{what_of};
ghost use Rattle.uc_run_points.specs.Spelling as spelling;
ghost use Rattle.uc_run_points.specs.Spelling.{Fits};

use crate::number::{push_number, read_number, skip_number};
use crate::point_ref::PointRef;
use std::alloc::AllocError;
use uc_run_entry::WhatRef;

/// Returns the tag of an entry's change, and its value or operand.
#[inline]
fn tagged(what: WhatRef<'_>) -> (u64, &[u8])
    ensures tag { result.0 ≡ spelling.tag_of (what_of what.entry) }
    ensures text { result.1.now ≡ spelling.text_of (what_of what.entry) }
    ensures bound { result.0 < 4 }
{
    match what {
        WhatRef::Put(value) => (1, value),
        WhatRef::Delete => (0, &[]),
        WhatRef::Merge(operand) => (2, operand),
    }
}

/// Pushes the encoding of an entry. On `Err` some of its bytes may have been pushed.
#[tactic(auto, unfolding(crate::specs::Spelling::entry_text))]
pub(crate) fn push_entry(
    bytes: &mut Vec<u8>,
    key: &[u8],
    seq: u64,
    what: WhatRef<'_>,
) -> Result<(), AllocError>
    requires { seq < 2 ^ 62 }
    ensures pushed { OnOk result
        (bytes.new.items ≡
        bytes.old.items
        ++ spelling.entry_text (record { key = key.now; seq = seq; what = what_of what.entry })) }
    ensures fits { OnOk result (Fits (record { key = key.now; seq = seq; what = what_of what.entry })) }
    ensures begins { IsPrefix bytes.old.items bytes.new.items }
{
    let (tag, text) = tagged(what);
    push_number(bytes, key.len() as u64)?;
    push_number(bytes, text.len() as u64)?;
    push_number(bytes, 4 * seq + tag)?;
    bytes.extend_from_slice(key)?;
    bytes.extend_from_slice(text)?;
    Ok(())
}

/// Splits `bytes` after the first `count` bytes, or at the end if there are fewer.
#[inline]
fn split_front(bytes: &[u8], count: u64) -> (&[u8], &[u8])
    ensures front { result.0.now ≡ take count bytes.now }
    ensures rest { result.1.now ≡ drop count bytes.now }
{
    bytes.split_at(bytes.len().min(count as usize))
}

/// Returns the first entry, and the bytes that follow it.
#[inline]
#[tactic(auto, unfolding(crate::specs::Spelling::entry_from))]
pub(crate) fn read_entry(bytes: &[u8]) -> (PointRef<'_>, &[u8])
    ensures entry { result.0 ≡ (spelling.entry_from bytes.now).0 }
    ensures rest { result.1.now ≡ (spelling.entry_from bytes.now).1 }
{
    let (key_len, rest) = read_number(bytes);
    let (text_len, rest) = read_number(rest);
    let trailer = rest;
    let (key, rest) = split_front(skip_number(trailer), key_len);
    let (text, rest) = split_front(rest, text_len);
    (PointRef::new(key, trailer, text), rest)
}
