//! [`PointRef`]: a point with borrowed byte strings.
ghost use Rattle.std.specs.Prelude.{◌≡◌, ◌<◌, ◌^◌, ◌↔◌, IsTrue, IfOk};
ghost use Rattle.uc_run_entry.specs.Overwriting as overwriting;
ghost use Rattle.uc_run_entry.specs.Packed as packed;
ghost use Rattle.uc_run_points.specs.Numbers.{number_from};
ghost use Rattle.uc_run_points.specs.Spelling as spelling;

use crate::number::read_number;
use std::alloc::{AllocError, Global};
use std::marker::Model;
use uc_bytes::Bytes;
use uc_run_entry::{Entry, WhatRef};

/// Tag of a deletion: `kTypeDeletion` in RocksDB's `dbformat.h`.
const DELETION: u64 = 0x0;

/// Tag of a put: `kTypeValue`.
const VALUE: u64 = 0x1;

/// A point of a run: one change to one key, with borrowed byte strings. A contract sees it as the [`Entry`].
#[derive(Drop)]
pub struct PointRef<'a> {
    key: &'a [u8],
    /// Begins with the trailer: the sequence number times four, plus the tag. Decoded on demand, since most walks do not read it.
    trailer: &'a [u8],
    text: &'a [u8],
}

impl<'a> Model for PointRef<'a> {
    ghost use Rattle.uc_run_entry.specs.declared.entry.Entry.{Entry};
    ghost use Rattle.uc_run_points.specs.Numbers.{number_from};
    ghost use Rattle.uc_run_points.specs.Spelling.{entry_of};

    ghost Value = { Entry };

    ghost view = { λ p. entry_of (number_from p.trailer.now).0 p.key.now p.text.now };
}

/// Returns the change that a tag and a byte string encode.
#[inline]
fn said(tag: u64, text: &[u8]) -> WhatRef<'_>
    ensures { packed.what_of result ≡ packed.tagged tag text.now }
{
    match tag {
        DELETION => WhatRef::Delete,
        VALUE => WhatRef::Put(text),
        _ => WhatRef::Merge(text),
    }
}

impl<'a> PointRef<'a> {
    /// Returns the point with this key and this value or operand. `trailer` begins with the encoded trailer.
    #[inline]
    pub(crate) fn new(key: &'a [u8], trailer: &'a [u8], text: &'a [u8]) -> PointRef<'a>
        ensures { result ≡ spelling.entry_of (number_from trailer.now).0 key.now text.now }
    {
        PointRef { key, trailer, text }
    }

    /// Returns the same point.
    #[inline]
    pub(crate) fn again(&self) -> PointRef<'a>
        ensures { result ≡ self.now }
    {
        PointRef {
            key: self.key,
            trailer: self.trailer,
            text: self.text,
        }
    }

    /// Returns the key.
    #[inline]
    pub fn key(&self) -> &'a [u8]
        ensures { result.now ≡ self.now.key }
    {
        self.key
    }

    /// Returns the sequence number.
    #[inline]
    pub fn seq(&self) -> u64
        ensures value { result ≡ self.now.seq }
        ensures below { result < 2 ^ 62 }
    {
        read_number(self.trailer).0 / 4
    }

    /// Returns the change to the key.
    #[inline]
    pub fn what(&self) -> WhatRef<'a>
        ensures { packed.what_of result ≡ self.now.what }
    {
        said(read_number(self.trailer).0 % 4, self.text)
    }

    /// Returns the sequence number and the change. Decodes the trailer once for both.
    #[inline]
    pub fn seq_and_what(&self) -> (u64, WhatRef<'a>)
        ensures seq { result.0 ≡ self.now.seq }
        ensures below { result.0 < 2 ^ 62 }
        ensures what { packed.what_of result.1 ≡ self.now.what }
    {
        let trailer = read_number(self.trailer).0;
        (trailer / 4, said(trailer % 4, self.text))
    }

    /// Returns true for a put or a delete, which hide older writes of the key, and false for a merge.
    #[inline]
    pub fn overwrites(&self) -> bool
        ensures { result ≡ overwriting.overwrites self.now }
    {
        match self.what() {
            WhatRef::Put(_) | WhatRef::Delete => true,
            WhatRef::Merge(_) => false,
        }
    }

    /// Returns a copy that owns its byte strings. Fails if allocation fails.
    pub fn to_entry(&self, alloc: Global) -> Result<Entry, AllocError>
        ensures { IfOk result (λ entry. entry ≡ self.now) }
    {
        Ok(Entry {
            key: Bytes::from_slice(alloc, self.key())?,
            seq: self.seq(),
            what: self.what().to_what(alloc)?,
        })
    }

    /// Returns true if both points have the same key, sequence number and change.
    pub fn same(&self, other: &PointRef<'_>) -> bool
        ensures { IsTrue result ↔ (self.now ≡ other.now) }
    {
        self.key() == other.key() && self.seq() == other.seq() && self.what() == other.what()
    }
}
