//! [`EntryRef`]: a point with a borrowed key and value.
ghost use Rattle.std.specs.Prelude.{◌≡◌, ◌<◌, ◌^◌, ◌++◌, ◌∷◌, [], OnOk};
ghost use Rattle.std.specs.Ordering.{nat_cmp};
ghost use Rattle.uc_run_entry.specs.Packed as packed;
ghost use Rattle.uc_run.specs.Ranks.{behind_cmp};

use crate::texts::{split_front, text_order};
use std::alloc::AllocError;
use std::cmp::Ordering;
use std::marker::Model;
use uc_run_entry::WhatRef;
use uc_run_points::Points;

/// A point with a borrowed key and value. A contract sees it as the `Entry`.
#[derive(Drop)]
pub(crate) struct EntryRef<'a> {
    key: &'a [u8],
    seq: u64,
    what: WhatRef<'a>,
}

impl<'a> Model for EntryRef<'a> {
    ghost use Rattle.uc_run_entry.specs.declared.entry.Entry.{Entry};
    ghost use Rattle.uc_run_entry.specs.Packed.{what_of};

    ghost Value = { Entry };

    ghost view = { λ p. record { key = p.key.now; seq = p.seq; what = what_of p.what } };
}

impl<'a> EntryRef<'a> {
    /// The point that says this of a key at a sequence.
    #[inline]
    pub(crate) fn new(key: &'a [u8], seq: u64, what: WhatRef<'a>) -> EntryRef<'a>
        ensures { result ≡ record { key = key.now; seq = seq; what = packed.what_of what.entry } }
    {
        EntryRef { key, seq, what }
    }

    /// The key.
    #[inline]
    pub(crate) fn key(&self) -> &'a [u8]
        ensures { result.now ≡ self.now.key }
    {
        self.key
    }

    /// Its order to another whose key has the same front of shared bytes: by what is after it, the newest of a key first.
    #[inline]
    pub(crate) fn order_behind(&self, other: &EntryRef<'_>, shared: usize) -> Ordering
        ensures { result ≡ behind_cmp shared self.now other.now }
    {
        let (_, rest) = split_front(self.key, shared);
        let (_, other_rest) = split_front(other.key, shared);
        text_order(rest, other_rest).then(self.newest_first(other))
    }

    /// Its order to another of the same key.
    #[inline]
    fn newest_first(&self, other: &EntryRef<'_>) -> Ordering
        ensures { result ≡ nat_cmp other.now.seq self.now.seq }
    {
        other.seq.cmp(&self.seq)
    }

    /// Appends the point, with a copy of its key and value.
    #[inline]
    pub(crate) fn push_to(&self, points: &mut Points) -> Result<(), AllocError>
        requires { self.now.seq < 2 ^ 56 }
        ensures { OnOk result (points.new ≡ points.old ++ self.now ∷ []) }
    {
        points.push(self.key, self.seq, self.what)
    }
}
