//! [`SlotRef`]: a slot's write, with a borrowed key and value.
ghost use Rattle.std.specs.Prelude.{◌≡◌, Some, None, if◌then◌else◌};
ghost use Rattle.uc_bytes.specs.Borrowed.{op_of};
ghost use Rattle.uc_run.specs.Flush as flush;
ghost use Rattle.uc_run.specs.Ranks.{entry_in};

use crate::entry_ref::EntryRef;
use std::marker::Model;
use uc_bytes::{OpKind, OpRef, WriteRef};
use uc_run_entry::{Range, WhatRef};

/// A slot's write, decoded: its key and value stay in the arena. A contract sees it as the `Write`.
#[derive(Drop)]
pub(crate) struct SlotRef<'a> {
    seq: u64,
    kind: OpKind,
    first: &'a [u8],
    /// Ignored if the kind has only one byte string.
    second: &'a [u8],
}

impl<'a> Model for SlotRef<'a> {
    ghost use Rattle.uc_bytes.specs.Borrowed.{op_of};
    ghost use Rattle.uc_bytes.specs.declared.write.Write.{Write};

    ghost Value = { Write };

    ghost view = { λ s. record { seq = s.seq; op = op_of s.kind s.first.now s.second.now } };
}

impl<'a> SlotRef<'a> {
    /// The write of a kind with this key and value.
    #[inline]
    pub(crate) fn new(seq: u64, kind: OpKind, first: &'a [u8], second: &'a [u8]) -> SlotRef<'a>
        ensures { result ≡ record { seq = seq; op = op_of kind first.now second.now } }
    {
        SlotRef {
            seq,
            kind,
            first,
            second,
        }
    }

    /// Its place in the order of all writes.
    #[inline]
    pub(crate) fn seq(&self) -> u64
        ensures { result ≡ self.now.seq }
    {
        self.seq
    }

    /// Whether it changes one key.
    #[inline]
    pub(crate) fn is_point(&self) -> bool
        ensures { flush.point_of self.now.seq self.now.op ≡ (if result then Some (entry_in self.now) else None) }
    {
        match self.kind {
            OpKind::DeleteRange => false,
            OpKind::Put | OpKind::Delete | OpKind::Merge => true,
        }
    }

    /// The write.
    pub(crate) fn write(&self) -> WriteRef<'a>
        ensures { result ≡ self.now }
    {
        let op = match self.kind {
            OpKind::Put => OpRef::put(self.first, self.second),
            OpKind::Delete => OpRef::delete(self.first),
            OpKind::Merge => OpRef::merge(self.first, self.second),
            OpKind::DeleteRange => OpRef::delete_range(self.first, self.second),
        };
        WriteRef::new(self.seq, op)
    }

    /// The point. Nothing is required of the write, since a sort asks for the order of any two.
    #[inline]
    pub(crate) fn point(&self) -> EntryRef<'a>
        ensures { result ≡ entry_in self.now }
    {
        match self.kind {
            OpKind::Put => EntryRef::new(self.first, self.seq, WhatRef::Put(self.second)),
            OpKind::Merge => EntryRef::new(self.first, self.seq, WhatRef::Merge(self.second)),
            OpKind::Delete | OpKind::DeleteRange => {
                EntryRef::new(self.first, self.seq, WhatRef::Delete)
            }
        }
    }

    /// The range that it deletes, if it is a range deletion.
    pub(crate) fn range(&self) -> Option<Range<'a>>
        ensures { result ≡ flush.range_of self.now.seq self.now.op }
    {
        match self.kind {
            OpKind::DeleteRange => Some(Range::new(self.first, self.second, self.seq)),
            OpKind::Put | OpKind::Delete | OpKind::Merge => None,
        }
    }
}
