//! [`OpRef`]: a change with borrowed byte strings.
ghost use Rattle.std.specs.Prelude.{◌≡◌, [], IfOk};
ghost use Rattle.uc_bytes.specs.declared.op.Op.TheVariants as changes;
ghost use Rattle.uc_bytes.specs.Borrowed.{op_of};

use crate::bytes::Bytes;
use crate::op::Op;
use std::alloc::{AllocError, Global};
use std::marker::Model;

/// The kind of a change.
#[derive(Clone, Copy, Debug, PartialEq, Eq)]
pub enum OpKind {
    /// Sets a key to a value.
    Put,
    /// Deletes a key.
    Delete,
    /// Merges an operand into a key.
    Merge,
    /// Deletes all keys from a begin, inclusive, to an end, exclusive.
    DeleteRange,
}

/// An [`Op`] with borrowed byte strings, made without allocating. A contract sees it as the `Op`.
#[derive(Drop)]
pub struct OpRef<'a> {
    kind: OpKind,
    first: &'a [u8],
    // Empty for `OpKind::Delete`.
    second: &'a [u8],
}

impl<'a> Model for OpRef<'a> {
    ghost use Rattle.uc_bytes.specs.declared.op.Op.{Op};
    ghost use Rattle.uc_bytes.specs.Borrowed.{op_of};

    ghost Value = { Op };

    ghost view = { λ o. op_of o.kind o.first.now o.second.now };
}

impl<'a> OpRef<'a> {
    /// Returns the same change as `op`, which it borrows from.
    pub fn of(op: &'a Op) -> OpRef<'a>
        ensures { result ≡ op.now }
    {
        match op {
            Op::Put(key, value) => OpRef::put(key.as_slice(), value.as_slice()),
            Op::Delete(key) => OpRef::delete(key.as_slice()),
            Op::Merge(key, operand) => OpRef::merge(key.as_slice(), operand.as_slice()),
            Op::DeleteRange(begin, end) => OpRef::delete_range(begin.as_slice(), end.as_slice()),
        }
    }

    /// Returns the change that sets `key` to `value`.
    pub fn put(key: &'a [u8], value: &'a [u8]) -> OpRef<'a>
        ensures { result ≡ changes.Put key.now value.now }
    {
        OpRef {
            kind: OpKind::Put,
            first: key,
            second: value,
        }
    }

    /// Returns the change that deletes `key`.
    pub fn delete(key: &'a [u8]) -> OpRef<'a>
        ensures { result ≡ changes.Delete key.now }
    {
        OpRef {
            kind: OpKind::Delete,
            first: key,
            second: &[],
        }
    }

    /// Returns the change that merges `operand` into `key`.
    pub fn merge(key: &'a [u8], operand: &'a [u8]) -> OpRef<'a>
        ensures { result ≡ changes.Merge key.now operand.now }
    {
        OpRef {
            kind: OpKind::Merge,
            first: key,
            second: operand,
        }
    }

    /// Returns the change that deletes all keys from `begin`, inclusive, to `end`, exclusive.
    pub fn delete_range(begin: &'a [u8], end: &'a [u8]) -> OpRef<'a>
        ensures { result ≡ changes.DeleteRange begin.now end.now }
    {
        OpRef {
            kind: OpKind::DeleteRange,
            first: begin,
            second: end,
        }
    }

    /// Returns the kind and the byte strings, in the order of [`Op`]'s fields. The second has no meaning for a deletion of one key.
    pub fn parts(&self) -> (OpKind, &'a [u8], &'a [u8])
        ensures { op_of result.0 result.1.now result.2.now ≡ self.now }
    {
        (self.kind, self.first, self.second)
    }

    /// Returns a copy that owns its byte strings. Fails if allocation fails.
    pub fn to_op(&self, alloc: Global) -> Result<Op, AllocError>
        ensures { IfOk result (λ op. op ≡ self.now) }
    {
        let first = Bytes::from_slice(alloc, self.first)?;
        Ok(match self.kind {
            OpKind::Put => Op::Put(first, Bytes::from_slice(alloc, self.second)?),
            OpKind::Delete => Op::Delete(first),
            OpKind::Merge => Op::Merge(first, Bytes::from_slice(alloc, self.second)?),
            OpKind::DeleteRange => Op::DeleteRange(first, Bytes::from_slice(alloc, self.second)?),
        })
    }
}
