//! [`WriteRef`]: a write with borrowed byte strings.
ghost use Rattle.std.specs.Prelude.{◌≡◌, IfOk};

use crate::op_ref::OpRef;
use crate::write::Write;
use std::alloc::{AllocError, Global};
use std::marker::Model;

/// A [`Write`] with borrowed byte strings, made without allocating. A contract sees it as the `Write`.
#[derive(Drop)]
pub struct WriteRef<'a> {
    seq: u64,
    op: OpRef<'a>,
}

impl<'a> Model for WriteRef<'a> {
    ghost use Rattle.uc_bytes.specs.declared.write.Write.{Write};

    ghost Value = { Write };

    ghost view = { λ w. record { seq = w.seq; op = w.op } };
}

impl<'a> WriteRef<'a> {
    /// Returns the write of a change and its sequence number.
    pub fn new(seq: u64, op: OpRef<'a>) -> WriteRef<'a>
        ensures { result ≡ record { seq = seq; op = op.entry } }
    {
        WriteRef { seq, op }
    }

    /// Returns the same write as `write`, which it borrows from.
    pub fn of(write: &'a Write) -> WriteRef<'a>
        ensures { result ≡ write.now }
    {
        WriteRef::new(write.seq, OpRef::of(&write.op))
    }

    /// Returns the sequence number, from 1 to [`MAX_SEQUENCE`](crate::MAX_SEQUENCE).
    pub fn seq(&self) -> u64
        ensures { result ≡ self.now.seq }
    {
        self.seq
    }

    /// Returns the change.
    pub fn op(&self) -> &OpRef<'a>
        ensures { result.now ≡ self.now.op }
    {
        &self.op
    }

    /// Returns a copy that owns its byte strings. Fails if allocation fails.
    pub fn to_write(&self, alloc: Global) -> Result<Write, AllocError>
        ensures { IfOk result (λ write. write ≡ self.now) }
    {
        Ok(Write {
            seq: self.seq,
            op: self.op.to_op(alloc)?,
        })
    }
}
