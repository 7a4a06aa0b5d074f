//! [`Write`]: a change and its sequence number.
ghost use Rattle.std.specs.Prelude.{◌≡◌, IfOk};

use crate::op::Op;
use std::alloc::AllocError;

/// The greatest sequence number: `kMaxSequenceNumber` in RocksDB's `dbformat.h`.
pub const MAX_SEQUENCE: u64 = (1 << 56) - 1;

/// A change and its sequence number.
#[derive(Debug, PartialEq, Eq, Drop)]
pub struct Write {
    /// Sequence number, from 1 to [`MAX_SEQUENCE`]: the position in the order of all writes.
    pub seq: u64,
    /// The change.
    pub op: Op,
}

impl Clone for Write {
    /// Returns a copy. Fails if allocation fails.
    fn clone(&self) -> Result<Write, AllocError>
        ensures { IfOk result (λ copy. copy ≡ self.now) }
    {
        Ok(Write {
            seq: self.seq,
            op: self.op.clone()?,
        })
    }
}
