//! [`WriteBatch`]: operations encoded as the bytes of a batch.
ghost use Rattle.std.specs.Prelude.{◌≡◌, ◌≤◌, ◌++◌, ◌∷◌, [], ◌↔◌, length, take, drop, IsTrue, IfOk, IfErr, OnOk};
ghost use Rattle.std.specs.Int.{w32, to_le_bytes};
ghost use Rattle.uc_batch.specs.Gathering.{FitTogether, RefusesOp};
ghost use Rattle.uc_batch.specs.Spelling.{batch_text};

use crate::header::HEADER_SIZE;
use crate::push_error::PushError;
use crate::writing::{fits_op, push_op};
use std::alloc::{AllocError, Global};
use std::marker::Model;
use uc_bytes::OpRef;

/// Where a batch's header has the count, after the sequence.
const COUNT_PLACE: usize = 8;

/// Operations encoded as the bytes of a batch. Its sequence number is 0, as in a batch that a program builds with RocksDB's class
/// of this name. The store that writes the batch numbers it.
///
/// A contract sees it as the list of the operations.
#[derive(Drop)]
pub struct WriteBatch {
    bytes: Vec<u8>,
    count: u32,
}

impl Model for WriteBatch {
    ghost use Rattle.std.specs.Prelude.{List};
    ghost use Rattle.uc_bytes.specs.declared.op.Op.{Op};
    ghost use Rattle.uc_batch.specs.Gathering.{AreGathered, gathered_ops};

    ghost Value = { List Op };

    ghost view = { λ b. gathered_ops b.bytes.items };

    ghost invariant = { λ b. AreGathered b.count b.bytes.items (gathered_ops b.bytes.items) };
}

/// Puts a count into the header of a batch.
fn set_count(bytes: &mut Vec<u8>, count: u32)
    requires { 12 ≤ length bytes.old.items }
    ensures { bytes.new.items ≡ take 8 bytes.old.items ++ (to_le_bytes w32 count ++ drop 12 bytes.old.items) }
{
    bytes.as_mut_slice()[COUNT_PLACE..HEADER_SIZE].copy_from_slice(&count.to_le_bytes());
}

impl WriteBatch {
    /// A batch without operations.
    pub fn new(alloc: Global) -> Result<WriteBatch, AllocError>
        ensures { IfOk result (λ batch. batch ≡ []) }
    {
        let bytes = Vec::from_slice(alloc, &[0; HEADER_SIZE])?;
        Ok(WriteBatch { bytes, count: 0 })
    }

    /// Adds an operation after the others. An `Err` adds nothing.
    pub fn push(&mut self, op: &OpRef<'_>) -> Result<(), PushError>
        ensures ok { OnOk result (self.new ≡ self.old ++ op.now ∷ []) }
        ensures err { IfErr result (λ error. RefusesOp op.now self.old error × (self.new ≡ self.old)) }
    {
        if !fits_op(op) {
            return Err(PushError::TooLong);
        }
        if self.count == u32::MAX {
            return Err(PushError::Full);
        }
        let before = self.bytes.len();
        if let Err(error) = push_op(&mut self.bytes, op) {
            self.bytes.truncate(before);
            return Err(PushError::from(error));
        }
        self.count += 1;
        set_count(&mut self.bytes, self.count);
        Ok(())
    }

    /// Removes the operations. It keeps the memory that they had.
    pub fn clear(&mut self)
        ensures { self.new ≡ [] }
    {
        self.bytes.truncate(HEADER_SIZE);
        self.count = 0;
        set_count(&mut self.bytes, 0);
    }

    /// The number of operations.
    pub fn len(&self) -> u32
        ensures { result ≡ length self.now }
    {
        self.count
    }

    /// Whether there is none.
    pub fn is_empty(&self) -> bool
        ensures { IsTrue result ↔ (self.now ≡ []) }
    {
        self.count == 0
    }

    /// The bytes of the batch, whose sequence is 0.
    pub fn as_bytes(&self) -> &[u8]
        ensures text { result.now ≡ batch_text 0 self.now }
        ensures fit { FitTogether self.now }
    {
        &self.bytes
    }
}
