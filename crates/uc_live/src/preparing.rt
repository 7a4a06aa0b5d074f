//! Writes in two steps: they are prepared, and then committed.
ghost use Rattle.std.specs.Prelude.{◌≡◌, ◌↔◌, ◌≤◌, ◌++◌, List, [], length, drop, Result, Err, IsTrue, IfOk, IfErr, OnOk};
ghost use Rattle.uc_bytes.specs.declared.write.Write.{Write};
ghost use Rattle.uc_batch.specs.declared.error.BatchError.{BatchError};
ghost use Rattle.uc_batch.specs.Batch.{batch_of};
ghost use Rattle.uc_batch.specs.Rising.{IsRising};
ghost use Rattle.uc_batch.specs.Spelling.{FitsOp};
ghost use Rattle.uc_live.specs.Compacting.{HasNoRoom};
ghost use Rattle.uc_live.specs.Going.{GoesOn};
ghost use Rattle.uc_live.specs.LiveFlushes.{HadRoom, HasRoom};
ghost use Rattle.uc_live.specs.Lives as lives;
ghost use Rattle.uc_live.specs.Lives.{Live};
ghost use Rattle.uc_live.specs.Writing as writing;
ghost use Rattle.uc_live.specs.Writing.{IsBatchPrepared, IsBatchWritten, IsPrepared, IsPreparedAs, IsWritten, Prepares, Refuses, RefusesBatch, next_batch};

use crate::live_store::LiveStore;
use crate::room_error::RoomError;
use crate::waiting::{prepare_all, prepare_one};
use crate::write_error::WriteError;
use std::alloc::{AllocError, Global};
use uc_batch::{BatchError, BatchWrites};
use uc_bytes::{MAX_SEQUENCE, OpKind, OpRef, WriteRef};
use uc_oper::Operator;

/// Each key and value of a batch is shorter than this.
const LENGTHS: usize = 1 << 32;

/// The bytes of a batch's sequence.
const SEQUENCE_SIZE: usize = 8;

/// Whether a batch can hold the operation: its key and its value are each shorter than 2^32 bytes.
fn fits_op(op: &OpRef<'_>) -> bool
    ensures { IsTrue result ↔ FitsOp op.now }
{
    let (kind, first, second) = op.parts();
    match kind {
        OpKind::Delete => first.len() < LENGTHS,
        OpKind::Put | OpKind::Merge | OpKind::DeleteRange => {
            first.len() < LENGTHS && second.len() < LENGTHS
        }
    }
}

/// Whether the batch's sequence is 0, as a program that builds one leaves it.
pub(crate) fn is_unnumbered(batch: &[u8]) -> bool
    ensures { result ≡ writing.is_unnumbered batch.now }
{
    batch.iter().take(SEQUENCE_SIZE).all(|byte| *byte == 0)
}

/// The bytes of a batch, with another sequence in its header.
pub(crate) fn with_sequence(
    alloc: Global,
    batch: &[u8],
    sequence: u64,
) -> Result<Vec<u8>, AllocError>
    ensures { IfOk result (λ bytes. bytes.items ≡ writing.with_sequence sequence batch.now) }
{
    let mut bytes = Vec::with_capacity(alloc, batch.len())?;
    bytes.extend_from_slice(&sequence.to_le_bytes())?;
    bytes.extend_from_slice(batch.get(SEQUENCE_SIZE..).unwrap_or(&[]))?;
    Ok(bytes)
}

/// Puts another sequence in the header of a batch. It doesn't allocate, unless the batch is too short for a header.
pub(crate) fn set_sequence(batch: &mut Vec<u8>, sequence: u64) -> Result<(), AllocError>
    ensures { OnOk result (batch.new.items ≡ writing.with_sequence sequence batch.old.items) }
{
    if batch.len() < SEQUENCE_SIZE {
        batch.clear();
        return batch.extend_from_slice(&sequence.to_le_bytes());
    }
    set_front(batch.as_mut_slice(), &sequence.to_le_bytes());
    Ok(())
}

/// Puts other bytes in the place of the first ones.
fn set_front(bytes: &mut [u8], front: &[u8])
    requires { length front.now ≤ length bytes.old }
    ensures { bytes.new ≡ front.now ++ drop (length front.now) bytes.old }
{
    bytes[..front.len()].copy_from_slice(front);
}

/// The error of a batch that isn't valid. Reading it allocates nothing, so none stands for a failed allocation.
fn unread(fault: BatchError) -> WriteError
    ensures { (read : Result (List Write) BatchError) (l : Live) → read ≡ Err fault → RefusesBatch read l result }
{
    match fault {
        BatchError::SequenceTooLarge => WriteError::SequencesSpent,
        BatchError::Memory => WriteError::NoRoom(RoomError::Memory),
        other => WriteError::Faulty(other),
    }
}

impl<O: Operator> LiveStore<O> {
    /// Flushes if as many memtables are full as the store may have. Nothing is prepared then.
    fn make_room(&mut self, alloc: Global) -> Result<(), RoomError>
        requires { self.old.prepared ≡ [] }
        ensures prepares { Prepares O.meaning self.old self.new [] }
        ensures room { OnOk result (HasRoom self.new) }
        ensures err { IfErr result (λ error. HasNoRoom error self.new) }
    {
        self.recall();
        if self.is_crowded() {
            self.flush(alloc)?;
        }
        Ok(())
    }

    /// Prepares an operation as its own batch: it gets the sequence number after the last one, and all memory that it needs. No
    /// read sees it before [`commit`](LiveStore::commit). A batch that was prepared before is discarded. If the store has as many
    /// full memtables as it may have, they are flushed first.
    ///
    /// Fails if no sequence number is left, if a key or value has 2^32 bytes or more, so that no batch holds it, and as
    /// [`RoomError`] says. Nothing is prepared then, and no read changes.
    pub fn prepare(&mut self, alloc: Global, op: OpRef<'_>) -> Result<(), WriteError>
        ensures ok { OnOk result (IsPrepared O.meaning op.entry self.old self.new) }
        ensures err { IfErr result (λ error. Refuses op.entry self.old self.new error × Prepares O.meaning self.old self.new []) }
    {
        self.active.give_up();
        let last = self.last();
        if last >= MAX_SEQUENCE {
            return Err(WriteError::SequencesSpent);
        }
        if !fits_op(&op) {
            return Err(WriteError::TooLong);
        }
        self.make_room(alloc)?;
        prepare_one(&mut self.active, &WriteRef::new(last + 1, op))?;
        Ok(())
    }

    /// Prepares writes that come after the last sequence.
    pub(crate) fn prepare_writes(
        &mut self,
        alloc: Global,
        writes: BatchWrites<'_>,
    ) -> Result<(), RoomError>
        requires none { self.old.prepared ≡ [] }
        requires rising { IsRising (lives.last self.old) writes }
        ensures ok { OnOk result (Prepares O.meaning self.old self.new writes.entry) }
        ensures room { OnOk result (HasRoom self.new) }
        ensures err { IfErr result (λ error. HasNoRoom error self.new × Prepares O.meaning self.old self.new []) }
    {
        self.make_room(alloc)?;
        prepare_all(&mut self.active, writes)?;
        Ok(())
    }

    /// Prepares the writes of a batch whose sequence is above the last one.
    pub(crate) fn prepare_numbered(&mut self, alloc: Global, batch: &[u8]) -> Result<(), WriteError>
        requires none { self.old.prepared ≡ [] }
        ensures ok { IfOk result (λ _. IsPreparedAs O.meaning (batch_of (lives.last self.old) batch.now) self.old self.new) }
        ensures err { IfErr result (λ error.
            RefusesBatch (batch_of (lives.last self.old) batch.now) self.new error × Prepares O.meaning self.old self.new []) }
    {
        let writes = match BatchWrites::read(batch, self.last()) {
            Ok(writes) => writes,
            Err(fault) => return Err(unread(fault)),
        };
        self.prepare_writes(alloc, writes)?;
        Ok(())
    }

    /// Prepares a write batch, given as bytes (RocksDB, `write_batch.cc`): 8 bytes for a sequence number, 4 for a count, and as
    /// many records. The operations get the batch's sequence number and those after it, in their order. A batch with the number 0,
    /// as a program that builds one leaves it, gets the one after the last. All else is as in [`prepare`](LiveStore::prepare).
    ///
    /// Fails if the bytes aren't a batch, if its sequence number is neither 0 nor above the last one, if too few sequence numbers
    /// are left, and as [`RoomError`] says. Nothing is prepared then, and no read changes.
    pub fn prepare_batch(&mut self, alloc: Global, batch: &[u8]) -> Result<(), WriteError>
        ensures ok { OnOk result (IsBatchPrepared O.meaning batch.now self.old self.new) }
        ensures err { IfErr result (λ error.
            RefusesBatch (next_batch (lives.last self.old) batch.now) self.new error × Prepares O.meaning self.old self.new []) }
    {
        self.owned.recall();
        self.active.give_up();
        if !is_unnumbered(batch) {
            return self.prepare_numbered(alloc, batch);
        }
        let numbered = with_sequence(alloc, batch, self.last() + 1)?;
        self.prepare_numbered(alloc, numbered.as_slice())
    }

    /// Takes what is prepared. It takes no memory, and can't fail.
    pub fn commit(&mut self)
        ensures { self.new ≡ lives.committed self.old }
    {
        self.active.commit();
    }

    /// Discards the prepared batch.
    pub fn give_up(&mut self)
        ensures { self.new ≡ lives.unprepared self.old }
    {
        self.active.give_up();
    }

    /// Writes an operation: prepares it, and commits it.
    pub fn write(&mut self, alloc: Global, op: OpRef<'_>) -> Result<(), WriteError>
        ensures ok { OnOk result (IsWritten O.meaning op.entry self.old self.new) }
        ensures err { IfErr result (λ error. Refuses op.entry self.old self.new error × Prepares O.meaning self.old self.new []) }
    {
        self.prepare(alloc, op)?;
        self.commit();
        Ok(())
    }

    /// Writes a batch, given as bytes: prepares it, and commits it.
    pub fn write_batch(&mut self, alloc: Global, batch: &[u8]) -> Result<(), WriteError>
        ensures ok { OnOk result (IsBatchWritten O.meaning batch.now self.old self.new) }
        ensures err { IfErr result (λ error.
            RefusesBatch (next_batch (lives.last self.old) batch.now) self.new error × Prepares O.meaning self.old self.new []) }
    {
        self.prepare_batch(alloc, batch)?;
        self.commit();
        Ok(())
    }

    /// Takes the writes of a batch that come after the last sequence number, with their own sequence numbers. A prepared batch is
    /// discarded. All else is as in [`prepare`](LiveStore::prepare).
    ///
    /// Fails as [`RoomError`] says. None is taken then, and no read changes.
    pub fn write_all(&mut self, alloc: Global, writes: BatchWrites<'_>) -> Result<(), RoomError>
        requires rising { IsRising (lives.last self.old) writes }
        ensures ok { OnOk result (GoesOn O.meaning self.old self.new writes.entry) }
        ensures room { OnOk result (HadRoom self.new writes.entry) }
        ensures err { IfErr result (λ error. HasNoRoom error self.new × GoesOn O.meaning self.old self.new []) }
        ensures none { self.new.prepared ≡ [] }
    {
        self.give_up();
        self.prepare_writes(alloc, writes)?;
        self.commit();
        Ok(())
    }
}
