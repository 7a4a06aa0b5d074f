//! The bytes that a program appends to its write-ahead log.
ghost use Rattle.std.specs.Prelude.{◌≡◌, [], IfOk, IfErr};
ghost use Rattle.uc_batch.specs.Batch.{batch_of};
ghost use Rattle.uc_logrec.specs.Log.{payload_text};
ghost use Rattle.uc_live.specs.Lives as lives;
ghost use Rattle.uc_live.specs.Recording.{IsRecorded};
ghost use Rattle.uc_live.specs.Writing.{IsBatchPrepared, IsPreparedAs, Prepares, RefusesBatch, next_batch};

use crate::live_store::LiveStore;
use crate::preparing::{is_unnumbered, set_sequence, with_sequence};
use crate::write_error::WriteError;
use std::alloc::Global;
use uc_logrec::payload_bytes;
use uc_oper::Operator;

impl<O: Operator> LiveStore<O> {
    /// Prepares the writes of a batch whose sequence is above the last one, and lays out its record.
    fn record_numbered(
        &mut self,
        alloc: Global,
        length: u64,
        batch: &[u8],
    ) -> Result<Vec<u8>, WriteError>
        requires none { self.old.prepared ≡ [] }
        ensures ok { IfOk result (λ _. IsPreparedAs O.meaning (batch_of (lives.last self.old) batch.now) self.old self.new) }
        ensures text { IfOk result (λ bytes. bytes.items ≡ payload_text length batch.now) }
        ensures err { IfErr result (λ error.
            RefusesBatch (batch_of (lives.last self.old) batch.now) self.new error × Prepares O.meaning self.old self.new []) }
    {
        let record = payload_bytes(alloc, length, batch)?;
        match self.prepare_numbered(alloc, batch) {
            Ok(()) => Ok(record),
            Err(error) => Err(error),
        }
    }

    /// Prepares a batch, as [`prepare_batch`](LiveStore::prepare_batch) does, and returns the bytes that make it
    /// durable, at the end of a write-ahead log of `length` bytes (LevelDB, `log_format.md`): append them, and then
    /// [`commit`](LiveStore::commit), which can't fail. A store that opens from that log has the batch's writes, with
    /// the same sequences.
    pub fn prepare_recorded(
        &mut self,
        alloc: Global,
        length: u64,
        batch: &[u8],
    ) -> Result<Vec<u8>, WriteError>
        ensures ok { IfOk result (λ _. IsBatchPrepared O.meaning batch.now self.old self.new) }
        ensures recorded { IfOk result (λ bytes. IsRecorded (lives.last self.old) length batch.now bytes.items) }
        ensures err { IfErr result (λ error.
            RefusesBatch (next_batch (lives.last self.old) batch.now) self.new error × Prepares O.meaning self.old self.new []) }
    {
        self.owned.recall();
        self.active.give_up();
        if !is_unnumbered(batch) {
            return self.record_numbered(alloc, length, batch);
        }
        let numbered = with_sequence(alloc, batch, self.last() + 1)?;
        self.record_numbered(alloc, length, numbered.as_slice())
    }

    /// Prepares a batch, as [`prepare_recorded`](LiveStore::prepare_recorded) does. It takes the batch by value, so that it is numbered
    /// where it is.
    pub fn prepare_owned(
        &mut self,
        alloc: Global,
        length: u64,
        batch: Vec<u8>,
    ) -> Result<Vec<u8>, WriteError>
        ensures ok { IfOk result (λ _. IsBatchPrepared O.meaning batch.items self.old self.new) }
        ensures recorded { IfOk result (λ bytes. IsRecorded (lives.last self.old) length batch.items bytes.items) }
        ensures err { IfErr result (λ error.
            RefusesBatch (next_batch (lives.last self.old) batch.items) self.new error × Prepares O.meaning self.old self.new []) }
    {
        self.owned.recall();
        self.active.give_up();
        if !is_unnumbered(batch.as_slice()) {
            return self.record_numbered(alloc, length, batch.as_slice());
        }
        let mut numbered = batch;
        set_sequence(&mut numbered, self.last() + 1)?;
        self.record_numbered(alloc, length, numbered.as_slice())
    }
}
