//! Writes, in two steps or in one.
ghost use Rattle.std.specs.Prelude.{◌≡◌, ◌++◌, [], IfOk, IfErr, OnOk};
ghost use Rattle.uc_batch.specs.Rising.{IsRising};
ghost use Rattle.uc_live.specs.Compacting.{HasNoRoom};
ghost use Rattle.uc_live.specs.Going.{GoesOn};
ghost use Rattle.uc_live.specs.LiveFlushes.{HadRoom};
ghost use Rattle.uc_live.specs.Lives as lives;
ghost use Rattle.uc_live.specs.Recording.{IsRecorded};
ghost use Rattle.uc_live.specs.Writing.{IsBatchPrepared, IsBatchWritten, IsWritten, Prepares, Refuses, RefusesBatch, next_batch};
ghost use Rattle.uc_engine.specs.Engines.{meaning_of, with_live};

use crate::each_operator::with_each;
use crate::engine::{AnyStore, Engine};
use std::alloc::Global;
use uc_batch::BatchWrites;
use uc_bytes::OpRef;
use uc_live::{RoomError, WriteError};

impl Engine {
    /// Writes an operation: it gets the sequence number after the last one. Fails as `LiveStore::prepare` says, and no read changes
    /// then.
    pub fn write(&mut self, alloc: Global, op: OpRef<'_>) -> Result<(), WriteError>
        ensures kind { self.new.kind ≡ self.old.kind }
        ensures ok { OnOk result (IsWritten (meaning_of self.old.kind) op.entry self.old.live self.new.live) }
        ensures err { IfErr result (λ error. Refuses op.entry self.old.live self.new.live error
            × Prepares (meaning_of self.old.kind) self.old.live self.new.live []) }
    {
        with_each!(AnyStore, &mut self.store, store => store.write(alloc, op))
    }

    /// Writes a batch, given as bytes. Fails as `LiveStore::prepare_batch` says, and no read changes then.
    pub fn write_batch(&mut self, alloc: Global, batch: &[u8]) -> Result<(), WriteError>
        ensures kind { self.new.kind ≡ self.old.kind }
        ensures ok { OnOk result (IsBatchWritten (meaning_of self.old.kind) batch.now self.old.live self.new.live) }
        ensures err { IfErr result (λ error. RefusesBatch (next_batch (lives.last self.old.live) batch.now) self.new.live error
            × Prepares (meaning_of self.old.kind) self.old.live self.new.live []) }
    {
        with_each!(AnyStore, &mut self.store, store => store.write_batch(alloc, batch))
    }

    /// Takes the writes of a batch that come after the last sequence number. Fails as `LiveStore::write_all` says, and no read
    /// changes then.
    pub fn write_all(&mut self, alloc: Global, writes: BatchWrites<'_>) -> Result<(), RoomError>
        requires rising { IsRising (lives.last self.old.live) writes }
        ensures kind { self.new.kind ≡ self.old.kind }
        ensures ok { OnOk result (GoesOn (meaning_of self.old.kind) self.old.live self.new.live writes.entry) }
        ensures room { OnOk result (HadRoom self.new.live writes.entry) }
        ensures err { IfErr result (λ error. HasNoRoom error self.new.live
            × GoesOn (meaning_of self.old.kind) self.old.live self.new.live []) }
        ensures none { self.new.live.prepared ≡ [] }
    {
        with_each!(AnyStore, &mut self.store, store => store.write_all(alloc, writes))
    }

    /// Prepares a batch, and returns the bytes that make it durable at the end of a log of `length` bytes, as
    /// `LiveStore::prepare_recorded` does.
    pub fn prepare_recorded(
        &mut self,
        alloc: Global,
        length: u64,
        batch: &[u8],
    ) -> Result<Vec<u8>, WriteError>
        ensures kind { self.new.kind ≡ self.old.kind }
        ensures ok { IfOk result (λ _. IsBatchPrepared (meaning_of self.old.kind) batch.now self.old.live self.new.live) }
        ensures recorded { IfOk result (λ bytes. IsRecorded (lives.last self.old.live) length batch.now bytes.items) }
        ensures err { IfErr result (λ error. RefusesBatch (next_batch (lives.last self.old.live) batch.now) self.new.live error
            × Prepares (meaning_of self.old.kind) self.old.live self.new.live []) }
    {
        with_each!(AnyStore, &mut self.store, store => store.prepare_recorded(alloc, length, batch))
    }

    /// Prepares a batch, as [`prepare_recorded`](Engine::prepare_recorded) does, and numbers it where it is.
    pub fn prepare_owned(
        &mut self,
        alloc: Global,
        length: u64,
        batch: Vec<u8>,
    ) -> Result<Vec<u8>, WriteError>
        ensures kind { self.new.kind ≡ self.old.kind }
        ensures ok { IfOk result (λ _. IsBatchPrepared (meaning_of self.old.kind) batch.items self.old.live self.new.live) }
        ensures recorded { IfOk result (λ bytes. IsRecorded (lives.last self.old.live) length batch.items bytes.items) }
        ensures err { IfErr result (λ error. RefusesBatch (next_batch (lives.last self.old.live) batch.items) self.new.live error
            × Prepares (meaning_of self.old.kind) self.old.live self.new.live []) }
    {
        with_each!(AnyStore, &mut self.store, store => store.prepare_owned(alloc, length, batch))
    }

    /// Takes what is prepared. It takes no memory, and can't fail.
    pub fn commit(&mut self)
        ensures { self.new ≡ with_live (lives.committed self.old.live) self.old }
    {
        with_each!(AnyStore, &mut self.store, store => store.commit())
    }

    /// Discards the prepared batch.
    pub fn give_up(&mut self)
        ensures { self.new ≡ with_live (lives.unprepared self.old.live) self.old }
    {
        with_each!(AnyStore, &mut self.store, store => store.give_up())
    }
}
