//! Transactions: batches that are prepared only if what was read in a view is as it was.
ghost use Rattle.std.specs.Prelude.{◌≡◌, None, IfOk, IfErr};
ghost use Rattle.uc_live.specs.Judging.{Declines, value_before, value_now};
ghost use Rattle.uc_live.specs.Lives as lives;
ghost use Rattle.uc_live.specs.Recording.{IsRecorded};
ghost use Rattle.uc_live.specs.Writing.{IsBatchPrepared};
ghost use Rattle.uc_serial.specs.ReadSets.{IsFirstChanged};
ghost use Rattle.uc_engine.specs.Engines.{meaning_of};

use crate::each_operator::with_each;
use crate::engine::{AnyStore, Engine};
use crate::engine_view::{AnyView, EngineView};
use std::alloc::{AllocError, Global};
use uc_live::{LiveStore, Read, TransactionError};
use uc_oper::Operator;

/// The place of the first read that is changed in a store, as `LiveStore::first_changed` finds it.
fn first_changed_in<O: Operator>(
    alloc: Global,
    store: &LiveStore<O>,
    view: &EngineView,
    reads: &[Read],
) -> Result<Option<usize>, AllocError>
    ensures { IfOk result (λ place. IsFirstChanged (value_before (meaning_of view.now.kind) view.now.seen)
        (value_now O.meaning store.now) reads.now place) }
{
    with_each!(AnyView, &view.view, view => store.first_changed(alloc, view, reads))
}

/// Prepares the batch of a transaction in a store, as `LiveStore::prepare_if` does.
fn prepare_in<O: Operator>(
    alloc: Global,
    store: &mut LiveStore<O>,
    view: &EngineView,
    reads: &[Read],
    length: u64,
    batch: &[u8],
) -> Result<Vec<u8>, TransactionError>
    ensures unchanged { IfOk result (λ _. IsFirstChanged (value_before (meaning_of view.now.kind) view.now.seen)
        (value_now O.meaning store.old) reads.now None) }
    ensures prepared { IfOk result (λ _. IsBatchPrepared O.meaning batch.now store.old store.new) }
    ensures recorded { IfOk result (λ bytes. IsRecorded (lives.last store.old) length batch.now bytes.items) }
    ensures err { IfErr result (λ error.
        Declines O.meaning (value_before (meaning_of view.now.kind) view.now.seen) reads.now batch.now
        store.old store.new error) }
{
    with_each!(AnyView, &view.view, view => store.prepare_if(alloc, view, reads, length, batch))
}

impl Engine {
    /// The place of the first read of which a key hasn't the value any more that a view has, as `LiveStore::first_changed` finds it.
    pub fn first_changed(
        &self,
        alloc: Global,
        view: &EngineView,
        reads: &[Read],
    ) -> Result<Option<usize>, AllocError>
        ensures { IfOk result (λ place. IsFirstChanged (value_before (meaning_of view.now.kind) view.now.seen)
            (value_now (meaning_of self.now.kind) self.now.live) reads.now place) }
    {
        with_each!(AnyStore, &self.store, store => first_changed_in(alloc, store, view, reads))
    }

    /// Prepares the batch of a transaction, and returns its record, if each of its reads is unchanged, as `LiveStore::prepare_if` does.
    pub fn prepare_if(
        &mut self,
        alloc: Global,
        view: &EngineView,
        reads: &[Read],
        length: u64,
        batch: &[u8],
    ) -> Result<Vec<u8>, TransactionError>
        ensures kind { self.new.kind ≡ self.old.kind }
        ensures unchanged { IfOk result (λ _. IsFirstChanged (value_before (meaning_of view.now.kind) view.now.seen)
            (value_now (meaning_of self.old.kind) self.old.live) reads.now None) }
        ensures prepared { IfOk result (λ _. IsBatchPrepared (meaning_of self.old.kind) batch.now self.old.live self.new.live) }
        ensures recorded { IfOk result (λ bytes. IsRecorded (lives.last self.old.live) length batch.now bytes.items) }
        ensures err { IfErr result (λ error. Declines (meaning_of self.old.kind) (value_before (meaning_of view.now.kind) view.now.seen)
            reads.now batch.now self.old.live self.new.live error) }
    {
        with_each!(AnyStore, &mut self.store, store => prepare_in(alloc, store, view, reads, length, batch))
    }
}
