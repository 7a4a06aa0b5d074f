//! Live stores that open from a write-ahead log.
ghost use Rattle.std.specs.Prelude.{◌≡◌, ◌≢◌, [], true, false, IfOk, IfErr, OnOk};
ghost use Rattle.uc_batch.specs.Log.{log_writes};
ghost use Rattle.uc_live.specs.LiveOptions as live_options;
ghost use Rattle.uc_live.specs.Going.{GoesOn};
ghost use Rattle.uc_live.specs.Lives as lives;
ghost use Rattle.uc_live.specs.Lives.{created, has_claims};
ghost use Rattle.uc_live.specs.declared.open_error.LiveOpenError.TheVariants.{BadOption, NoRoom};
ghost use Rattle.uc_live.specs.declared.room_error.RoomError.TheVariants.{RunsClaimed};

use crate::live_options::LiveOptions;
use crate::live_store::LiveStore;
use crate::open_error::LiveOpenError;
use crate::room_error::RoomError;
use std::alloc::Global;
use uc_batch::{Advance, BatchReader, Ended};
use uc_oper::Operator;

/// A store that was opened from a log, and how far the log could be read.
pub struct OpenedStore<O: Operator> {
    /// The store, which has the writes before the log's first fault.
    pub store: LiveStore<O>,
    /// The end of the log: clean, torn as after a crash, or at a fault, which is named with its place.
    pub ended: Ended,
}

impl<O: Operator> OpenedStore<O> {
    /// The store, and how the log ended.
    pub fn into_parts(self) -> (LiveStore<O>, Ended)
        ensures { (result.0 ≡ self.store) × (result.1 ≡ self.ended) }
    {
        let OpenedStore { store, ended } = self;
        (store, ended)
    }
}

impl<O: Operator> Drop for OpenedStore<O> {
    fn drop(self) {
        let OpenedStore { store: _, ended: _ } = self;
    }
}

/// Takes the writes that are ahead of a reader into a store, and returns how far the log was read.
fn read_on<O: Operator>(
    alloc: Global,
    store: &mut LiveStore<O>,
    batches: &mut BatchReader<'_>,
) -> Result<Ended, RoomError>
    requires none { store.old.prepared ≡ [] }
    requires last { lives.last store.old ≡ batches.old.last }
    requires unclaimed { has_claims store.old ≡ false }
    ensures goes_on { OnOk result (GoesOn O.meaning store.old store.new batches.old.ahead.list) }
    ensures none { OnOk result (store.new.prepared ≡ []) }
    ensures ended { IfOk result (λ ended. ended ≡ batches.old.ahead.ended) }
    ensures never { IfErr result (λ error. error ≢ RunsClaimed) }
{
    loop {
        match batches.advance()? {
            Advance::Batch => {
                store.prepare_writes(alloc, batches.writes())?;
                store.commit();
            }
            Advance::Ended(ended) => return Ok(ended),
        }
    }
}

impl<O: Operator> LiveStore<O> {
    /// Opens a store from the bytes of a write-ahead log, as point-in-time recovery does (RocksDB wiki, "WAL Recovery Modes"): it
    /// has the writes before the log's first fault, and `ended` says whether there was one. It has no snapshot. Flushes as it
    /// reads, so a log of any length opens. Fails if an option is out of range, if run IDs are exhausted, or if allocation fails.
    /// Reads the log once.
    pub fn open(
        alloc: Global,
        log: &[u8],
        options: LiveOptions,
    ) -> Result<OpenedStore<O>, LiveOpenError>
        ensures store { IfOk result (λ found. GoesOn O.meaning (created options) found.store (log_writes log.now).list) }
        ensures none { IfOk result (λ found. found.store.prepared ≡ []) }
        ensures ended { IfOk result (λ found. found.ended ≡ (log_writes log.now).ended) }
        ensures good { IfOk result (λ _. live_options.are_good options ≡ true) }
        ensures err { IfErr result (λ error. error ≡ BadOption → live_options.are_good options ≡ false) }
        ensures never { IfErr result (λ error. error ≢ NoRoom RunsClaimed) }
    {
        let mut store = LiveStore::create(alloc, options)?;
        let mut batches = BatchReader::new(alloc, log);
        let ended = read_on(alloc, &mut store, &mut batches)?;
        Ok(OpenedStore { store, ended })
    }
}
