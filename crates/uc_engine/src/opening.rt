//! Engines that open from a write-ahead log, or empty.
ghost use Rattle.std.specs.Prelude.{◌≡◌, ◌≢◌, [], true, false, IfOk, IfErr};
ghost use Rattle.uc_batch.specs.Log.{log_writes};
ghost use Rattle.uc_live.specs.LiveOptions as live_options;
ghost use Rattle.uc_live.specs.Lives.{created};
ghost use Rattle.uc_live.specs.Going.{GoesOn};
ghost use Rattle.uc_live.specs.declared.open_error.LiveOpenError.TheVariants.{BadOption, NoRoom};
ghost use Rattle.uc_live.specs.declared.room_error.RoomError.TheVariants.{Memory, RunsClaimed};
ghost use Rattle.uc_engine.specs.Engines.{meaning_of};
ghost use Rattle.uc_engine.specs.HeldEngines.{kind_of, live_of};

use crate::engine::{AnyStore, Engine};
use crate::operator_kind::OperatorKind;
use std::alloc::Global;
use uc_batch::Ended;
use uc_live::{LiveOpenError, LiveOptions, LiveStore};

/// An engine that was opened from a log, and how far the log could be read.
#[derive(Drop)]
pub struct OpenedEngine {
    /// The engine, which has the writes before the log's first fault.
    pub engine: Engine,
    /// The end of the log: clean, torn as after a crash, or at a fault, which is named with its place.
    pub ended: Ended,
}

/// The engine of a store that was opened.
fn opened(store: AnyStore, ended: Ended) -> OpenedEngine
    ensures engine { result.engine ≡ record { kind = kind_of store; live = live_of store } }
    ensures ended { result.ended ≡ ended }
{
    OpenedEngine {
        engine: Engine { store },
        ended,
    }
}

impl Engine {
    /// An engine without writes and without snapshots, as [`LiveStore::create`] makes it.
    pub fn create(
        alloc: Global,
        kind: OperatorKind,
        options: LiveOptions,
    ) -> Result<Engine, LiveOpenError>
        ensures engine { IfOk result (λ engine. engine ≡ record { kind = kind; live = created options }) }
        ensures good { IfOk result (λ _. live_options.are_good options ≡ true) }
        ensures err { IfErr result (λ error.
            error ≢ NoRoom Memory → (error ≡ BadOption) × (live_options.are_good options ≡ false)) }
    {
        let store = match kind {
            OperatorKind::Append => AnyStore::Append(LiveStore::create(alloc, options)?),
            OperatorKind::Counter => AnyStore::Counter(LiveStore::create(alloc, options)?),
            OperatorKind::Maximum => AnyStore::Maximum(LiveStore::create(alloc, options)?),
            OperatorKind::Tail => AnyStore::Tail(LiveStore::create(alloc, options)?),
            OperatorKind::Mixed => AnyStore::Mixed(LiveStore::create(alloc, options)?),
        };
        Ok(Engine { store })
    }

    /// Opens an engine from the bytes of a write-ahead log, as [`LiveStore::open`] does.
    pub fn open(
        alloc: Global,
        kind: OperatorKind,
        log: &[u8],
        options: LiveOptions,
    ) -> Result<OpenedEngine, LiveOpenError>
        ensures kind { IfOk result (λ found. found.engine.kind ≡ kind) }
        ensures store { IfOk result (λ found.
            GoesOn (meaning_of kind) (created options) found.engine.live (log_writes log.now).list) }
        ensures none { IfOk result (λ found. found.engine.live.prepared ≡ []) }
        ensures ended { IfOk result (λ found. found.ended ≡ (log_writes log.now).ended) }
        ensures good { IfOk result (λ _. live_options.are_good options ≡ true) }
        ensures err { IfErr result (λ error. error ≡ BadOption → live_options.are_good options ≡ false) }
        ensures never { IfErr result (λ error. error ≢ NoRoom RunsClaimed) }
    {
        match kind {
            OperatorKind::Append => {
                let (store, ended) = LiveStore::open(alloc, log, options)?.into_parts();
                Ok(opened(AnyStore::Append(store), ended))
            }
            OperatorKind::Counter => {
                let (store, ended) = LiveStore::open(alloc, log, options)?.into_parts();
                Ok(opened(AnyStore::Counter(store), ended))
            }
            OperatorKind::Maximum => {
                let (store, ended) = LiveStore::open(alloc, log, options)?.into_parts();
                Ok(opened(AnyStore::Maximum(store), ended))
            }
            OperatorKind::Tail => {
                let (store, ended) = LiveStore::open(alloc, log, options)?.into_parts();
                Ok(opened(AnyStore::Tail(store), ended))
            }
            OperatorKind::Mixed => {
                let (store, ended) = LiveStore::open(alloc, log, options)?.into_parts();
                Ok(opened(AnyStore::Mixed(store), ended))
            }
        }
    }
}
