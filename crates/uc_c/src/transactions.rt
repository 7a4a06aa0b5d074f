//! Transactions of the store of a handle: batches that are prepared only if what was read in a view is as it was.
ghost use Rattle.std.specs.Prelude.{◌≡◌, ◌⊎◌, None, Some, IfOk, IfErr};
ghost use Rattle.uc_engine.specs.Engines.{meaning_of};
ghost use Rattle.uc_live.specs.Judging.{value_before, value_now};
ghost use Rattle.uc_live.specs.declared.transaction_error.TransactionError.TheVariants as errors;
ghost use Rattle.uc_serial.specs.ReadSets.{IsFirstChanged};
ghost use Rattle.uc_c.specs.Transactions.{FailsTo, FindsChanged, PreparesIf, reads_held};
ghost use Rattle.uc_c.specs.Writing.{IsTold};
ghost use Rattle.uc_c.specs.declared.status.TheConstants.{OK, ROOM, READ_CHANGED};

use crate::reads::{put_back, reads_of};
use crate::status::{NO_STORE, NO_VIEW, OK, OUT_OF_MEMORY, READ_CHANGED, write_status};
use crate::writing::copy_record;
use std::alloc::Global;
use uc_engine::{Engine, EngineView, Read, TransactionError};
use uc_handle::{Handle, ReadsHandle, ViewHandle};

/// Prepares the batch of a transaction, and copies its record, if it fits the buffer, as `ucstore_prepare_bytes` does.
fn prepare_if(
    alloc: Global,
    engine: &mut Engine,
    view: &EngineView,
    reads: &[Read],
    batch: &[u8],
    log_length: u64,
    room: &mut [u8],
    size: &mut usize,
) -> Result<i32, TransactionError>
    ensures unchanged { IfOk result (λ _. IsFirstChanged (value_before (meaning_of view.now.kind) view.now.seen)
        (value_now (meaning_of engine.old.kind) engine.old.live) reads.now None) }
    ensures ok { IfOk result (λ status.
        IsTold status log_length batch.now room.old room.new size.new engine.old engine.new) }
    ensures untold { IfOk result (λ status. (status ≡ OK) ⊎ ((status ≡ ROOM) × (room.new ≡ room.old))) }
    ensures err { IfErr result (λ error. FailsTo (value_before (meaning_of view.now.kind) view.now.seen) reads.now batch.now
        engine.old engine.new error) }
    ensures kept { IfErr result (λ _. (room.new ≡ room.old) × (size.new ≡ size.old)) }
{
    let record = engine.prepare_if(alloc, view, reads, log_length, batch)?;
    Ok(copy_record(engine, record.as_slice(), room, size))
}

/// Prepares the batch of a transaction, given as bytes, as `ucstore_prepare_bytes` does, if each of its reads, which were made in the
/// view, has the values that it had. Fails with `READ_CHANGED` if one hasn't, stores its place among the reads, the first at 0, and changes
/// nothing then. Else fails as `ucstore_prepare_bytes` does. The view must be one of this store: values are compared.
#[unsafe(no_mangle)]
pub extern "C" fn ucstore_prepare_if(
    alloc: Global,
    handle: &mut Handle,
    view: &mut ViewHandle,
    reads: &mut ReadsHandle,
    batch: &[u8],
    log_length: u64,
    room: &mut [u8],
    size: &mut usize,
    changed: &mut usize,
) -> i32
    ensures prepares { PreparesIf result log_length batch.now room.old room.new size.new changed.new (reads_held reads.old.held)
        view.old.held handle.old.held handle.new.held }
    ensures view { view.new.held ≡ view.old.held }
    ensures reads { reads.new.held ≡ reads.old.held }
    ensures untold { (result ≡ OK) ⊎ (room.new ≡ room.old) }
    ensures size_untold { (result ≡ OK) ⊎ ((result ≡ ROOM) ⊎ (size.new ≡ size.old)) }
    ensures changed_untold { (result ≡ READ_CHANGED) ⊎ (changed.new ≡ changed.old) }
{
    let Some(mut engine) = handle.take(alloc) else {
        return NO_STORE;
    };
    let Some(seen) = view.take(alloc) else {
        handle.put(engine);
        return NO_VIEW;
    };
    let held = reads.take(alloc);
    let told = prepare_if(
        alloc,
        &mut engine,
        &*seen,
        reads_of(&held),
        batch,
        log_length,
        room,
        size,
    );
    put_back(reads, held);
    view.put(seen);
    handle.put(engine);
    match told {
        Ok(status) => status,
        Err(TransactionError::Conflict(place)) => {
            *changed = place;
            READ_CHANGED
        }
        Err(TransactionError::Write(error)) => write_status(error),
    }
}

/// Stores the place of the first read, made in the view, of which a key has another value in the store now, the first at 0. Fails with
/// `READ_CHANGED` if there is one, and if allocation fails. `ucstore_prepare_if` does so, and prepares in the same step.
#[unsafe(no_mangle)]
pub extern "C" fn ucstore_first_changed(
    alloc: Global,
    handle: &mut Handle,
    view: &mut ViewHandle,
    reads: &mut ReadsHandle,
    changed: &mut usize,
) -> i32
    ensures finds { FindsChanged result changed.new (reads_held reads.old.held) view.old.held handle.old.held handle.new.held }
    ensures view { view.new.held ≡ view.old.held }
    ensures reads { reads.new.held ≡ reads.old.held }
    ensures untold { (result ≡ READ_CHANGED) ⊎ (changed.new ≡ changed.old) }
{
    let Some(engine) = handle.take(alloc) else {
        return NO_STORE;
    };
    let Some(seen) = view.take(alloc) else {
        handle.put(engine);
        return NO_VIEW;
    };
    let held = reads.take(alloc);
    let told = engine.first_changed(alloc, &*seen, reads_of(&held));
    put_back(reads, held);
    view.put(seen);
    handle.put(engine);
    match told {
        Ok(None) => OK,
        Ok(Some(place)) => {
            *changed = place;
            READ_CHANGED
        }
        Err(_) => OUT_OF_MEMORY,
    }
}
