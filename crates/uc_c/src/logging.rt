//! Writes of a database, which logs each batch with a mark between its preparation and its commit.
ghost use Rattle.std.specs.Prelude.{◌≡◌, ◌⊎◌};
ghost use Rattle.uc_log_crash.specs.Marks as marks;
ghost use Rattle.uc_c.specs.declared.status.TheConstants.{OK, ROOM, NO_STORE};
ghost use Rattle.uc_c.specs.Logging.{CommitsAndReports, IsUnmarked};
ghost use Rattle.uc_c.specs.Replies.{IfHeld};
ghost use Rattle.uc_c.specs.Writing.{PreparesBatch};

use crate::c_report::{CReport, REPORT_SIZE};
use crate::log_ends::LENGTHS;
use crate::status::{BAD_PLACE, BAD_SIZE, NO_STORE, OK, OUT_OF_MEMORY, write_status};
use crate::writing::prepare_owned;
use std::alloc::Global;
use uc_handle::Handle;
use uc_log_crash::with_mark;

/// Prepares a batch, given as bytes, as `ucstore_prepare_bytes` does, with a mark after its header: `unsynced` bytes before the batch's
/// record aren't durable for certain. Fails also if `unsynced` is 2^63 or more.
#[unsafe(no_mangle)]
pub extern "C" fn ucstore_prepare_marked(
    alloc: Global,
    handle: &mut Handle,
    batch: &[u8],
    unsynced: u64,
    log_length: u64,
    room: &mut [u8],
    size: &mut usize,
) -> i32
    ensures prepares { PreparesBatch result log_length (marks.with_mark batch.now unsynced)
        room.old room.new size.new handle.old.held handle.new.held
        ⊎ IsUnmarked result unsynced handle.old.held handle.new.held }
    ensures untold { (result ≡ OK) ⊎ (room.new ≡ room.old) }
    ensures size_untold { (result ≡ OK) ⊎ ((result ≡ ROOM) ⊎ (size.new ≡ size.old)) }
{
    if unsynced >= LENGTHS {
        return BAD_PLACE;
    }
    let Ok(marked) = with_mark(alloc, batch, unsynced) else {
        return OUT_OF_MEMORY;
    };
    let Some(mut engine) = handle.take(alloc) else {
        return NO_STORE;
    };
    let told = prepare_owned(alloc, &mut engine, marked, log_length, room, size);
    handle.put(engine);
    match told {
        Ok(status) => status,
        Err(error) => write_status(error),
    }
}

/// Takes the batch that is prepared, as `ucstore_commit` does, and stores the store's contents in numbers, as `ucstore_report` does. Fails if
/// the report's size isn't the one that this library knows: then the batch stays prepared.
#[unsafe(no_mangle)]
pub extern "C" fn ucstore_commit_report(
    alloc: Global,
    handle: &mut Handle,
    report: &mut CReport,
) -> i32
    ensures commits { IfHeld result handle.old.held handle.new.held (λ e.
        CommitsAndReports result e handle.new.held report.old report.new) }
    ensures untold { (result ≡ OK) ⊎ (report.new ≡ report.old) }
{
    let Some(mut engine) = handle.take(alloc) else {
        return NO_STORE;
    };
    if report.size != REPORT_SIZE {
        handle.put(engine);
        return BAD_SIZE;
    }
    engine.commit();
    *report = CReport::of(engine.report());
    handle.put(engine);
    OK
}
