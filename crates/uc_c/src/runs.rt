//! The runs of a view as the bytes of files, and files whose runs are added to a store.
ghost use Rattle.std.specs.Prelude.{◌≡◌, ◌⊎◌, None, Some, IfOk, IfErr, length};
ghost use Rattle.std.specs.Arc.{arc_value};
ghost use Rattle.uc_run_file.specs.Files.{IsRefusal, file_text};
ghost use Rattle.uc_c.specs.declared.status.TheConstants.{OK, OUT_OF_MEMORY, NO_VIEW, RUN_DAMAGED, BAD_RUN};
ghost use Rattle.uc_c.specs.Replies.{Becomes, Closes, IsRead};
ghost use Rattle.uc_c.specs.Runs as files;
ghost use Rattle.uc_c.specs.Runs.{AddsFile, AddSays, CopiesBytes, HoldsRun, RefusesFile, TellsRun, run_at};

use crate::status::{BAD_RUN, NO_STORE, NO_VIEW, OK, OUT_OF_MEMORY, RUN_DAMAGED};
use std::alloc::Global;
use std::sync::Arc;
use uc_engine::{AddRunError, Engine};
use uc_handle::{Handle, RunHandle, ViewHandle};
use uc_run::Run;
use uc_run_file::{RunBytes, RunFault, RunFileError, read_run};

/// Stores the id of the run at a place of the view, the newest at 0, and the least and the greatest sequence of its range. No other run of
/// the store ever has the id. `ucstore_view_report` stores the number of runs.
#[unsafe(no_mangle)]
pub extern "C" fn ucstore_view_run(
    alloc: Global,
    view: &mut ViewHandle,
    place: usize,
    id: &mut u64,
    low: &mut u64,
    high: &mut u64,
) -> i32
    ensures run { IsRead NO_VIEW result view.old.held view.new.held (λ v. TellsRun result (run_at v place) id.new low.new high.new) }
    ensures untold { (result ≡ OK) ⊎ ((id.new ≡ id.old) × (low.new ≡ low.old) × (high.new ≡ high.old)) }
{
    let Some(held) = view.take(alloc) else {
        return NO_VIEW;
    };
    let status = match held.runs().get(place) {
        None => BAD_RUN,
        Some(placed) => {
            *id = placed.id();
            *low = placed.run().low_seq();
            *high = placed.run().high_seq();
            OK
        }
    };
    view.put(held);
    status
}

/// Puts the bytes of a run's file into a handle of none.
fn hold(alloc: Global, handle: &mut RunHandle, run: &Arc<Run>) -> i32
    requires { handle.old.held ≡ None }
    ensures { ((result ≡ OK) × (handle.new.held ≡ Some (file_text (arc_value run.now))))
        ⊎ ((result ≡ OUT_OF_MEMORY) × (handle.new.held ≡ None)) }
{
    let Ok(bytes) = RunBytes::new(alloc, run) else {
        return OUT_OF_MEMORY;
    };
    match Box::new(alloc, bytes) {
        Ok(held) => {
            handle.put(held);
            OK
        }
        Err(_) => OUT_OF_MEMORY,
    }
}

/// Puts the bytes of the file of the run at a place of the view, the newest at 0, into their handle. The points stay where they are: all else
/// is laid out and each piece is summed, once. Frees what the handle had.
#[unsafe(no_mangle)]
pub extern "C" fn ucstore_run(
    alloc: Global,
    view: &mut ViewHandle,
    place: usize,
    run: &mut RunHandle,
) -> i32
    ensures run { IsRead NO_VIEW result view.old.held view.new.held (λ v. HoldsRun result (run_at v place) run.new.held) }
    ensures freed { (result ≡ OK) ⊎ (run.new.held ≡ None) }
{
    let _ = run.take(alloc);
    let Some(held) = view.take(alloc) else {
        return NO_VIEW;
    };
    let status = match held.runs().get(place) {
        None => BAD_RUN,
        Some(placed) => hold(alloc, run, placed.run()),
    };
    view.put(held);
    status
}

/// Stores the size of the file in bytes.
#[unsafe(no_mangle)]
pub extern "C" fn ucstore_run_size(alloc: Global, run: &mut RunHandle, size: &mut u64) -> i32
    ensures size { IsRead BAD_RUN result run.old.held run.new.held (λ bytes. (result ≡ OK) × (size.new ≡ length bytes)) }
    ensures untold { (result ≡ OK) ⊎ (size.new ≡ size.old) }
{
    let Some(held) = run.take(alloc) else {
        return BAD_RUN;
    };
    let length = held.len();
    run.put(held);
    *size = length;
    OK
}

/// Copies the file's bytes from an offset on into the buffer, as many as fit, and stores their number, which is 0 only at the end.
#[unsafe(no_mangle)]
pub extern "C" fn ucstore_run_read(
    alloc: Global,
    run: &mut RunHandle,
    offset: usize,
    room: &mut [u8],
    count: &mut usize,
) -> i32
    ensures read { IsRead BAD_RUN result run.old.held run.new.held (λ bytes. CopiesBytes result bytes offset room.old room.new count.new) }
    ensures untold { (result ≡ OK) ⊎ ((room.new ≡ room.old) × (count.new ≡ count.old)) }
{
    let Some(held) = run.take(alloc) else {
        return BAD_RUN;
    };
    let copied = held.copy_to(offset, room);
    run.put(held);
    *count = copied;
    OK
}

/// Frees the bytes of the handle, if there are any. The view stays.
#[unsafe(no_mangle)]
pub extern "C" fn ucstore_run_close(alloc: Global, run: &mut RunHandle) -> i32
    ensures { Closes BAD_RUN result run.old.held run.new.held }
{
    match run.take(alloc) {
        None => BAD_RUN,
        Some(_) => OK,
    }
}

/// The offset of a fault in a file of this size.
pub fn fault_offset(size: usize, fault: RunFault) -> usize
    ensures { result ≡ files.fault_offset size fault }
{
    match fault {
        RunFault::Piece(offset) => offset,
        RunFault::Fragment(offset) => offset,
        RunFault::Point(offset) => offset,
        _ => size,
    }
}

/// The status for a run that doesn't fit.
pub fn add_status(error: AddRunError) -> i32
    ensures { AddSays error result }
{
    match error {
        AddRunError::Order => BAD_RUN,
        AddRunError::Busy => BAD_RUN,
        AddRunError::Full => BAD_RUN,
        AddRunError::Memory => OUT_OF_MEMORY,
    }
}

/// The run that a file spells.
fn run_of(alloc: Global, file: &[u8]) -> Result<Run, RunFileError>
    ensures run { IfOk result (λ run. file.now ≡ file_text run) }
    ensures fault { IfErr result (IsRefusal file.now) }
{
    let Ok(bytes) = file.to_vec(alloc) else {
        return Err(RunFileError::Memory);
    };
    read_run(alloc, bytes)
}

/// Adds the run of a file to an engine, and stores its id or the offset of the file's fault.
fn add_file(
    alloc: Global,
    engine: &mut Engine,
    file: &[u8],
    id: &mut u64,
    offset: &mut usize,
) -> i32
    ensures adds { ((result ≡ OK) × AddsFile engine.old engine.new file.now id.new)
        ⊎ ((engine.new ≡ engine.old) × RefusesFile engine.old file.now result offset.new) }
    ensures untold { (result ≡ OK) ⊎ (id.new ≡ id.old) }
    ensures offset { (result ≡ RUN_DAMAGED) ⊎ (offset.new ≡ offset.old) }
{
    let run = match run_of(alloc, file) {
        Ok(run) => run,
        Err(RunFileError::Fault(fault)) => {
            *offset = fault_offset(file.len(), fault);
            return RUN_DAMAGED;
        }
        Err(RunFileError::Memory) => return OUT_OF_MEMORY,
    };
    match engine.add_run(alloc, run) {
        Ok(given) => {
            *id = given;
            OK
        }
        Err(error) => add_status(error),
    }
}

/// Adds the run of a file to the store, before all others, and stores the id that it gets. The run's last sequence number becomes the
/// store's. The bytes are copied once, and become the run's. A store that was created empty answers as the view does whose runs these are,
/// once all of them are added, the oldest first. It has no snapshot.
///
/// Fails, and changes nothing, if the bytes aren't those of a run's file, and then stores the offset of the first faulty piece, point or
/// fragment, or the file's size if the fault is elsewhere. Fails too if the run isn't above the store's last sequence number, if the store
/// has writes in memtables or prepared, a job or as many runs as it may have, or if allocation fails.
#[unsafe(no_mangle)]
pub extern "C" fn ucstore_add_run(
    alloc: Global,
    handle: &mut Handle,
    file: &[u8],
    id: &mut u64,
    offset: &mut usize,
) -> i32
    ensures adds { Becomes result handle.old.held handle.new.held (λ e e'.
        ((result ≡ OK) × AddsFile e e' file.now id.new)
        ⊎ ((e' ≡ e) × RefusesFile e file.now result offset.new)) }
    ensures untold { (result ≡ OK) ⊎ (id.new ≡ id.old) }
    ensures offset { (result ≡ RUN_DAMAGED) ⊎ (offset.new ≡ offset.old) }
{
    let Some(mut engine) = handle.take(alloc) else {
        return NO_STORE;
    };
    let status = add_file(alloc, &mut engine, file, id, offset);
    handle.put(engine);
    status
}
