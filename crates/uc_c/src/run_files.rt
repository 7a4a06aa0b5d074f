//! Run files that are read piece by piece, without a store, and then added to one. Threads read several at a time.
ghost use Rattle.std.specs.Prelude.{◌≡◌, ◌⊎◌, None, IsSomeAnd};
ghost use Rattle.uc_c.specs.declared.status.TheConstants.{OK, NO_STORE, RUN_DAMAGED, BAD_RUN};
ghost use Rattle.uc_c.specs.Replies.{Becomes, Closes, IfThere};
ghost use Rattle.uc_c.specs.RunFiles.{AddsItsRun, AddsRead, AppendsPiece, OpensFile, ReadsBytes, ReadsFile};

use crate::runs::{add_status, fault_offset};
use crate::status::{BAD_RUN, NO_STORE, OK, OUT_OF_MEMORY, RUN_DAMAGED};
use std::alloc::Global;
use uc_engine::Engine;
use uc_handle::{Handle, RunFileHandle};
use uc_run::Run;
use uc_run_file::{RunFile, RunFileError};

/// Opens the file of a run, with memory for its bytes. It has none yet. Frees what the handle had.
#[unsafe(no_mangle)]
pub extern "C" fn ucstore_run_file_open(alloc: Global, file: &mut RunFileHandle, size: usize) -> i32
    ensures { OpensFile result file.new.held }
{
    let _ = file.take(alloc);
    let Ok(made) = RunFile::with_capacity(alloc, size) else {
        return OUT_OF_MEMORY;
    };
    match Box::new(alloc, made) {
        Ok(held) => {
            file.put(held);
            OK
        }
        Err(_) => OUT_OF_MEMORY,
    }
}

/// Appends a piece to a file, unless it was read.
fn append(file: &mut RunFile, piece: &[u8]) -> i32
    ensures { AppendsPiece result piece.now file.old file.new }
{
    if file.run().is_some() {
        return BAD_RUN;
    }
    match file.append(piece) {
        Ok(()) => OK,
        Err(_) => OUT_OF_MEMORY,
    }
}

/// Appends the next bytes of the file. Fails if it was read.
#[unsafe(no_mangle)]
pub extern "C" fn ucstore_run_file_append(
    alloc: Global,
    file: &mut RunFileHandle,
    piece: &[u8],
) -> i32
    ensures { IfThere BAD_RUN result file.old.held file.new.held (λ f. IsSomeAnd file.new.held (AppendsPiece result piece.now f)) }
{
    let Some(mut held) = file.take(alloc) else {
        return BAD_RUN;
    };
    let status = append(&mut held, piece);
    file.put(held);
    status
}

/// Reads the run of a file that wasn't read, and puts it into a handle of none.
fn read(
    alloc: Global,
    held: Box<RunFile>,
    file: &mut RunFileHandle,
    low: &mut u64,
    high: &mut u64,
    offset: &mut usize,
) -> i32
    requires unread { held.value.run ≡ None }
    requires empty { file.old.held ≡ None }
    ensures read { ReadsBytes result held.value.bytes file.new.held low.new high.new offset.new }
    ensures untold { (result ≡ OK) ⊎ ((low.new ≡ low.old) × (high.new ≡ high.old)) }
    ensures offset { (result ≡ RUN_DAMAGED) ⊎ (offset.new ≡ offset.old) }
{
    let mut held = held;
    let size = held.len();
    match held.read(alloc) {
        Ok(()) => match held.run() {
            Some(run) => {
                *low = run.low_seq();
                *high = run.high_seq();
                file.put(held);
                OK
            }
            None => unreachable!(),
        },
        Err(RunFileError::Fault(fault)) => {
            *offset = fault_offset(size, fault);
            RUN_DAMAGED
        }
        Err(RunFileError::Memory) => OUT_OF_MEMORY,
    }
}

/// Reads the run of the file's bytes, which become the run's points, and stores the least and the greatest sequence of its range.
///
/// Fails if it was read before, or if the bytes aren't those of a run's file, and then stores the offset of the first faulty piece, point or
/// fragment, or the file's size if the fault is elsewhere; or if allocation fails. If it was not read before, the file is freed then.
#[unsafe(no_mangle)]
pub extern "C" fn ucstore_run_file_read(
    alloc: Global,
    file: &mut RunFileHandle,
    low: &mut u64,
    high: &mut u64,
    offset: &mut usize,
) -> i32
    ensures read { IfThere BAD_RUN result file.old.held file.new.held (λ f. ReadsFile result f file.new.held low.new high.new offset.new) }
    ensures untold { (result ≡ OK) ⊎ ((low.new ≡ low.old) × (high.new ≡ high.old)) }
    ensures offset { (result ≡ RUN_DAMAGED) ⊎ (offset.new ≡ offset.old) }
{
    let Some(held) = file.take(alloc) else {
        return BAD_RUN;
    };
    if held.run().is_some() {
        file.put(held);
        return BAD_RUN;
    }
    read(alloc, held, file, low, high, offset)
}

/// Adds a run to an engine, and stores its id.
fn add(alloc: Global, engine: &mut Engine, run: Run, id: &mut u64) -> i32
    ensures adds { AddsItsRun result engine.old engine.new run None id.new }
    ensures untold { (result ≡ OK) ⊎ (id.new ≡ id.old) }
{
    match engine.add_run(alloc, run) {
        Ok(given) => {
            *id = given;
            OK
        }
        Err(error) => add_status(error),
    }
}

/// Adds the run of a file to an engine, if it was read, and stores its id.
fn add_read(alloc: Global, engine: &mut Engine, file: &mut RunFileHandle, id: &mut u64) -> i32
    ensures adds { AddsRead result engine.old engine.new file.old.held file.new.held id.new }
    ensures untold { (result ≡ OK) ⊎ (id.new ≡ id.old) }
{
    let Some(mut held) = file.take(alloc) else {
        return BAD_RUN;
    };
    if held.run().is_none() {
        file.put(held);
        return BAD_RUN;
    }
    match held.take_run() {
        Some(run) => add(alloc, engine, run, id),
        None => unreachable!(),
    }
}

/// Adds the run of a file that was read to the store, as `ucstore_add_run` does, and frees the file. Fails, and changes nothing, if the file
/// wasn't read.
#[unsafe(no_mangle)]
pub extern "C" fn ucstore_add_run_file(
    alloc: Global,
    handle: &mut Handle,
    file: &mut RunFileHandle,
    id: &mut u64,
) -> i32
    ensures adds { Becomes result handle.old.held handle.new.held (λ e e'. AddsRead result e e' file.old.held file.new.held id.new) }
    ensures file { (result ≡ NO_STORE) → file.new.held ≡ file.old.held }
    ensures untold { (result ≡ OK) ⊎ (id.new ≡ id.old) }
{
    let Some(mut engine) = handle.take(alloc) else {
        return NO_STORE;
    };
    let status = add_read(alloc, &mut engine, file, id);
    handle.put(engine);
    status
}

/// Frees the file.
#[unsafe(no_mangle)]
pub extern "C" fn ucstore_run_file_close(alloc: Global, file: &mut RunFileHandle) -> i32
    ensures { Closes BAD_RUN result file.old.held file.new.held }
{
    match file.take(alloc) {
        None => BAD_RUN,
        Some(_) => OK,
    }
}
