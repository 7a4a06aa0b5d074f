//! Writes to the store of a handle.
ghost use Rattle.std.specs.Prelude.{◌≡◌, ◌≤◌, ◌<◌, ◌⊎◌, length, Some, IfOk, IfErr, option_map};
ghost use Rattle.uc_bytes.specs.declared.op.Op.TheVariants as ops;
ghost use Rattle.uc_live.specs.Lives.{committed, unprepared};
ghost use Rattle.uc_engine.specs.Engines.{with_live};
ghost use Rattle.uc_c.specs.declared.status.TheConstants.{OK, ROOM};
ghost use Rattle.uc_c.specs.Batches.{PreparesOps, TakesOps, TellsOps, WritesOps, ops_held};
ghost use Rattle.uc_c.specs.Replies.{IfHeld};
ghost use Rattle.uc_c.specs.Room.{filled};
ghost use Rattle.uc_c.specs.Writing.{DeclinesBatch, IsTold, PreparesBatch, Writes, WritesBatch};

use crate::batches::{bytes_of, put_back};
use crate::room::fill;
use crate::status::{NO_STORE, OK, ROOM, gathered_status, write_status};
use std::alloc::Global;
use uc_batch::{WriteBatch, gathered_batch_is_read};
use uc_engine::{Engine, OpRef, WriteError};
use uc_handle::{BatchHandle, Handle};

/// Writes a batch, given as the bytes that RocksDB writes: 8 bytes for a sequence number, 4 for a count, and as many records. The
/// operations get the batch's sequence number and those after it, or if it is 0, those after the last one. Fails if the bytes
/// aren't a batch, if its sequence number is neither 0 nor above the last one, if too few sequence numbers are left, if run IDs are
/// exhausted, or if allocation fails.
#[unsafe(no_mangle)]
pub extern "C" fn ucstore_write_bytes(alloc: Global, handle: &mut Handle, batch: &[u8]) -> i32
    ensures { WritesBatch result handle.old.held handle.new.held batch.now }
{
    let Some(mut engine) = handle.take(alloc) else {
        return NO_STORE;
    };
    let done = engine.write_batch(alloc, batch);
    handle.put(engine);
    match done {
        Ok(()) => OK,
        Err(error) => write_status(error),
    }
}

/// Writes the operations of a batch. They get the sequence numbers after the last one, and the batch is unchanged. Fails if too few
/// sequence numbers are left, if run IDs are exhausted, or if allocation fails.
#[unsafe(no_mangle)]
pub extern "C" fn ucstore_write(alloc: Global, handle: &mut Handle, batch: &mut BatchHandle) -> i32
    ensures writes { WritesOps result handle.old.held handle.new.held (ops_held batch.old.held) }
    ensures stays { batch.new.held ≡ batch.old.held }
{
    let Some(mut engine) = handle.take(alloc) else {
        return NO_STORE;
    };
    let held = batch.take(alloc);
    let status = write_ops(alloc, &mut engine, &held);
    put_back(batch, held);
    handle.put(engine);
    status
}

/// Writes the operations of a batch that was taken out of its handle.
fn write_ops(alloc: Global, engine: &mut Engine, held: &Option<Box<WriteBatch>>) -> i32
    ensures { TakesOps result (ops_held (option_map (λ b. b.value) held.now)) engine.old engine.new }
{
    gathered_batch_is_read();
    match engine.write_batch(alloc, bytes_of(held)) {
        Ok(()) => OK,
        Err(error) => gathered_status(error),
    }
}

/// Writes an operation.
fn write(alloc: Global, handle: &mut Handle, op: OpRef<'_>) -> i32
    ensures { Writes result handle.old.held handle.new.held op.entry }
{
    let Some(mut engine) = handle.take(alloc) else {
        return NO_STORE;
    };
    let done = engine.write(alloc, op);
    handle.put(engine);
    match done {
        Ok(()) => OK,
        Err(error) => write_status(error),
    }
}

/// Sets a key to a value. Fails if no sequence number is left, if either has 2^32 bytes or more, if run IDs are exhausted, or if
/// allocation fails.
#[unsafe(no_mangle)]
pub extern "C" fn ucstore_put(alloc: Global, handle: &mut Handle, key: &[u8], value: &[u8]) -> i32
    ensures { Writes result handle.old.held handle.new.held (ops.Put key.now value.now) }
{
    write(alloc, handle, OpRef::put(key, value))
}

/// Deletes a key. Fails as `ucstore_put` does.
#[unsafe(no_mangle)]
pub extern "C" fn ucstore_delete(alloc: Global, handle: &mut Handle, key: &[u8]) -> i32
    ensures { Writes result handle.old.held handle.new.held (ops.Delete key.now) }
{
    write(alloc, handle, OpRef::delete(key))
}

/// Merges an operand into a key. Fails as `ucstore_put` does.
#[unsafe(no_mangle)]
pub extern "C" fn ucstore_merge(
    alloc: Global,
    handle: &mut Handle,
    key: &[u8],
    operand: &[u8],
) -> i32
    ensures { Writes result handle.old.held handle.new.held (ops.Merge key.now operand.now) }
{
    write(alloc, handle, OpRef::merge(key, operand))
}

/// Deletes each key from `begin` to below `end`, none if `begin` isn't below `end`. Fails as `ucstore_put` does.
#[unsafe(no_mangle)]
pub extern "C" fn ucstore_delete_range(
    alloc: Global,
    handle: &mut Handle,
    begin: &[u8],
    end: &[u8],
) -> i32
    ensures { Writes result handle.old.held handle.new.held (ops.DeleteRange begin.now end.now) }
{
    write(alloc, handle, OpRef::delete_range(begin, end))
}

/// Copies the prepared batch's record, these bytes, to the buffer, and stores its size. If the buffer is too small, discards the batch
/// instead. Returns the status.
pub fn copy_record(engine: &mut Engine, bytes: &[u8], room: &mut [u8], size: &mut usize) -> i32
    ensures size { size.new ≡ length bytes.now }
    ensures told { ((length bytes.now ≤ length room.old) × (result ≡ OK)
        × (room.new ≡ filled bytes.now room.old) × (engine.new ≡ engine.old))
        ⊎ ((length room.old < length bytes.now) × (result ≡ ROOM) × (room.new ≡ room.old)
        × (engine.new ≡ with_live (unprepared engine.old.live) engine.old)) }
{
    *size = bytes.len();
    if bytes.len() > room.len() {
        engine.give_up();
        return ROOM;
    }
    fill(room, bytes);
    OK
}

/// Prepares a batch, copies the record that it adds to a log of this many bytes, if it fits the buffer, and stores the record's
/// size. If the buffer is too small, nothing is prepared. Returns the status.
fn prepare(
    alloc: Global,
    engine: &mut Engine,
    batch: &[u8],
    log_length: u64,
    room: &mut [u8],
    size: &mut usize,
) -> Result<i32, WriteError>
    ensures ok { IfOk result (λ status.
        IsTold status log_length batch.now room.old room.new size.new engine.old engine.new) }
    ensures untold { IfOk result (λ status. (status ≡ OK) ⊎ ((status ≡ ROOM) × (room.new ≡ room.old))) }
    ensures err { IfErr result (λ error.
        DeclinesBatch batch.now engine.old engine.new error × (room.new ≡ room.old) × (size.new ≡ size.old)) }
{
    let record = engine.prepare_recorded(alloc, log_length, batch)?;
    Ok(copy_record(engine, record.as_slice(), room, size))
}

/// Prepares a batch as [`prepare`] does, and numbers it where it is.
pub fn prepare_owned(
    alloc: Global,
    engine: &mut Engine,
    batch: Vec<u8>,
    log_length: u64,
    room: &mut [u8],
    size: &mut usize,
) -> Result<i32, WriteError>
    ensures ok { IfOk result (λ status.
        IsTold status log_length batch.items room.old room.new size.new engine.old engine.new) }
    ensures untold { IfOk result (λ status. (status ≡ OK) ⊎ ((status ≡ ROOM) × (room.new ≡ room.old))) }
    ensures err { IfErr result (λ error.
        DeclinesBatch batch.items engine.old engine.new error × (room.new ≡ room.old) × (size.new ≡ size.old)) }
{
    let record = engine.prepare_owned(alloc, log_length, batch)?;
    Ok(copy_record(engine, record.as_slice(), room, size))
}

/// Prepares the operations of a batch, so that `ucstore_commit` can take them, with the sequence numbers after the last one, and
/// copies the bytes that they add to a log of this many bytes, if they fit the buffer. Stores the number of these bytes. If the
/// buffer is too small, nothing is prepared. Fails as `ucstore_write` does. The batch is unchanged.
#[unsafe(no_mangle)]
pub extern "C" fn ucstore_prepare(
    alloc: Global,
    handle: &mut Handle,
    batch: &mut BatchHandle,
    log_length: u64,
    room: &mut [u8],
    size: &mut usize,
) -> i32
    ensures prepares { PreparesOps result log_length (ops_held batch.old.held) room.old room.new size.new
        handle.old.held handle.new.held }
    ensures stays { batch.new.held ≡ batch.old.held }
    ensures untold { (result ≡ OK) ⊎ (room.new ≡ room.old) }
    ensures size_untold { (result ≡ OK) ⊎ ((result ≡ ROOM) ⊎ (size.new ≡ size.old)) }
{
    let Some(mut engine) = handle.take(alloc) else {
        return NO_STORE;
    };
    let held = batch.take(alloc);
    let status = prepare_ops(alloc, &mut engine, &held, log_length, room, size);
    put_back(batch, held);
    handle.put(engine);
    status
}

/// Prepares the operations of a batch that was taken out of its handle.
fn prepare_ops(
    alloc: Global,
    engine: &mut Engine,
    held: &Option<Box<WriteBatch>>,
    log_length: u64,
    room: &mut [u8],
    size: &mut usize,
) -> i32
    ensures tells { TellsOps result log_length (ops_held (option_map (λ b. b.value) held.now))
        room.old room.new size.new engine.old engine.new }
    ensures untold { (result ≡ OK) ⊎ (room.new ≡ room.old) }
    ensures size_untold { (result ≡ OK) ⊎ ((result ≡ ROOM) ⊎ (size.new ≡ size.old)) }
{
    gathered_batch_is_read();
    match prepare(alloc, engine, bytes_of(held), log_length, room, size) {
        Ok(status) => status,
        Err(error) => gathered_status(error),
    }
}

/// Prepares a batch, given as bytes, as `ucstore_prepare` does. Fails as `ucstore_write_bytes` does.
#[unsafe(no_mangle)]
pub extern "C" fn ucstore_prepare_bytes(
    alloc: Global,
    handle: &mut Handle,
    batch: &[u8],
    log_length: u64,
    room: &mut [u8],
    size: &mut usize,
) -> i32
    ensures prepares { PreparesBatch result log_length batch.now room.old room.new size.new handle.old.held handle.new.held }
    ensures untold { (result ≡ OK) ⊎ (room.new ≡ room.old) }
    ensures size_untold { (result ≡ OK) ⊎ ((result ≡ ROOM) ⊎ (size.new ≡ size.old)) }
{
    let Some(mut engine) = handle.take(alloc) else {
        return NO_STORE;
    };
    let told = prepare(alloc, &mut engine, batch, log_length, room, size);
    handle.put(engine);
    match told {
        Ok(status) => status,
        Err(error) => write_status(error),
    }
}

/// Takes the batch that is prepared. It takes no memory. It can't fail if there is a store.
#[unsafe(no_mangle)]
pub extern "C" fn ucstore_commit(alloc: Global, handle: &mut Handle) -> i32
    ensures { IfHeld result handle.old.held handle.new.held (λ e.
        (result ≡ OK) × (handle.new.held ≡ Some (with_live (committed e.live) e))) }
{
    let Some(mut engine) = handle.take(alloc) else {
        return NO_STORE;
    };
    engine.commit();
    handle.put(engine);
    OK
}

/// Discards the prepared batch, if there is one.
#[unsafe(no_mangle)]
pub extern "C" fn ucstore_give_up(alloc: Global, handle: &mut Handle) -> i32
    ensures { IfHeld result handle.old.held handle.new.held (λ e.
        (result ≡ OK) × (handle.new.held ≡ Some (with_live (unprepared e.live) e))) }
{
    let Some(mut engine) = handle.take(alloc) else {
        return NO_STORE;
    };
    engine.give_up();
    handle.put(engine);
    OK
}
