//! Batches that C holds: operations are collected in them, and no store sees them before they are written.
ghost use Rattle.std.specs.Prelude.{◌≡◌, None, [], IfOk, length, option_map};
ghost use Rattle.uc_bytes.specs.declared.op.Op.TheVariants as ops;
ghost use Rattle.uc_batch.specs.Gathering.{FitTogether};
ghost use Rattle.uc_batch.specs.Spelling.{batch_text};
ghost use Rattle.uc_c.specs.declared.status.TheConstants.{OK};
ghost use Rattle.uc_c.specs.Batches.{Gathers, ops_held};
ghost use Rattle.uc_c.specs.Room.{filled};

use crate::room::fill;
use crate::status::{OK, OUT_OF_MEMORY, push_status};
use std::alloc::{AllocError, Global};
use uc_batch::{OpRef, WriteBatch};
use uc_handle::BatchHandle;

/// The bytes of a batch without operations.
const EMPTY: [u8; 12] = [0; 12];

/// The bytes of a batch that was taken out of its handle.
pub fn bytes_of(held: &Option<Box<WriteBatch>>) -> &[u8]
    ensures text { result.now ≡ batch_text 0 (ops_held (option_map (λ b. b.value) held.now)) }
    ensures fit { FitTogether (ops_held (option_map (λ b. b.value) held.now)) }
{
    match held {
        Some(batch) => batch.as_bytes(),
        None => &EMPTY,
    }
}

/// Puts a batch back into its handle, if there was one.
pub fn put_back(batch: &mut BatchHandle, held: Option<Box<WriteBatch>>)
    requires { batch.old.held ≡ None }
    ensures { batch.new.held ≡ option_map (λ b. b.value) held }
{
    match held {
        Some(held) => batch.put(held),
        None => {}
    }
}

/// A batch without operations in a box.
fn new_batch(alloc: Global) -> Result<Box<WriteBatch>, AllocError>
    ensures { IfOk result (λ held. held.value ≡ []) }
{
    match Box::new(alloc, WriteBatch::new(alloc)?) {
        Ok(held) => Ok(held),
        Err(_) => Err(AllocError),
    }
}

/// Appends an operation. Fails if a key or value has 2^32 bytes or more, if the batch has 2^32 - 1 operations, or if allocation
/// fails.
fn push(alloc: Global, batch: &mut BatchHandle, op: OpRef<'_>) -> i32
    ensures { Gathers result batch.old.held batch.new.held op.entry }
{
    let mut held = match batch.take(alloc) {
        Some(held) => held,
        None => match new_batch(alloc) {
            Ok(held) => held,
            Err(_) => return OUT_OF_MEMORY,
        },
    };
    let done = held.push(&op);
    batch.put(held);
    match done {
        Ok(()) => OK,
        Err(error) => push_status(error),
    }
}

/// Appends the operation that sets a key to a value. Fails if either has 2^32 bytes or more, if the batch has 2^32 - 1 operations,
/// or if allocation fails.
#[unsafe(no_mangle)]
pub extern "C" fn ucstore_batch_put(
    alloc: Global,
    batch: &mut BatchHandle,
    key: &[u8],
    value: &[u8],
) -> i32
    ensures { Gathers result batch.old.held batch.new.held (ops.Put key.now value.now) }
{
    push(alloc, batch, OpRef::put(key, value))
}

/// Appends the operation that merges an operand into a key. Fails as `ucstore_batch_put` does.
#[unsafe(no_mangle)]
pub extern "C" fn ucstore_batch_merge(
    alloc: Global,
    batch: &mut BatchHandle,
    key: &[u8],
    operand: &[u8],
) -> i32
    ensures { Gathers result batch.old.held batch.new.held (ops.Merge key.now operand.now) }
{
    push(alloc, batch, OpRef::merge(key, operand))
}

/// Appends the operation that deletes a key. Fails as `ucstore_batch_put` does.
#[unsafe(no_mangle)]
pub extern "C" fn ucstore_batch_delete(alloc: Global, batch: &mut BatchHandle, key: &[u8]) -> i32
    ensures { Gathers result batch.old.held batch.new.held (ops.Delete key.now) }
{
    push(alloc, batch, OpRef::delete(key))
}

/// Appends the operation that deletes each key from `begin` to below `end`. Fails as `ucstore_batch_put` does.
#[unsafe(no_mangle)]
pub extern "C" fn ucstore_batch_delete_range(
    alloc: Global,
    batch: &mut BatchHandle,
    begin: &[u8],
    end: &[u8],
) -> i32
    ensures { Gathers result batch.old.held batch.new.held (ops.DeleteRange begin.now end.now) }
{
    push(alloc, batch, OpRef::delete_range(begin, end))
}

/// Removes the operations, and keeps the memory that they had.
#[unsafe(no_mangle)]
pub extern "C" fn ucstore_batch_clear(alloc: Global, batch: &mut BatchHandle) -> i32
    ensures ok { result ≡ OK }
    ensures none { ops_held batch.new.held ≡ [] }
{
    if let Some(mut held) = batch.take(alloc) {
        held.clear();
        batch.put(held);
    }
    OK
}

/// The number of operations in the batch.
#[unsafe(no_mangle)]
pub extern "C" fn ucstore_batch_count(
    alloc: Global,
    batch: &mut BatchHandle,
    count: &mut u64,
) -> i32
    ensures ok { result ≡ OK }
    ensures count { count.new ≡ length (ops_held batch.old.held) }
    ensures stays { batch.new.held ≡ batch.old.held }
{
    let held = batch.take(alloc);
    *count = count_of(&held);
    put_back(batch, held);
    OK
}

/// The number of operations in a batch that was taken out of its handle.
fn count_of(held: &Option<Box<WriteBatch>>) -> u64
    ensures { result ≡ length (ops_held (option_map (λ b. b.value) held.now)) }
{
    match held {
        Some(batch) => u64::from(batch.len()),
        None => 0,
    }
}

/// Copies the bytes of the batch, whose sequence number is 0, as many of them as the buffer holds, and stores their number.
#[unsafe(no_mangle)]
pub extern "C" fn ucstore_batch_bytes(
    alloc: Global,
    batch: &mut BatchHandle,
    room: &mut [u8],
    size: &mut usize,
) -> i32
    ensures ok { result ≡ OK }
    ensures room { room.new ≡ filled (batch_text 0 (ops_held batch.old.held)) room.old }
    ensures size { size.new ≡ length (batch_text 0 (ops_held batch.old.held)) }
    ensures stays { batch.new.held ≡ batch.old.held }
{
    let held = batch.take(alloc);
    let bytes = bytes_of(&held);
    fill(room, bytes);
    *size = bytes.len();
    put_back(batch, held);
    OK
}

/// Frees the batch. It has no operations then.
#[unsafe(no_mangle)]
pub extern "C" fn ucstore_batch_close(alloc: Global, batch: &mut BatchHandle) -> i32
    ensures ok { result ≡ OK }
    ensures none { batch.new.held ≡ None }
{
    let _held = batch.take(alloc);
    OK
}
