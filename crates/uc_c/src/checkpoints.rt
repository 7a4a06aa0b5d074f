//! Checkpoints that C holds: the rows of a view as a write-ahead log, piece by piece.
ghost use Rattle.std.specs.Prelude.{◌≡◌, ◌⊎◌, None, Some, IsOkAnd};
ghost use Rattle.uc_c.specs.Checkpoints.{Begins, CheckpointSays, LaysHeld, TellsPiece};
ghost use Rattle.uc_c.specs.Replies.{Closes};
ghost use Rattle.uc_c.specs.declared.status.TheConstants.{OK, OUT_OF_MEMORY, ROOM, NO_CHECKPOINT};

use crate::status::{
    HAS_CHECKPOINT, NO_CHECKPOINT, NO_VIEW, OK, OUT_OF_MEMORY, ROOM, SEQUENCES_SPENT, TOO_LONG,
};
use std::alloc::{AllocError, Global};
use uc_engine::{CheckpointError, EngineCheckpoint};
use uc_handle::{CheckpointHandle, ViewHandle};

/// Puts a checkpoint of the view into its handle. No row of it is encoded yet, and the view stays. Fails if the handle has a
/// checkpoint, or if allocation fails.
#[unsafe(no_mangle)]
pub extern "C" fn ucstore_checkpoint(
    alloc: Global,
    view: &mut ViewHandle,
    checkpoint: &mut CheckpointHandle,
) -> i32
    ensures begins { Begins result view.old.held checkpoint.old.held checkpoint.new.held }
    ensures stays { view.new.held ≡ view.old.held }
{
    if let Some(held) = checkpoint.take(alloc) {
        checkpoint.put(held);
        return HAS_CHECKPOINT;
    }
    let Some(held) = view.take(alloc) else {
        return NO_VIEW;
    };
    let begun = held.checkpoint(alloc);
    view.put(held);
    hold(alloc, checkpoint, begun)
}

/// Puts a checkpoint that was begun into a handle of none.
fn hold(
    alloc: Global,
    checkpoint: &mut CheckpointHandle,
    begun: Result<EngineCheckpoint, AllocError>,
) -> i32
    requires { checkpoint.old.held ≡ None }
    ensures { ((result ≡ OK) × IsOkAnd begun (λ c. checkpoint.new.held ≡ Some c))
        ⊎ ((result ≡ OUT_OF_MEMORY) × (checkpoint.new.held ≡ None)) }
{
    let Ok(begun) = begun else {
        return OUT_OF_MEMORY;
    };
    match Box::new(alloc, begun) {
        Ok(held) => {
            checkpoint.put(held);
            OK
        }
        Err(_) => OUT_OF_MEMORY,
    }
}

/// Encodes the next rows, at most `most` of them, as the bytes that a log of this length gets for them. Copies these bytes into the
/// buffer if they fit, and stores their number. If the buffer is too small, no row is passed over. Also stores whether no row was
/// left. Fails if a row has a key or value of 2^32 bytes or more, or if allocation fails.
#[unsafe(no_mangle)]
pub extern "C" fn ucstore_checkpoint_next(
    alloc: Global,
    checkpoint: &mut CheckpointHandle,
    log_length: u64,
    most: u64,
    room: &mut [u8],
    size: &mut usize,
    done: &mut bool,
) -> i32
    ensures lays { LaysHeld result log_length most room.old room.new size.new done.new
        checkpoint.old.held checkpoint.new.held }
    ensures untold { (result ≡ OK) ⊎ ((room.new ≡ room.old) × (done.new ≡ done.old)) }
    ensures size_untold { (result ≡ OK) ⊎ ((result ≡ ROOM) ⊎ (size.new ≡ size.old)) }
{
    let Some(mut held) = checkpoint.take(alloc) else {
        return NO_CHECKPOINT;
    };
    let laid = held.next_into(alloc, log_length, most, room);
    checkpoint.put(held);
    match laid {
        Ok(laid) => tell(laid, room.len(), size, done),
        Err(error) => checkpoint_status(error),
    }
}

/// Stores the size of a piece for a buffer of this size, or that no row was left.
fn tell(laid: Option<usize>, room: usize, size: &mut usize, done: &mut bool) -> i32
    ensures tells { TellsPiece result laid room size.new done.new }
    ensures untold { (result ≡ OK) ⊎ ((result ≡ ROOM) × (done.new ≡ done.old)) }
{
    let Some(length) = laid else {
        *size = 0;
        *done = true;
        return OK;
    };
    *size = length;
    if length > room {
        return ROOM;
    }
    *done = false;
    OK
}

/// The status for a piece that isn't laid out.
fn checkpoint_status(error: CheckpointError) -> i32
    ensures { CheckpointSays error result }
{
    match error {
        CheckpointError::TooLong => TOO_LONG,
        CheckpointError::SequencesSpent => SEQUENCES_SPENT,
        CheckpointError::Memory => OUT_OF_MEMORY,
    }
}

/// Frees the checkpoint of the handle, if there is one. Its view stays.
#[unsafe(no_mangle)]
pub extern "C" fn ucstore_checkpoint_close(alloc: Global, checkpoint: &mut CheckpointHandle) -> i32
    ensures { Closes NO_CHECKPOINT result checkpoint.old.held checkpoint.new.held }
{
    match checkpoint.take(alloc) {
        None => NO_CHECKPOINT,
        Some(_) => OK,
    }
}
