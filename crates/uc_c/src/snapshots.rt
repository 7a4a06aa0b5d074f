//! Snapshots of the store of a handle.
ghost use Rattle.std.specs.Prelude.{◌≡◌, ◌⊎◌, Contains, Some, length};
ghost use Rattle.uc_live.specs.Lives as lives;
ghost use Rattle.uc_live.specs.Snapshots.{without_snapshot};
ghost use Rattle.uc_engine.specs.Engines.{with_live};
ghost use Rattle.uc_c.specs.declared.status.TheConstants.{OK, NOT_PROTECTED};
ghost use Rattle.uc_c.specs.Compacting.{TakesOne};
ghost use Rattle.uc_c.specs.Replies.{Answers, IfHeld};
ghost use Rattle.uc_c.specs.Room.{filled};

use crate::room::fill_numbers;
use crate::status::{NO_STORE, NOT_PROTECTED, OK, room_status};
use std::alloc::Global;
use uc_handle::Handle;

/// Takes a snapshot at the last sequence number, and stores that number. Snapshots are counted: one that is taken twice must be
/// released twice. Fails if run IDs are exhausted, or if allocation fails.
#[unsafe(no_mangle)]
pub extern "C" fn ucstore_snapshot(alloc: Global, handle: &mut Handle, seq: &mut u64) -> i32
    ensures takes { TakesOne result handle.old.held handle.new.held seq.new }
    ensures untold { (result ≡ OK) ⊎ (seq.new ≡ seq.old) }
{
    let Some(mut engine) = handle.take(alloc) else {
        return NO_STORE;
    };
    let done = engine.snapshot(alloc);
    handle.put(engine);
    match done {
        Ok(last) => {
            *seq = last;
            OK
        }
        Err(error) => room_status(error),
    }
}

/// Releases a snapshot. Fails if the store has no snapshot at the sequence number.
#[unsafe(no_mangle)]
pub extern "C" fn ucstore_release(alloc: Global, handle: &mut Handle, seq: u64) -> i32
    ensures { IfHeld result handle.old.held handle.new.held (λ e.
        ((result ≡ OK) × Contains e.live.snapshots seq
        × (handle.new.held ≡ Some (with_live (without_snapshot seq e.live) e)))
        ⊎ ((result ≡ NOT_PROTECTED) × ¬ Contains e.live.snapshots seq × (handle.new.held ≡ handle.old.held))) }
{
    let Some(mut engine) = handle.take(alloc) else {
        return NO_STORE;
    };
    let done = engine.release(seq);
    handle.put(engine);
    match done {
        Ok(()) => OK,
        Err(_) => NOT_PROTECTED,
    }
}

/// Copies the sequence numbers of the snapshots, in rising order, each once, as many as the buffer holds, and stores how many there
/// are.
#[unsafe(no_mangle)]
pub extern "C" fn ucstore_snapshots(
    alloc: Global,
    handle: &mut Handle,
    room: &mut [u64],
    count: &mut usize,
) -> i32
    ensures keeps { Answers result handle.old.held handle.new.held (λ e.
        (result ≡ OK)
        × (room.new ≡ filled e.live.version.keeps room.old)
        × (count.new ≡ length e.live.version.keeps)) }
    ensures untold { (result ≡ OK) ⊎ ((room.new ≡ room.old) × (count.new ≡ count.old)) }
{
    let Some(engine) = handle.take(alloc) else {
        return NO_STORE;
    };
    let there = show_keeps(engine.keeps(), room);
    handle.put(engine);
    *count = there;
    OK
}

/// Copies the sequence numbers, as many as the buffer holds. Returns how many there are.
fn show_keeps(keeps: &[u64], room: &mut [u64]) -> usize
    ensures room { room.new ≡ filled keeps.now room.old }
    ensures count { result ≡ length keeps.now }
{
    fill_numbers(room, keeps);
    keeps.len()
}

/// The last sequence; 0 if nothing was written.
#[unsafe(no_mangle)]
pub extern "C" fn ucstore_last(alloc: Global, handle: &mut Handle, seq: &mut u64) -> i32
    ensures last { Answers result handle.old.held handle.new.held (λ e.
        (result ≡ OK) × (seq.new ≡ lives.last e.live)) }
    ensures untold { (result ≡ OK) ⊎ (seq.new ≡ seq.old) }
{
    let Some(engine) = handle.take(alloc) else {
        return NO_STORE;
    };
    let last = engine.last();
    handle.put(engine);
    *seq = last;
    OK
}
