//! Flushes and compactions of the store of a handle.
ghost use Rattle.std.specs.Prelude.{◌≡◌, ◌⊎◌};
ghost use Rattle.uc_c.specs.declared.status.TheConstants.{OK};
ghost use Rattle.uc_c.specs.Compacting.{Compacts, Flushes};

use crate::status::{NO_STORE, OK, room_status};
use std::alloc::Global;
use uc_handle::Handle;

/// Flushes the memtable. Fails if run IDs are exhausted, or if allocation fails.
#[unsafe(no_mangle)]
pub extern "C" fn ucstore_flush(alloc: Global, handle: &mut Handle) -> i32
    ensures { Flushes result handle.old.held handle.new.held }
{
    let Some(mut engine) = handle.take(alloc) else {
        return NO_STORE;
    };
    let done = engine.flush(alloc);
    handle.put(engine);
    match done {
        Ok(()) => OK,
        Err(error) => room_status(error),
    }
}

/// Compacts the runs that are picked next, if any, and stores whether there were any. The calling thread does all the work. Fails
/// if run IDs are exhausted, or if allocation fails.
#[unsafe(no_mangle)]
pub extern "C" fn ucstore_compact(alloc: Global, handle: &mut Handle, compacted: &mut bool) -> i32
    ensures compacts { Compacts result handle.old.held handle.new.held compacted.new }
    ensures untold { (result ≡ OK) ⊎ (compacted.new ≡ compacted.old) }
{
    let Some(mut engine) = handle.take(alloc) else {
        return NO_STORE;
    };
    let done = engine.compact_once(alloc);
    handle.put(engine);
    match done {
        Ok(found) => {
            *compacted = found;
            OK
        }
        Err(error) => room_status(error),
    }
}
