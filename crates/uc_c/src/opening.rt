//! Opens the store of a handle, and closes it.
ghost use Rattle.std.specs.Prelude.{◌≡◌, ◌⊎◌, IfOk, IfErr};
ghost use Rattle.uc_batch.specs.Log.{log_writes};
ghost use Rattle.uc_live.specs.declared.open_error.LiveOpenError.TheVariants.{NoRoom};
ghost use Rattle.uc_live.specs.declared.room_error.RoomError.TheVariants.{Memory};
ghost use Rattle.uc_c.specs.declared.status.TheConstants.{OK, NO_STORE};
ghost use Rattle.uc_c.specs.Numbers.{ended_in};
ghost use Rattle.uc_c.specs.Opening.{Creates, Opens};
ghost use Rattle.uc_c.specs.Replies.{Closes};

use crate::c_ended::CEnded;
use crate::c_options::{COptions, OPTIONS_SIZE};
use crate::status::{BAD_SIZE, HAS_STORE, NO_STORE, OK, UNKNOWN_OPERATOR, open_status};
use std::alloc::Global;
use uc_engine::{Engine, LiveOpenError, OpenedEngine, OperatorKind, RoomError};
use uc_handle::Handle;

/// The engine in a box.
fn boxed(alloc: Global, engine: Engine) -> Result<Box<Engine>, LiveOpenError>
    ensures ok { IfOk result (λ held. held.value ≡ engine) }
    ensures err { IfErr result (λ error. error ≡ NoRoom Memory) }
{
    match Box::new(alloc, engine) {
        Ok(held) => Ok(held),
        Err(_) => Err(LiveOpenError::NoRoom(RoomError::Memory)),
    }
}

/// Puts an empty store into the handle. Its operator is 0 for byte strings joined by commas, 1 for sums, 2 for the greater byte
/// string or 3 for the last four bytes. It has no snapshot. It recognizes its jobs by its number: `bindings/c/ids.c` gives each
/// store of a process a different one. Fails if the handle has a store, if the options' size isn't the one that this library knows,
/// if no operator has the number, if an option is out of range, or if allocation fails.
#[unsafe(no_mangle)]
pub extern "C" fn numbered_ucstore_create(
    alloc: Global,
    handle: &mut Handle,
    operator: u32,
    options: &COptions,
    number: u64,
) -> i32
    ensures { Creates result handle.old.held handle.new.held operator options.now number }
{
    if let Some(engine) = handle.take(alloc) {
        handle.put(engine);
        return HAS_STORE;
    }
    if options.size != OPTIONS_SIZE {
        return BAD_SIZE;
    }
    let Some(kind) = OperatorKind::of(operator) else {
        return UNKNOWN_OPERATOR;
    };
    let engine = match Engine::create(alloc, kind, options.options(number)) {
        Ok(engine) => engine,
        Err(error) => return open_status(error),
    };
    match boxed(alloc, engine) {
        Ok(engine) => {
            handle.put(engine);
            OK
        }
        Err(error) => open_status(error),
    }
}

/// Puts a store into the handle that is opened from the bytes of a write-ahead log: it has the writes before the log's first fault,
/// and `ended` says whether there was one. It has no snapshot. Fails as `numbered_ucstore_create` does, and if run IDs are
/// exhausted.
#[unsafe(no_mangle)]
pub extern "C" fn numbered_ucstore_open(
    alloc: Global,
    handle: &mut Handle,
    operator: u32,
    options: &COptions,
    log: &[u8],
    ended: &mut CEnded,
    number: u64,
) -> i32
    ensures opens { Opens result handle.old.held handle.new.held operator options.now number log.now }
    ensures ended { (result ≡ OK) → ended.new ≡ ended_in (log_writes log.now).ended }
    ensures untold { (result ≡ OK) ⊎ (ended.new ≡ ended.old) }
{
    if let Some(engine) = handle.take(alloc) {
        handle.put(engine);
        return HAS_STORE;
    }
    if options.size != OPTIONS_SIZE {
        return BAD_SIZE;
    }
    let Some(kind) = OperatorKind::of(operator) else {
        return UNKNOWN_OPERATOR;
    };
    let opened = match Engine::open(alloc, kind, log, options.options(number)) {
        Ok(opened) => opened,
        Err(error) => return open_status(error),
    };
    let OpenedEngine {
        engine,
        ended: found,
    } = opened;
    match boxed(alloc, engine) {
        Ok(engine) => {
            handle.put(engine);
            *ended = CEnded::of(found);
            OK
        }
        Err(error) => open_status(error),
    }
}

/// Frees the store of the handle, if there is one.
#[unsafe(no_mangle)]
pub extern "C" fn ucstore_close(alloc: Global, handle: &mut Handle) -> i32
    ensures { Closes NO_STORE result handle.old.held handle.new.held }
{
    match handle.take(alloc) {
        None => NO_STORE,
        Some(_) => OK,
    }
}
