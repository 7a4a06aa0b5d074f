//! Look-ups in the store of a handle, and in what else is [`Readable`].
ghost use Rattle.std.specs.Prelude.{◌≡◌, ◌⊎◌, length};
ghost use Rattle.uc_query_read.specs.declared.query.Query.TheVariants as queries;
ghost use Rattle.uc_engine.specs.Engines.{answer_in, last_value};
ghost use Rattle.uc_engine.specs.EngineViews.{answer_seen, value_seen};
ghost use Rattle.uc_c.specs.declared.status.TheConstants.{OK, OUT_OF_MEMORY};
ghost use Rattle.uc_c.specs.Reading.{Found, FoundAt, IsLookedUp};
ghost use Rattle.uc_c.specs.Replies.{Answers};
ghost use Rattle.uc_c.specs.Room.{filled};

use crate::readable::Readable;
use crate::room::fill;
use crate::status::{NO_STORE, NOT_FOUND, NOT_PROTECTED, OK, OUT_OF_MEMORY};
use std::alloc::Global;
use uc_engine::Answer;
use uc_handle::Handle;

/// Looks up a key at the last sequence number, copies its value, as many of its bytes as the buffer holds, and stores its size.
/// Fails if allocation fails.
#[unsafe(no_mangle)]
pub extern "C" fn ucstore_get(
    alloc: Global,
    handle: &mut Handle,
    key: &[u8],
    room: &mut [u8],
    size: &mut usize,
) -> i32
    ensures found { Answers result handle.old.held handle.new.held (λ e.
        (result ≡ OUT_OF_MEMORY) ⊎ Found result (last_value e key.now) room.old room.new size.new) }
    ensures untold { (result ≡ OK) ⊎ ((room.new ≡ room.old) × (size.new ≡ size.old)) }
{
    let Some(engine) = handle.take(alloc) else {
        return NO_STORE;
    };
    let status = look_up(alloc, &*engine, key, room, size);
    handle.put(engine);
    status
}

/// Looks up a key at a sequence number, and copies its value as `ucstore_get` does. Fails if no snapshot is at that number, or if
/// allocation fails.
#[unsafe(no_mangle)]
pub extern "C" fn ucstore_get_at(
    alloc: Global,
    handle: &mut Handle,
    key: &[u8],
    at: u64,
    room: &mut [u8],
    size: &mut usize,
) -> i32
    ensures found { Answers result handle.old.held handle.new.held (λ e.
        (result ≡ OUT_OF_MEMORY)
        ⊎ FoundAt result (answer_in e (queries.Get key.now at)) room.old room.new size.new) }
    ensures untold { (result ≡ OK) ⊎ ((room.new ≡ room.old) × (size.new ≡ size.old)) }
{
    let Some(engine) = handle.take(alloc) else {
        return NO_STORE;
    };
    let status = look_up_at(alloc, &*engine, key, at, room, size);
    handle.put(engine);
    status
}

/// Looks a key up at the last sequence, as `ucstore_get` does.
pub fn look_up<R: Readable>(
    alloc: Global,
    source: &R,
    key: &[u8],
    room: &mut [u8],
    size: &mut usize,
) -> i32
    ensures found { (result ≡ OUT_OF_MEMORY)
        ⊎ Found result (value_seen (R.viewed source.now) key.now) room.old room.new size.new }
    ensures untold { (result ≡ OK) ⊎ ((room.new ≡ room.old) × (size.new ≡ size.old)) }
{
    match source.get_ref(alloc, key) {
        Ok(Some(value)) => {
            tell_value(value.as_slice(), room, size);
            OK
        }
        Ok(None) => NOT_FOUND,
        Err(_) => OUT_OF_MEMORY,
    }
}

/// Looks a key up at a sequence, as `ucstore_get_at` does.
pub fn look_up_at<R: Readable>(
    alloc: Global,
    source: &R,
    key: &[u8],
    at: u64,
    room: &mut [u8],
    size: &mut usize,
) -> i32
    ensures found { (result ≡ OUT_OF_MEMORY)
        ⊎ FoundAt result (answer_seen (R.viewed source.now) (queries.Get key.now at)) room.old room.new size.new }
    ensures untold { (result ≡ OK) ⊎ ((room.new ≡ room.old) × (size.new ≡ size.old)) }
{
    match source.get_at(alloc, key, at) {
        Ok(answer) => tell(&answer, room, size),
        Err(_) => OUT_OF_MEMORY,
    }
}

/// Copies a value, as many of its bytes as the buffer holds, and stores its size.
fn tell_value(value: &[u8], room: &mut [u8], size: &mut usize)
    ensures room { room.new ≡ filled value.now room.old }
    ensures size { size.new ≡ length value.now }
{
    fill(room, value);
    *size = value.len();
}

/// Copies the value of an answer, if there is one.
fn tell(answer: &Answer, room: &mut [u8], size: &mut usize) -> i32
    requires { IsLookedUp answer.now }
    ensures found { FoundAt result answer.now room.old room.new size.new }
    ensures untold { (result ≡ OK) ⊎ ((room.new ≡ room.old) × (size.new ≡ size.old)) }
{
    match answer {
        Answer::Value(Some(value)) => {
            tell_value(value.as_slice(), room, size);
            OK
        }
        Answer::Value(None) => NOT_FOUND,
        Answer::NotProtected(_) => NOT_PROTECTED,
        Answer::Rows(_) => unreachable!(),
    }
}
