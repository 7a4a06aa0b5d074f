//! Look-ups of many keys at once in the store of a handle, and in what else is [`Readable`].
ghost use Rattle.std.specs.Prelude.{◌≡◌, ◌⊎◌, ◌↔◌, ◌++◌, ◌∷◌, [], IsTrue, IfOk, OnOk, length, map, sum};
ghost use Rattle.uc_engine.specs.Engines.{last_value};
ghost use Rattle.uc_engine.specs.EngineViews.{value_seen};
ghost use Rattle.uc_c.specs.declared.status.TheConstants.{OK};
ghost use Rattle.uc_c.specs.Many.{FoundMany, length_told, value_bytes, values_bytes, values_of};
ghost use Rattle.uc_c.specs.Replies.{Answers};

use crate::readable::Readable;
use crate::room::fill;
use crate::status::{BAD_KEYS, NO_STORE, OK, OUT_OF_MEMORY};
use std::alloc::{AllocError, Global};
use uc_engine::ValueRef;
use uc_handle::Handle;
use uc_run::SoughtKey;

/// The length that is stored for a key without a value.
const NO_VALUE: u64 = u64::MAX;

/// The number of keys in each group that is read ahead; the last may have fewer.
const GROUP_KEYS: usize = 32;

/// The values found for many keys.
#[derive(Drop)]
struct Found {
    // The length of each value, and the bytes of all, one after the other.
    lengths: Vec<u64>,
    bytes: Vec<u8>,
}

/// Looks up keys at the last sequence number. The keys are concatenated, in any order. Stores the length of each key's value, or
/// the greatest number if it has none, copies the concatenated values, as many of their bytes as the buffer holds, and stores their
/// total size. Fails if the keys' lengths don't add up to their bytes, if there aren't as many places for answers, or if allocation
/// fails.
#[unsafe(no_mangle)]
pub extern "C" fn ucstore_get_many(
    alloc: Global,
    handle: &mut Handle,
    keys: &[u8],
    key_lengths: &[u64],
    value_lengths: &mut [u64],
    room: &mut [u8],
    size: &mut usize,
) -> i32
    ensures found { Answers result handle.old.held handle.new.held (λ e.
        FoundMany result (last_value e) keys.now key_lengths.now value_lengths.old value_lengths.new
        room.old room.new size.new) }
    ensures untold { (result ≡ OK)
        ⊎ ((value_lengths.new ≡ value_lengths.old) × (room.new ≡ room.old) × (size.new ≡ size.old)) }
{
    let Some(engine) = handle.take(alloc) else {
        return NO_STORE;
    };
    let status = look_up_many(
        alloc,
        &*engine,
        keys,
        key_lengths,
        value_lengths,
        room,
        size,
    );
    handle.put(engine);
    status
}

/// Looks keys up at the last sequence, as `ucstore_get_many` does.
pub fn look_up_many<R: Readable>(
    alloc: Global,
    source: &R,
    keys: &[u8],
    key_lengths: &[u64],
    value_lengths: &mut [u64],
    room: &mut [u8],
    size: &mut usize,
) -> i32
    ensures found { FoundMany result (value_seen (R.viewed source.now)) keys.now key_lengths.now
        value_lengths.old value_lengths.new room.old room.new size.new }
    ensures untold { (result ≡ OK)
        ⊎ ((value_lengths.new ≡ value_lengths.old) × (room.new ≡ room.old) × (size.new ≡ size.old)) }
{
    if value_lengths.len() != key_lengths.len() || !add_up(key_lengths, keys.len()) {
        return BAD_KEYS;
    }
    match find(alloc, source, keys, key_lengths) {
        Ok(found) => {
            value_lengths.copy_from_slice(&found.lengths);
            fill(room, &found.bytes);
            *size = found.bytes.len();
            OK
        }
        Err(_) => OUT_OF_MEMORY,
    }
}

/// Whether lengths add up to a number of bytes.
fn add_up(lengths: &[u64], bytes: usize) -> bool
    ensures { IsTrue result ↔ (sum lengths.now ≡ bytes) }
{
    let mut left = bytes as u64;
    for length in lengths {
        let Some(behind) = left.checked_sub(*length) else {
            return false;
        };
        left = behind;
    }
    left == 0
}

/// Reads ahead for lookups of the first keys of some that are concatenated, at most a group.
fn touch_group<R: Readable>(
    alloc: Global,
    source: &R,
    keys: &[u8],
    key_lengths: &[u64],
) -> Result<u8, AllocError> {
    let key_lengths = &key_lengths[..GROUP_KEYS.min(key_lengths.len())];
    let mut group = Vec::with_capacity(alloc, key_lengths.len())?;
    let mut left = keys;
    for length in key_lengths {
        let length = *length as usize;
        let (Some(key), Some(behind)) = (left.get(..length), left.get(length..)) else {
            break;
        };
        group.push(SoughtKey::new(key))?;
        left = behind;
    }
    source.touch(alloc, &group)
}

/// If a group of keys begins after those that are done, reads ahead for its lookups, unless it is one key.
fn read_ahead<R: Readable>(
    alloc: Global,
    source: &R,
    bytes: &mut Vec<u8>,
    left: &[u8],
    key_lengths: &[u64],
    done: usize,
) -> Result<(), AllocError>
    ensures { OnOk result (bytes.new.items ≡ bytes.old.items) }
{
    if done % GROUP_KEYS != 0 {
        return Ok(());
    }
    let lengths_left = key_lengths.get(done..).unwrap_or(&[]);
    if lengths_left.len() > 1 {
        let touched = touch_group(alloc, source, left, lengths_left)?;
        // This uses the result, so that the reads aren't removed.
        bytes.reserve(usize::from(touched))?;
    }
    Ok(())
}

/// Looks up keys of lengths that add up to their bytes.
fn find<R: Readable>(
    alloc: Global,
    source: &R,
    keys: &[u8],
    key_lengths: &[u64],
) -> Result<Found, AllocError>
    requires { sum key_lengths.now ≡ length keys.now }
    ensures lengths { IfOk result (λ found.
        found.lengths.items ≡ map length_told (values_of (value_seen (R.viewed source.now)) key_lengths.now keys.now)) }
    ensures bytes { IfOk result (λ found.
        found.bytes.items ≡ values_bytes (values_of (value_seen (R.viewed source.now)) key_lengths.now keys.now)) }
{
    let mut lengths = Vec::new(alloc);
    let mut bytes = Vec::new(alloc);
    let mut left = keys;
    for length in key_lengths {
        read_ahead(alloc, source, &mut bytes, left, key_lengths, lengths.len())?;
        let (key, behind) = left.split_at(*length as usize);
        push_value(&mut lengths, &mut bytes, &source.get_ref(alloc, key)?)?;
        left = behind;
    }
    Ok(Found { lengths, bytes })
}

/// Adds what is found for a key.
fn push_value(
    lengths: &mut Vec<u64>,
    bytes: &mut Vec<u8>,
    value: &Option<ValueRef<'_>>,
) -> Result<(), AllocError>
    ensures lengths { OnOk result (lengths.new.items ≡ lengths.old.items ++ length_told value.now ∷ []) }
    ensures bytes { OnOk result (bytes.new.items ≡ bytes.old.items ++ value_bytes value.now) }
{
    match value {
        Some(value) => {
            let value = value.as_slice();
            lengths.push(value.len() as u64)?;
            bytes.extend_from_slice(value)
        }
        None => {
            lengths.push(NO_VALUE)?;
            Ok(())
        }
    }
}
