//! A hash of a key, by folded products (wyhash, Wang Yi).
ghost use Rattle.std.specs.Prelude.{◌≡◌, ◌≤◌, length};
ghost use Rattle.uc_run.specs.KeyHash as hash;

use crate::prefixes::byte_or_zero;

/// The factor for a word of a key (the first number of `_wyp` in `wyhash.h`).
const WORD_FACTOR: u64 = 0xa076_1d64_78bd_642f;

/// The factor for the product at the end (the second one).
const LAST_FACTOR: u64 = 0xe703_7ed1_a0b4_28db;

/// The size of a word in bytes.
const WORD_BYTES: usize = 8;

/// The halves of a product, combined by exclusive or (`_wymix`).
#[inline]
#[tactic(auto, unfolding(crate::specs::KeyHash::folded_product))]
fn folded_product(number: u64, factor: u64) -> u64
    ensures { result ≡ hash.folded_product number factor }
{
    let product = u128::from(number) * u128::from(factor);
    (product % (1 << 64)) as u64 ^ (product >> 64) as u64
}

/// The first eight bytes as a number, with zeros for those that aren't there.
#[tactic(auto, unfolding(crate::specs::KeyHash::first_word))]
fn padded_word(bytes: &[u8]) -> u64
    ensures { result ≡ hash.first_word bytes.now }
{
    u64::from_le_bytes([
        byte_or_zero(bytes, 0),
        byte_or_zero(bytes, 1),
        byte_or_zero(bytes, 2),
        byte_or_zero(bytes, 3),
        byte_or_zero(bytes, 4),
        byte_or_zero(bytes, 5),
        byte_or_zero(bytes, 6),
        byte_or_zero(bytes, 7),
    ])
}

/// The first eight bytes as a number: read at once if there are eight.
#[inline]
fn first_word(bytes: &[u8]) -> u64
    ensures { result ≡ hash.first_word bytes.now }
{
    match bytes.first_chunk::<WORD_BYTES>() {
        Some(first) => u64::from_le_bytes(*first),
        None => padded_word(bytes),
    }
}

/// The eight bytes from a place on as a number.
#[inline]
#[tactic(auto, unfolding(crate::specs::KeyHash::word_at))]
fn word_at(bytes: &[u8], place: usize) -> u64
    requires { place ≤ length bytes.now }
    ensures { result ≡ hash.word_at bytes.now place }
{
    first_word(&bytes[place..])
}

/// The hash of a key. Each word of eight bytes is folded into it, and at the end the last eight bytes, which may lie over
/// the word before.
#[inline]
pub fn key_hash(key: &[u8]) -> u64
    ensures { result ≡ hash.key_hash key.now }
{
    let mut state = key.len() as u64;
    for word in 0..key.len().saturating_sub(1) / WORD_BYTES {
        state = folded_product(state ^ word_at(key, word * WORD_BYTES), WORD_FACTOR);
    }
    let last = word_at(key, key.len().saturating_sub(WORD_BYTES));
    folded_product(folded_product(state ^ last, WORD_FACTOR), LAST_FACTOR)
}
