//! The bits of a filter: where those of a key lie, and whether they are set.
ghost use Rattle.std.specs.Prelude.{◌≡◌, ℕ, List, ◌-◌, ◌<◌, ◌≤◌, ◌↔◌, IsTrue, length};
ghost use Rattle.uc_run.specs.Filters as filters;
ghost use Rattle.uc_run.specs.Filters.{HasBits, Admits};

use crate::hashing::key_hash;
use crate::sought_key::SoughtKey;

/// The number of words in each block: one cache line.
pub(crate) const BLOCK_WORDS: usize = 8;

/// The number of words in half a block.
const HALF_WORDS: usize = 4;

/// Where the bits of a key lie: some in a word of a block's first half, and some in a word of its second half.
#[derive(Clone, Copy)]
struct Probes {
    first: usize,
    first_bits: u64,
    second: usize,
    second_bits: u64,
}

/// A block for a hash, by its upper bits (Lemire, "Fast Random Integer Generation in an Interval").
#[inline]
#[tactic(auto, unfolding(crate::specs::Filters::block_of))]
fn block_of(hash: u64, blocks: usize) -> usize
    ensures block { result ≡ filters.block_of hash blocks }
    ensures within { result ≤ blocks - 1 }
{
    (u128::from(hash) * blocks as u128 >> 64) as usize
}

/// One bit of a word, by the lower six bits of a hash.
#[inline]
fn one_bit(hash: u64) -> u64
    ensures { result ≡ filters.one_bit hash }
{
    1 << (hash % 64)
}

/// Up to three bits of a word, by the lower 18 bits of a hash.
#[inline]
#[tactic(auto, unfolding(crate::specs::Filters::three_bits))]
fn three_bits(hash: u64) -> u64
    ensures { result ≡ filters.three_bits hash }
{
    one_bit(hash) | one_bit(hash >> 6) | one_bit(hash >> 12)
}

/// Where the bits of a key with this hash lie, among this many words.
#[inline]
#[tactic(auto, unfolding(crate::specs::Filters::probes_of))]
fn probes_of(hash: u64, words: usize) -> Probes
    ensures probes { result ≡ filters.probes_of hash words }
    ensures first_within { BLOCK_WORDS ≤ words → result.first < words }
    ensures second_within { BLOCK_WORDS ≤ words → result.second < words }
{
    let block = block_of(hash, words / BLOCK_WORDS) * BLOCK_WORDS;
    Probes {
        first: block + (hash >> 36) as usize % HALF_WORDS,
        first_bits: three_bits(hash),
        second: block + HALF_WORDS + (hash >> 38) as usize % HALF_WORDS,
        second_bits: three_bits(hash >> 18),
    }
}

/// Whether the word at a place has all of these bits.
#[inline]
fn has_bits(words: &[u64], place: usize, bits: u64) -> bool
    ensures { IsTrue result ↔ HasBits words.now place bits }
{
    match words.get(place) {
        Some(word) => *word & bits == bits,
        None => false,
    }
}

/// Sets these bits in the word at a place.
#[inline]
fn set_bits(words: &mut [u64], place: usize, bits: u64)
    requires { place < length words.old }
    ensures set { HasBits words.new place bits }
    ensures kept { (other more : ℕ) → HasBits words.old other more → HasBits words.new other more }
{
    words[place] |= bits;
}

/// Whether the words admit a key.
#[inline]
pub(crate) fn is_admitted(words: &[u64], key: &SoughtKey<'_>) -> bool
    ensures { IsTrue result ↔ Admits words.now key.now }
{
    let probes = probes_of(key.hash(), words.len());
    has_bits(words, probes.first, probes.first_bits)
        && has_bits(words, probes.second, probes.second_bits)
}

/// Reads a word of the block in which the bits of a key lie. The result has no meaning; the caller must use it, so that the
/// read isn't removed.
#[inline]
pub(crate) fn touch_words(words: &[u64], key: &SoughtKey<'_>) -> u8 {
    match words.get(probes_of(key.hash(), words.len()).first) {
        Some(word) => (*word % 256) as u8,
        None => 0,
    }
}

/// Makes the words admit a key.
#[inline]
pub(crate) fn admit(words: &mut [u64], key: &[u8])
    requires { BLOCK_WORDS ≤ length words.old }
    ensures admitted { Admits words.new key.now }
    ensures kept { (other : List ℕ) → Admits words.old other → Admits words.new other }
{
    let probes = probes_of(key_hash(key), words.len());
    set_bits(words, probes.first, probes.first_bits);
    set_bits(words, probes.second, probes.second_bits);
}
