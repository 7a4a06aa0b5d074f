//! [`Dice`]: random numbers, keys and writes.
ghost use Rattle.std.specs.Prelude.{◌<◌};

use std::alloc::Global;
use uc_bytes::{OpRef, Write, WriteRef};

/// The keys to choose from.
const KEYS: [&[u8]; 4] = [b"a", b"b", b"bb", b"c"];

/// A linear congruential generator, with the constants of Knuth's MMIX.
#[derive(Clone, Copy, Drop)]
pub struct Dice {
    state: u64,
}

/// Returns a change of a kind: 0 is a put, 1 a delete, 2 and 3 are range deletions, and all others merges.
pub fn change_of<'a>(kind: u64, key: &'a [u8], other: &'a [u8]) -> OpRef<'a> {
    match kind {
        0 => OpRef::put(key, other),
        1 => OpRef::delete(key),
        2 | 3 => OpRef::delete_range(key, other),
        _ => OpRef::merge(key, other),
    }
}

impl Dice {
    /// Returns the generator with a seed.
    pub fn new(seed: u64) -> Dice {
        Dice { state: seed }
    }

    /// Returns a number below `sides`, or 0 if `sides` is 0.
    pub fn roll(&mut self, sides: u64) -> u64
        ensures { 0 < sides → result < sides }
    {
        self.state = self
            .state
            .wrapping_mul(6_364_136_223_846_793_005)
            .wrapping_add(1_442_695_040_888_963_407);
        if sides == 0 {
            return 0;
        }
        (self.state >> 33) % sides
    }

    /// Returns a random key.
    pub fn key(&mut self) -> &'static [u8] {
        KEYS[self.roll(4) as usize]
    }

    /// Returns a random write with a sequence number. Of eight, one is a put, one a delete, two are range deletions, and four merges.
    pub fn write(&mut self, alloc: Global, seq: u64) -> Option<Write> {
        let (kind, key) = (self.roll(8), self.key());
        let letter = [b'a' + self.roll(26) as u8];
        let change = change_of(
            kind,
            key,
            if kind == 2 || kind == 3 {
                self.key()
            } else {
                &letter
            },
        );
        WriteRef::new(seq, change).to_write(alloc).ok()
    }
}
