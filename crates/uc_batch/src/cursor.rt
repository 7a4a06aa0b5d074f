//! [`Cursor`]: a place in a batch.
ghost use Rattle.std.specs.Prelude.{◌≡◌, ◌<◌, ◌≤◌, ◌-◌, ◌∷◌, ◌↔◌, length, IsTrue};
ghost use Rattle.uc_batch.specs.Reads.{Exactly};
ghost use Rattle.uc_batch.specs.Varint.{varint_from};
ghost use Rattle.uc_batch.specs.Records.{string_at};

use crate::error::BatchError;
use crate::varint::{MORE_BYTES, read_varint};

/// The rest of a batch, which readers shorten from the front: LevelDB's `Slice` with `remove_prefix`.
#[derive(Drop)]
pub(crate) struct Cursor<'a> {
    // The bytes of the whole batch.
    total: usize,
    rest: &'a [u8],
    ghost within: { length rest.now ≤ total },
}

impl<'a> Cursor<'a> {
    /// The last bytes of a batch of `total` bytes.
    pub(crate) fn new(total: usize, rest: &'a [u8]) -> Cursor<'a>
        requires { length rest.now ≤ total }
        ensures total { result.total ≡ total }
        ensures rest { result.rest.now ≡ rest.now }
    {
        Cursor { total, rest }
    }

    /// The number of the batch's bytes before it.
    pub(crate) fn offset(&self) -> u64
        ensures { result ≡ self.now.total - length self.now.rest.now }
    {
        (self.total - self.rest.len()) as u64
    }

    /// Whether nothing is left.
    pub(crate) fn is_empty(&self) -> bool
        ensures { IsTrue result ↔ (length self.now.rest.now ≡ 0) }
    {
        self.rest.is_empty()
    }

    /// Reads a number of 32 bits, of the record whose tag is at `start`.
    pub(crate) fn read_number(&mut self, start: u64) -> Result<u32, BatchError>
        ensures value { Exactly (λ number. (number, self.new.rest.now)) result
            (varint_from 4 start (self.old.total - length self.old.rest.now) self.old.rest.now) }
        ensures total { self.new.total ≡ self.old.total }
        ensures shorter { length self.new.rest.now ≤ length self.old.rest.now }
    {
        let (number, rest) = read_varint(self.rest, MORE_BYTES, start, self.offset())?;
        self.rest = rest;
        Ok(number)
    }

    /// Reads a length and that many bytes, of the record whose tag is at `start`.
    #[tactic(auto, unfolding(crate::specs::Records::string_at))]
    pub(crate) fn read_string(&mut self, start: u64) -> Result<&'a [u8], BatchError>
        ensures value { Exactly (λ text. (text.now, self.new.rest.now)) result
            (string_at self.old.total start self.old.rest.now) }
        ensures total { self.new.total ≡ self.old.total }
        ensures shorter { length self.new.rest.now ≤ length self.old.rest.now }
    {
        let len = self.read_number(start)? as usize;
        let Some((text, rest)) = self.rest.split_at_checked(len) else {
            return Err(BatchError::Cut(start));
        };
        self.rest = rest;
        Ok(text)
    }

    /// Takes the first byte, which is there.
    pub(crate) fn read_byte(&mut self) -> u8
        requires { 0 < length self.old.rest.now }
        ensures first { self.old.rest.now ≡ result ∷ self.new.rest.now }
        ensures total { self.new.total ≡ self.old.total }
    {
        let byte = self.rest[0];
        self.rest = &self.rest[1..];
        byte
    }
}
