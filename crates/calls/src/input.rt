//! [`Input`]: the encoding of a call, as numbers and bytes.
use std::alloc::{AllocError, Global};

/// The input that remains to be read.
///
/// A number is decimal digits. A byte string is its length, as a number, and its bytes. Each number and byte string ends with one byte of
/// any value.
#[derive(Clone, Copy, Drop)]
pub(crate) struct Input<'a> {
    rest: &'a [u8],
    /// True if a read went past the end.
    is_short: bool,
}

/// Returns the number at the front, and its size in bytes with the final byte.
fn number_in(bytes: &[u8]) -> Option<(u64, usize)> {
    let mut number = 0_u64;
    for (place, byte) in bytes.iter().enumerate() {
        if !byte.is_ascii_digit() {
            return Some((number, place.saturating_add(1)));
        }
        let digit = u64::from(byte.wrapping_sub(b'0'));
        number = number.wrapping_mul(10).wrapping_add(digit);
    }
    None
}

impl<'a> Input<'a> {
    /// Returns an input of these bytes.
    pub(crate) fn new(bytes: &'a [u8]) -> Input<'a> {
        Input {
            rest: bytes,
            is_short: false,
        }
    }

    /// Returns true if nothing remains.
    pub(crate) fn is_empty(&self) -> bool {
        self.rest.is_empty()
    }

    /// Returns true if a read went past the end.
    pub(crate) fn is_short(&self) -> bool {
        self.is_short
    }

    /// Discards the rest, as if a read had gone past the end. The call is malformed then.
    pub(crate) fn spoil(&mut self) {
        self.rest = &[];
        self.is_short = true;
    }

    /// Reads a number, or 0 at the end.
    pub(crate) fn number(&mut self) -> u64 {
        match number_in(self.rest) {
            Some((number, length)) => {
                self.rest = self.rest.get(length..).unwrap_or(&[]);
                number
            }
            None => {
                self.spoil();
                0
            }
        }
    }

    /// Reads a number as an index or a length.
    pub(crate) fn place(&mut self) -> usize {
        self.number() as usize
    }

    /// Reads a number as a flag.
    pub(crate) fn flag(&mut self) -> bool {
        self.number() != 0
    }

    /// Reads a byte string, or an empty one at the end.
    pub(crate) fn bytes(&mut self) -> &'a [u8] {
        let length = self.place();
        match self.rest.get(..length) {
            Some(bytes) => {
                self.rest = self.rest.get(length.saturating_add(1)..).unwrap_or(&[]);
                bytes
            }
            None => {
                self.spoil();
                &[]
            }
        }
    }

    /// Reads a flag, and a byte string if it is set.
    pub(crate) fn some_bytes(&mut self) -> Option<&'a [u8]> {
        if self.flag() {
            Some(self.bytes())
        } else {
            None
        }
    }

    /// Reads the number of numbers, and the numbers.
    pub(crate) fn numbers(&mut self, alloc: Global) -> Result<Vec<u64>, AllocError> {
        let mut numbers = Vec::new(alloc);
        for _ in 0..self.number() {
            if self.is_short {
                break;
            }
            numbers.push(self.number())?;
        }
        Ok(numbers)
    }
}
