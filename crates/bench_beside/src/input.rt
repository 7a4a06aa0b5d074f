//! [`Input`]: an encoding of numbers and bytes.

/// The input that remains to be read. A number is decimal digits. A byte string is its length, as a number, and its bytes. Each number and
/// byte string ends with one byte of any value. At the end all numbers are 0 and all byte strings are empty.
#[derive(Clone, Copy, Drop)]
pub(crate) struct Input<'a> {
    rest: &'a [u8],
}

/// Returns the number at the front, and its size in bytes with the final byte.
fn number_in(bytes: &[u8]) -> Option<(u64, usize)> {
    let mut number = 0_u64;
    for (place, byte) in bytes.iter().enumerate() {
        if !byte.is_ascii_digit() {
            return Some((number, place.saturating_add(1)));
        }
        let digit = u64::from(byte.wrapping_sub(b'0'));
        number = number.wrapping_mul(10).wrapping_add(digit);
    }
    None
}

impl<'a> Input<'a> {
    /// Returns an input of these bytes.
    pub(crate) fn new(bytes: &'a [u8]) -> Input<'a> {
        Input { rest: bytes }
    }

    /// Returns true if nothing remains.
    pub(crate) fn is_empty(&self) -> bool {
        self.rest.is_empty()
    }

    /// Reads a number.
    pub(crate) fn number(&mut self) -> u64 {
        let (number, length) = number_in(self.rest).unwrap_or((0, usize::MAX));
        self.rest = self.rest.get(length..).unwrap_or(&[]);
        number
    }

    /// Reads a number as a count or a length.
    pub(crate) fn count(&mut self) -> usize {
        self.number() as usize
    }

    /// Reads a number as a flag.
    pub(crate) fn flag(&mut self) -> bool {
        self.number() != 0
    }

    /// Reads a byte string.
    pub(crate) fn bytes(&mut self) -> &'a [u8] {
        let length = self.count();
        let bytes = self.rest.get(..length).unwrap_or(&[]);
        self.rest = self.rest.get(length.saturating_add(1)..).unwrap_or(&[]);
        bytes
    }
}
