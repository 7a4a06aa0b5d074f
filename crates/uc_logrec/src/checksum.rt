//! The checksum of bytes, at once or piece by piece.
ghost use Rattle.std.specs.Prelude.{◌≡◌, ℕ, List, ◌++◌};
ghost use Rattle.uc_logrec.specs.Crc.{crc_of, extended};

use crate::register::{shift_in_bytes, shift_in_words};

/// The CRC-32C of `bytes` (RFC 3720, section 12.1, with examples in appendix B.4): polynomial
/// 0x1edc6f41, the lowest bit of each byte first, inverted at the start and at the end. The checksum
/// of no bytes is 0.
pub fn crc32c(bytes: &[u8]) -> u32
    ensures { result ≡ crc_of bytes.now }
{
    extend(0, bytes)
}

/// The CRC-32C of a message, whose front has the checksum `crc`, and whose other bytes are `bytes`. So a message can be
/// summed piece by piece (LevelDB's `crc32c::Extend`). The first piece extends the checksum 0.
pub fn extend(crc: u32, bytes: &[u8]) -> u32
    ensures continues { (front : List ℕ) → crc ≡ crc_of front
        → result ≡ crc_of (front ++ bytes.now) }
    // The result for each `crc`, even if no front with that checksum is known.
    ensures exact { result ≡ extended crc bytes.now }
{
    let (words, rest) = bytes.as_chunks::<8>();
    !shift_in_bytes(shift_in_words(!crc, words), rest)
}
