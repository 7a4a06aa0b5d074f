//! The register of a checksum in progress: the remainder of the bytes so far, 32 bits of which the first is the lowest.
ghost use Rattle.std.specs.Prelude.{◌≡◌, [], ◌∷◌};
ghost use Rattle.std.specs.List.{concat};
ghost use Rattle.uc_logrec.specs.Bits.{lowest_first};
ghost use Rattle.uc_logrec.specs.Crc.{register_after};

use crate::table::remainder_of;

/// The register after words of eight bytes.
pub(crate) fn shift_in_words(mut register: u32, words: &[[u8; 8]]) -> u32
    ensures { lowest_first 32 result
        ≡ register_after (lowest_first 32 register) (concat words.now) }
{
    for word in words {
        register = shift_in_word(register, word);
    }
    register
}

/// The register after bytes.
pub(crate) fn shift_in_bytes(mut register: u32, bytes: &[u8]) -> u32
    ensures { lowest_first 32 result ≡ register_after (lowest_first 32 register) bytes.now }
{
    for byte in bytes {
        register = shift_in_byte(register, *byte);
    }
    register
}

/// The remainder of a sum is the sum of the remainders. So each byte is looked up alone, as if the others were zeros, and the
/// register is added to the first four bytes. Those four come last in the sum, since they alone wait for the word before.
fn shift_in_word(register: u32, word: &[u8; 8]) -> u32
    ensures { lowest_first 32 result ≡ register_after (lowest_first 32 register) word.now }
{
    let bytes = (u64::from_le_bytes(*word) ^ register as u64).to_le_bytes();
    remainder_of(0, bytes[7])
        ^ remainder_of(1, bytes[6])
        ^ remainder_of(2, bytes[5])
        ^ remainder_of(3, bytes[4])
        ^ remainder_of(4, bytes[3])
        ^ remainder_of(5, bytes[2])
        ^ remainder_of(6, bytes[1])
        ^ remainder_of(7, bytes[0])
}

/// The byte pushes out the register's low byte. The remainder of the two together is added to the register's other
/// bytes.
fn shift_in_byte(register: u32, byte: u8) -> u32
    ensures { lowest_first 32 result ≡ register_after (lowest_first 32 register) (byte ∷ []) }
{
    remainder_of(0, (register & 0xff) as u8 ^ byte) ^ (register >> 8)
}
