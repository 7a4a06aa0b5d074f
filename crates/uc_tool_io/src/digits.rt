//! Bytes and numbers as the digits that are printed for them.

ghost use Rattle.std.specs.Prelude.{◌≡◌, ◌++◌, ◌*◌, [], ◌∷◌, length, OnOk, OnErr};
ghost use Rattle.std.specs.Fmt.{decimal};
ghost use Rattle.hex.specs.Hex.{encode_lower};
ghost use Rattle.uc_tool_io.specs.Digits.{hex_text};

use itoa::Buffer;
use std::alloc::AllocError;

/// The two hexadecimal digits of each byte, in the order of the bytes.
///
/// The crate `hex` writes digit by digit. This table writes byte by byte in half the time, which matters when all the bytes of a
/// log are printed.
static PAIRS: [u8; 512] = *b"\
    000102030405060708090a0b0c0d0e0f\
    101112131415161718191a1b1c1d1e1f\
    202122232425262728292a2b2c2d2e2f\
    303132333435363738393a3b3c3d3e3f\
    404142434445464748494a4b4c4d4e4f\
    505152535455565758595a5b5c5d5e5f\
    606162636465666768696a6b6c6d6e6f\
    707172737475767778797a7b7c7d7e7f\
    808182838485868788898a8b8c8d8e8f\
    909192939495969798999a9b9c9d9e9f\
    a0a1a2a3a4a5a6a7a8a9aaabacadaeaf\
    b0b1b2b3b4b5b6b7b8b9babbbcbdbebf\
    c0c1c2c3c4c5c6c7c8c9cacbcccdcecf\
    d0d1d2d3d4d5d6d7d8d9dadbdcdddedf\
    e0e1e2e3e4e5e6e7e8e9eaebecedeeef\
    f0f1f2f3f4f5f6f7f8f9fafbfcfdfeff";

/// Appends bytes: two hexadecimal digits in lower case for each byte, and `.` for no bytes. An `Err` leaves `out` as it
/// was.
pub fn push_hex(out: &mut Vec<u8>, bytes: &[u8]) -> Result<(), AllocError>
    ensures ok { OnOk result (out.new.items ≡ out.old.items ++ hex_text bytes.now) }
    ensures err { OnErr result (out.new.items ≡ out.old.items) }
{
    if bytes.is_empty() {
        out.push(b'.')?;
        return Ok(());
    }
    let start = out.len();
    let Some(end) = (2 * bytes.len()).checked_add(start) else {
        return Err(AllocError);
    };
    out.resize(end, 0)?;
    write_pairs(bytes, &mut out.as_mut_slice()[start..]);
    Ok(())
}

/// The two digits of a byte.
fn pair_of(byte: u8) -> [u8; 2]
    ensures { result ≡ encode_lower (byte ∷ []) }
{
    let place = 2 * byte as usize;
    [PAIRS[place], PAIRS[place + 1]]
}

/// Writes the two digits of each byte.
fn write_pairs(bytes: &[u8], out: &mut [u8])
    requires { length out.old ≡ 2 * length bytes.now }
    ensures { out.new ≡ encode_lower bytes.now }
{
    for place in 0..bytes.len() {
        let pair = pair_of(bytes[place]);
        out[2 * place] = pair[0];
        out[2 * place + 1] = pair[1];
    }
}

/// Appends a number in decimal. An `Err` leaves `out` as it was.
pub fn push_number(out: &mut Vec<u8>, number: u64) -> Result<(), AllocError>
    ensures ok { OnOk result (out.new.items ≡ out.old.items ++ decimal number) }
    ensures err { OnErr result (out.new.items ≡ out.old.items) }
{
    let mut digits = Buffer::new();
    out.extend_from_slice(digits.format(number).as_bytes())
}
