//! Byte strings that are combined byte by byte.
ghost use Rattle.std.specs.Prelude.{◌≡◌, ◌++◌, ◌≤◌, ℕ, ◌-◌, length, take, drop, replicate, IfOk};
ghost use Rattle.uc_mixed.specs.Bytewise as bytewise;
ghost use Rattle.uc_mixed.specs.ByteFunctions.{function_of};

use std::alloc::AllocError;

/// A function of two bytes. It is 0 at two zeros.
#[derive(Clone, Copy)]
pub(crate) enum ByteFunction {
    /// The bits of either.
    Or,
    /// The bits of both.
    And,
    /// The bits of one of both.
    Xor,
    /// The greater byte.
    Max,
}

impl ByteFunction {
    /// The value at two bytes.
    fn at(self, older: u8, newer: u8) -> u8
        ensures { result ≡ function_of self older newer }
    {
        match self {
            ByteFunction::Or => older | newer,
            ByteFunction::And => older & newer,
            ByteFunction::Xor => older ^ newer,
            ByteFunction::Max => older.max(newer),
        }
    }
}

/// The byte at a place, or 0 past the end.
fn byte_at(bytes: &[u8], place: usize) -> u8
    ensures { result ≡ bytewise.byte_at bytes.now place }
{
    match bytes.get(place) {
        Some(byte) => *byte,
        None => 0,
    }
}

/// Combines bytes with at most as many others.
fn combine_slice(function: ByteFunction, bytes: &mut [u8], others: &[u8])
    requires { length others.now ≤ length bytes.old }
    ensures { bytes.new ≡ bytewise.bytewise (function_of function) bytes.old others.now }
{
    for (place, byte) in bytes.iter_mut().enumerate() {
        *byte = function.at(*byte, byte_at(others, place));
    }
}

/// At least `len` bytes: zeros follow those that are there.
fn padded(mut bytes: Vec<u8>, len: usize) -> Result<Vec<u8>, AllocError>
    ensures { IfOk result (λ whole. whole.items ≡ bytes.items ++ replicate (len - length bytes.items) 0) }
{
    let len = len.max(bytes.len());
    bytes.resize(len, 0)?;
    Ok(bytes)
}

/// Combines the bytes from `start` on with others, in their memory. The shorter byte string is filled with zeros.
pub(crate) fn combine_bytes(
    function: ByteFunction,
    bytes: Vec<u8>,
    start: usize,
    others: &[u8],
) -> Result<Vec<u8>, AllocError>
    requires { start ≤ length bytes.items }
    ensures { IfOk result (λ both.
        both.items ≡ take start bytes.items ++ bytewise.bytewise (function_of function) (drop start bytes.items) others.now) }
{
    let mut bytes = padded(bytes, start + others.len())?;
    combine_slice(function, &mut bytes[start..], others);
    Ok(bytes)
}
