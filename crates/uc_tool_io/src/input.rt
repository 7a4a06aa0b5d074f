//! Reading the whole input, up to its limit.

ghost use Rattle.std.specs.Prelude.{◌≡◌, ◌<◌, ◌≤◌, length, vec_len, Ok, IfOk, OnOk, IfSome, IsErrOf};
ghost use Rattle.std.specs.Io.KnownBytes.{IsAtEnd};
ghost use Rattle.uc_tool_io.specs.Input.{Adds, Exceeds};
ghost use Rattle.uc_tool_io.specs.declared.input.InputError.TheVariants.{Memory};

use crate::gathered::Gathered;
use std::alloc::{AllocError, Global};
use std::io::Read;

/// The most bytes of input that a program reads: 64 MiB.
pub const INPUT_LIMIT: usize = 67_108_864;

/// The most times that a reader is read.
const READS: u64 = 1 << 27;

/// The number of bytes that are asked for at a time.
const CHUNK: usize = 65_536;

/// Why there is no input.
#[derive(Clone, Copy, Debug, PartialEq, Eq)]
pub enum InputError {
    /// The reader failed, or gave so little at a time that its end wasn't reached.
    Fault,
    /// There are more than `INPUT_LIMIT` bytes.
    TooLong,
    /// Memory ran out.
    Memory,
}

impl From<AllocError> for InputError {
    ghost from_gives = { λ _ e. e ≡ Memory };

    fn from(_e: AllocError) -> InputError {
        InputError::Memory
    }
}

/// A buffer of this many bytes.
fn make_chunk(alloc: Global, size: usize) -> Result<Vec<u8>, AllocError>
    ensures { IfOk result (λ chunk. vec_len chunk ≡ size) }
{
    vec![in alloc; 0; size]
}

/// Reads once, and adds what came to the input. How much came is the answer: none at the end.
fn read_more<R: Read, I: Gathered>(
    alloc: Global,
    reader: &mut R,
    chunk: &mut [u8],
    input: &mut I,
) -> Result<usize, InputError>
    requires some { 0 < length chunk.old }
    requires short { length (I.bytes input.old) ≤ INPUT_LIMIT }
    ensures added { IfOk result (λ _.
        Adds (R.remaining reader.old) (R.remaining reader.new) (I.bytes input.old) (I.bytes input.new)) }
    ensures end { result ≡ Ok 0 → IsAtEnd (R.remaining reader.new) }
    ensures short { OnOk result (length (I.bytes input.new) ≤ INPUT_LIMIT) }
    ensures long { IsErrOf result InputError.TooLong →
        Exceeds (R.remaining reader.old) (R.remaining reader.new) (I.bytes input.old) INPUT_LIMIT }
{
    let Ok(count) = reader.read(chunk) else {
        return Err(InputError::Fault);
    };
    if count > INPUT_LIMIT - input.size() {
        return Err(InputError::TooLong);
    }
    input.add(alloc, &chunk[..count])?;
    Ok(count)
}

/// Reads all of the input, before any of it is validated.
pub fn read_input<R: Read, I: Gathered + Drop>(
    alloc: Global,
    reader: &mut R,
) -> Result<I, InputError>
    ensures whole { IfOk result (λ input. IfSome (R.remaining reader.old) (λ bytes. I.bytes input ≡ bytes)) }
    ensures short { IfOk result (λ input. length (I.bytes input) ≤ INPUT_LIMIT) }
    ensures long { IsErrOf result InputError.TooLong →
        IfSome (R.remaining reader.old) (λ bytes. INPUT_LIMIT < length bytes) }
{
    let mut input = I::empty(alloc);
    let mut chunk = make_chunk(alloc, CHUNK)?;
    for _ in 0..READS {
        if read_more(alloc, reader, &mut chunk, &mut input)? == 0 {
            return Ok(input);
        }
    }
    Err(InputError::Fault)
}
