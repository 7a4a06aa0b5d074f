//! The bytes of a row.
ghost use Rattle.std.specs.Prelude.{◌≡◌, ◌++◌, OnOk, OnErr};
ghost use mathlib.Core.List.{IsPrefix};
ghost use Rattle.uc_rows.specs.RowBytes as spelling;
ghost use Rattle.uc_rows.specs.RowBytes.{Fits, text_bytes, row_bytes};

use std::alloc::AllocError;

/// Size in bytes of an encoded length.
const LENGTH: usize = 8;

/// Appends the length of `text`, as 8 bytes with the low byte first, and its bytes. An `Err` may leave some of these appended.
#[inline]
pub fn push_text(bytes: &mut Vec<u8>, text: &[u8]) -> Result<(), AllocError>
    ensures pushed { OnOk result (bytes.new.items ≡ bytes.old.items ++ text_bytes text.now) }
    ensures begins { IsPrefix bytes.old.items bytes.new.items }
{
    bytes.extend_from_slice(&(text.len() as u64).to_le_bytes())?;
    bytes.extend_from_slice(text)?;
    Ok(())
}

/// Pushes a key and a value. An `Err` may leave some of their bytes pushed.
fn push_texts(bytes: &mut Vec<u8>, key: &[u8], value: &[u8]) -> Result<(), AllocError>
    ensures pushed { OnOk result (bytes.new.items ≡ bytes.old.items ++ row_bytes (key.now, value.now)) }
    ensures fits { OnOk result (Fits (key.now, value.now)) }
    ensures begins { IsPrefix bytes.old.items bytes.new.items }
{
    push_text(bytes, key)?;
    push_text(bytes, value)?;
    Ok(())
}

/// Pushes the bytes of a row. An `Err` pushes nothing.
pub(crate) fn push_row(bytes: &mut Vec<u8>, key: &[u8], value: &[u8]) -> Result<(), AllocError>
    ensures pushed { OnOk result (bytes.new.items ≡ bytes.old.items ++ row_bytes (key.now, value.now)) }
    ensures fits { OnOk result (Fits (key.now, value.now)) }
    ensures as_it_was { OnErr result (bytes.new.items ≡ bytes.old.items) }
{
    let before = bytes.len();
    if let Err(error) = push_texts(bytes, key, value) {
        bytes.truncate(before);
        return Err(error);
    }
    Ok(())
}

/// The byte string at the front, and the bytes after it.
#[inline]
fn read_text(bytes: &[u8]) -> (&[u8], &[u8])
    ensures text { result.0.now ≡ (spelling.text_from bytes.now).0 }
    ensures rest { result.1.now ≡ (spelling.text_from bytes.now).1 }
{
    let Some((length, rest)) = bytes.split_first_chunk::<LENGTH>() else {
        return (&[], &[]);
    };
    let length = u64::from_le_bytes(*length) as usize;
    rest.split_at(length.min(rest.len()))
}

/// The key and the value of the row at the front, and the bytes after it.
#[inline]
#[tactic(auto, unfolding(crate::specs::RowBytes::row_from))]
pub(crate) fn read_row(bytes: &[u8]) -> ((&[u8], &[u8]), &[u8])
    ensures key { result.0.0.now ≡ (spelling.row_from bytes.now).0.0 }
    ensures value { result.0.1.now ≡ (spelling.row_from bytes.now).0.1 }
    ensures rest { result.1.now ≡ (spelling.row_from bytes.now).1 }
{
    let (key, rest) = read_text(bytes);
    let (value, rest) = read_text(rest);
    ((key, value), rest)
}
