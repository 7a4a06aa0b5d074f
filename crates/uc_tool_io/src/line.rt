//! Lines of words and numbers.

ghost use Rattle.std.specs.Prelude.{◌≡◌, ◌++◌, map, IfOk, OnOk};
ghost use Rattle.std.specs.Fmt.{decimal};
ghost use Rattle.uc_tool_io.specs.Line as lines;

use crate::digits::{push_hex, push_number};
use std::alloc::{AllocError, Global};

/// Appends words and a number.
pub fn push_counted(out: &mut Vec<u8>, words: &[u8], number: u64) -> Result<(), AllocError>
    ensures { OnOk result (out.new.items ≡ out.old.items ++ words.now ++ decimal number) }
{
    out.extend_from_slice(words)?;
    push_number(out, number)
}

/// Appends a line of words with a number after each.
pub fn push_fields_line(out: &mut Vec<u8>, fields: &[(&[u8], u64)]) -> Result<(), AllocError>
    ensures { OnOk result (out.new.items ≡ out.old.items ++ lines.fields_line (map (λ f. (f.0.now, f.1)) fields.now)) }
{
    for (words, number) in fields {
        push_counted(out, words, *number)?;
    }
    out.push(b'\n')?;
    Ok(())
}

/// A line of words with a number after each.
pub fn fields_line(alloc: Global, fields: &[(&[u8], u64)]) -> Result<Vec<u8>, AllocError>
    ensures { IfOk result (λ line. line.items ≡ lines.fields_line (map (λ f. (f.0.now, f.1)) fields.now)) }
{
    let mut line = Vec::new(alloc);
    push_fields_line(&mut line, fields)?;
    Ok(line)
}

/// Appends a line of words and a number.
pub fn push_numbered_line(out: &mut Vec<u8>, words: &[u8], number: u64) -> Result<(), AllocError>
    ensures { OnOk result (out.new.items ≡ out.old.items ++ lines.numbered_line words.now number) }
{
    out.extend_from_slice(words)?;
    push_number(out, number)?;
    out.push(b'\n')?;
    Ok(())
}

/// A line of words and a number.
pub fn numbered_line(alloc: Global, words: &[u8], number: u64) -> Result<Vec<u8>, AllocError>
    ensures { IfOk result (λ line. line.items ≡ lines.numbered_line words.now number) }
{
    let mut line = Vec::from_slice(alloc, words)?;
    push_number(&mut line, number)?;
    line.push(b'\n')?;
    Ok(line)
}

/// Appends a line of words and a byte string.
pub fn push_text_line(out: &mut Vec<u8>, words: &[u8], text: &[u8]) -> Result<(), AllocError>
    ensures { OnOk result (out.new.items ≡ out.old.items ++ lines.text_line words.now text.now) }
{
    out.extend_from_slice(words)?;
    push_hex(out, text)?;
    out.push(b'\n')?;
    Ok(())
}
