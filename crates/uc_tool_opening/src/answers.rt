//! The lines of answers.

ghost use Rattle.std.specs.Prelude.{◌≡◌, ◌++◌, OnOk};
ghost use Rattle.std.specs.List.{flat_map};
ghost use Rattle.uc_tool_opening.specs.AnswerLines as lines;
ghost use Rattle.uc_tool_opening.specs.AnswerLines.{row_line};

use std::alloc::AllocError;
use uc_query_read::{Answer, Rows};
use uc_tool_io::{push_hex, push_numbered_line, push_text_line};

/// Appends a key and its value, as a line.
fn push_row(out: &mut Vec<u8>, key: &[u8], value: &[u8]) -> Result<(), AllocError>
    ensures { OnOk result (out.new.items ≡ out.old.items ++ row_line (key.now, value.now)) }
{
    push_hex(out, key)?;
    out.push(b' ')?;
    push_hex(out, value)?;
    out.push(b'\n')?;
    Ok(())
}

/// Appends how many rows there are, and a line for each.
fn push_rows(out: &mut Vec<u8>, rows: &Rows) -> Result<(), AllocError>
    ensures { OnOk result (out.new.items ≡ out.old.items ++ lines.rows_lines rows.now) }
{
    push_numbered_line(out, b"rows ", rows.len() as u64)?;
    for (key, value) in rows.iter() {
        push_row(out, key, value)?;
    }
    Ok(())
}

/// Appends the lines of an answer. It costs what is appended, and fails only if allocation fails.
pub fn push_answer_lines(out: &mut Vec<u8>, answer: &Answer) -> Result<(), AllocError>
    ensures { OnOk result (out.new.items ≡ out.old.items ++ lines.answer_lines answer.now) }
{
    match answer {
        Answer::Value(None) => out.extend_from_slice(b"none\n"),
        Answer::Value(Some(value)) => push_text_line(out, b"value ", value.as_slice()),
        Answer::Rows(rows) => push_rows(out, rows),
        Answer::NotProtected(at) => push_numbered_line(out, b"not protected ", *at),
    }
}
