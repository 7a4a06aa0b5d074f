//! [`Head`]: the lines before a log.

ghost use Rattle.std.specs.Prelude.{◌≡◌, ◌≤◌, [], length, IfOk};
ghost use Rattle.uc_script.specs.Head.{head_of};
ghost use Rattle.uc_script.specs.HeadReading.{head_after, seen};
ghost use Rattle.uc_script.specs.Lines.{lines_of};
ghost use Rattle.uc_script.specs.Reading.{Gives};

use crate::error::ScriptError;
use crate::head_line::{HeadLine, read_head_line};
use crate::lines::next_line;
use crate::script::Keeps;
use std::alloc::Global;
use uc_bytes::Items;

/// The lines before a log, without their queries: a [`QueryReader`](crate::QueryReader) over its bytes returns those.
#[derive(Drop)]
pub struct Head {
    /// The numbers of the `keep` lines in order.
    pub keeps: Keeps,
    /// The size of the head in bytes, its `log` line with its LF too. The log begins at this offset.
    pub size: usize,
}

/// Reads the lines before a log.
///
/// Its lines are `keep S`, where S is a number, `get K S` and `scan LOW HIGH LIMIT S`, in any order, as in a script
/// ([`read_script`](crate::read_script)). Empty lines and lines that begin with `#` are skipped and counted. The first
/// line `log` ends them. What follows its LF is the log: any bytes, which are not looked at.
///
/// An `Err` has the number of the first faulty line, from 1. A `log` without its LF is faulty. If only `log` is
/// missing, the number is one past the last line. It allocates for the keeps, and for one query at a time.
pub fn read_head(alloc: Global, text: &[u8]) -> Result<Head, ScriptError>
    ensures read { Gives (seen text.now) result (head_of text.now) }
    ensures within { IfOk result (λ head. head.size ≤ length text.now) }
{
    read_lines(alloc, text)
}

/// Reads the lines up to the first `log`.
fn read_lines(alloc: Global, text: &[u8]) -> Result<Head, ScriptError>
    ensures read { Gives (λ head. head) result
        (head_after [] 1 (length text.now) (length text.now) (lines_of text.now)) }
    ensures within { IfOk result (λ head. head.size ≤ length text.now) }
{
    let mut keeps = Vec::new(alloc);
    let mut number = 1;
    let mut rest = text;
    while !rest.is_empty() {
        let (line, after) = next_line(rest);
        match read_head_line(alloc, line)? {
            Some(HeadLine::Skipped | HeadLine::Ask(_)) => {}
            Some(HeadLine::Keep(keep)) => keeps.push(keep)?,
            Some(HeadLine::Log) if line.len() < rest.len() => {
                return Ok(Head {
                    keeps: Items::from(keeps),
                    size: text.len() - after.len(),
                });
            }
            Some(HeadLine::Log) | None => return Err(ScriptError::Fault(number)),
        }
        number += 1;
        rest = after;
    }
    Err(ScriptError::Fault(number))
}
