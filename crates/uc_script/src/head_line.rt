//! Lines before a log, the `log` line included.

ghost use Rattle.std.specs.Prelude.{◌≡◌, IfOk};
ghost use Rattle.uc_script.specs.Head as heads;

use crate::lines::{Fields, is_skipped, split_line};
use crate::query::Query;
use crate::query_line::{read_get, read_scan};
use crate::setup_line::read_keep;
use std::alloc::{AllocError, Global};

/// The meaning of a line before a log, the `log` line included.
#[derive(Drop)]
pub(crate) enum HeadLine {
    /// Nothing: the line is empty or a comment.
    Skipped,
    /// A sequence to keep.
    Keep(u64),
    /// A query.
    Ask(Query),
    /// The end of the head: the log follows this line's LF.
    Log,
}

/// The meaning of a line, or `None` if it is faulty.
#[tactic(auto, unfolding(crate::specs::Head::head_line, crate::specs::Head::says_log, crate::specs::Head::said_by))]
pub(crate) fn read_head_line(alloc: Global, line: &[u8]) -> Result<Option<HeadLine>, AllocError>
    ensures { IfOk result (λ said. said ≡ heads.head_line line.now) }
{
    if is_skipped(line) {
        return Ok(Some(HeadLine::Skipped));
    }
    if line == b"log".as_slice() {
        return Ok(Some(HeadLine::Log));
    }
    match split_line(line) {
        Fields::Two(word, argument) => Ok(read_keep(word, argument).map(HeadLine::Keep)),
        Fields::Three(word, key, at) => Ok(read_get(alloc, word, key, at)?.map(HeadLine::Ask)),
        Fields::Five(word, low, end, limit, at) => {
            Ok(read_scan(alloc, word, low, end, limit, at)?.map(HeadLine::Ask))
        }
        _ => Ok(None),
    }
}
