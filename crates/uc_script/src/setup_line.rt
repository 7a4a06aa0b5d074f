//! Lines before `open`, that line included.

ghost use Rattle.std.specs.Prelude.{◌≡◌, IfOk};
ghost use Rattle.uc_script.specs.Script as script;

use crate::change_line::{change_with_one, change_with_two};
use crate::field::number;
use crate::lines::{Fields, is_skipped, split_line};
use std::alloc::{AllocError, Global};
use uc_bytes::Op;

/// The meaning of a line before `open`, that line included.
#[derive(Drop)]
pub(crate) enum SetupLine {
    /// Nothing: the line is empty or a comment.
    Skipped,
    /// A change to write.
    Change(Op),
    /// A sequence to keep.
    Keep(u64),
    /// The end of this part of the script.
    Open,
}

/// The meaning of a line, or `None` if it is faulty.
#[tactic(auto, unfolding(crate::specs::Script::setup_line, crate::specs::Script::setup_of))]
pub(crate) fn read_setup_line(alloc: Global, line: &[u8]) -> Result<Option<SetupLine>, AllocError>
    ensures { IfOk result (λ said. said ≡ script.setup_line line.now) }
{
    if is_skipped(line) {
        return Ok(Some(SetupLine::Skipped));
    }
    match split_line(line) {
        Fields::One(word) => Ok((word == b"open".as_slice()).then_some(SetupLine::Open)),
        Fields::Two(word, argument) => with_one(alloc, word, argument),
        Fields::Three(word, first, second) => {
            Ok(change_with_two(alloc, word, first, second)?.map(SetupLine::Change))
        }
        _ => Ok(None),
    }
}

/// `delete K` or `keep S`.
#[tactic(auto, unfolding(crate::specs::Script::with_one))]
fn with_one(alloc: Global, word: &[u8], argument: &[u8]) -> Result<Option<SetupLine>, AllocError>
    ensures { IfOk result (λ said. said ≡ script.with_one word.now argument.now) }
{
    if let Some(op) = change_with_one(alloc, word, argument)? {
        return Ok(Some(SetupLine::Change(op)));
    }
    Ok(read_keep(word, argument).map(SetupLine::Keep))
}

/// `keep S`.
#[tactic(auto, unfolding(crate::specs::Script::keep_of))]
pub(crate) fn read_keep(word: &[u8], argument: &[u8]) -> Option<u64>
    ensures { result ≡ script.keep_of word.now argument.now }
{
    if word == b"keep".as_slice() {
        number(argument)
    } else {
        None
    }
}
