//! From the number of the faulty line to what is said of it.

ghost use Rattle.std.specs.Prelude.{◌≡◌, ◌-◌, take, drop, [], length, nat_eq, codes, ◌∷◌, IfOk};
ghost use Rattle.std.specs.List.{list_any, ends_with};
ghost use Rattle.std.specs.Option.{option_map};
ghost use Rattle.uc_script.specs.Leaving.{leaves};
ghost use Rattle.uc_script.specs.Lines.{lines_of};
ghost use Rattle.uc_script.specs.Explanations as explanations;
ghost use Rattle.uc_script.specs.Explanations.{explanation_text, explanation_of, says_open};

use crate::explanation::Explanation;
use crate::fault::LineFault;
use crate::line_fault::line_fault;
use crate::lines::{next_field, next_line};
use crate::part::{Part, Source};
use crate::shown_line::shortened;
use crate::word::Word;
use std::alloc::{AllocError, Global};

/// The bytes after `count` lines, and whether one of those is `open`.
fn skip_lines(text: &[u8], count: u64) -> (&[u8], bool)
    ensures rest { lines_of result.0.now ≡ drop count (lines_of text.now) }
    ensures opened { result.1 ≡ list_any says_open (take count (lines_of text.now)) }
{
    let mut rest = text;
    let mut is_opened = false;
    for _ in 0..count {
        if rest.is_empty() {
            return (rest, is_opened);
        }
        let (line, after) = next_line(rest);
        is_opened = is_opened || line == b"open".as_slice();
        rest = after;
    }
    (rest, is_opened)
}

/// Whether a line writes, by its first word.
fn begins_write(line: &[u8]) -> bool
    ensures { result ≡ explanations.begins_write line.now }
{
    let (word, _) = next_field(line);
    word == b"put".as_slice()
        || word == b"delete".as_slice()
        || word == b"merge".as_slice()
        || word == b"range".as_slice()
}

/// Whether a line takes the writes before it.
fn takes_writes(line: &[u8]) -> bool
    ensures { result ≡ explanations.takes_writes line.now }
{
    line == b"open".as_slice() || line == b"feed".as_slice()
}

/// Whether a script has writes at its end that no later line feeds.
fn leaves_writes(text: &[u8]) -> bool
    ensures { result ≡ leaves explanations.begins_write explanations.takes_writes (lines_of text.now) }
{
    let mut rest = text;
    let mut is_left = false;
    while !rest.is_empty() {
        let (line, after) = next_line(rest);
        is_left = begins_write(line) || is_left && !takes_writes(line);
        rest = after;
    }
    is_left
}

/// The explanation if `text` has no line of this number: nothing after an `open` if no write is left to feed.
fn missing(part: Part, number: u64, text: &[u8]) -> Option<Explanation>
    ensures { option_map explanation_text result ≡ explanations.missing part number
        (leaves explanations.begins_write explanations.takes_writes (lines_of text.now)) }
{
    let word = match part {
        Part::Setup => Word::Open,
        Part::Calls if leaves_writes(text) => Word::Feed,
        Part::Calls => return None,
        Part::Head => Word::Log,
    };
    Some(Explanation::Missing { number, word })
}

/// Whether a line that these others follow is the end of a head except for its line feed.
#[tactic(auto, using(crate::proofs::Passing::same_emptiness))]
fn lacks_its_end(part: Part, line: &[u8], others: &[u8], is_ended: bool) -> bool
    ensures { result ≡ explanations.lacks_its_end part line.now (lines_of others.now) is_ended }
{
    part == Part::Head && line == b"log".as_slice() && others.is_empty() && !is_ended
}

/// The fault of a line before these others, whether `text` ends with LF or not.
fn fault_before(
    alloc: Global,
    part: Part,
    line: &[u8],
    others: &[u8],
    is_ended: bool,
) -> Result<Option<LineFault>, AllocError>
    ensures { IfOk result (λ fault.
        fault ≡ explanations.fault_before part line.now (lines_of others.now) is_ended) }
{
    if lacks_its_end(part, line, others, is_ended) {
        return Ok(Some(LineFault::NoLineFeed));
    }
    line_fault(alloc, part, line)
}

/// Explains the line of this number, counted from 1, in bytes of this kind: what it contains, what is wrong with it and what is
/// allowed there, or that it is missing. It is `None` if nothing is wrong with that line, which never holds for a number from
/// [`read_script`](crate::read_script) or [`read_head`](crate::read_head).
///
/// It reads the lines up to that one once, and all lines a second time if it is missing.
#[tactic(auto, unfolding(crate::specs::Explanations::explanation_of))]
pub fn explain(
    alloc: Global,
    source: Source,
    text: &[u8],
    number: u64,
) -> Result<Option<Explanation>, AllocError>
    ensures { IfOk result (λ found. option_map explanation_text found ≡ explanation_of source text.now number) }
{
    let (rest, is_opened) = skip_lines(text, number.saturating_sub(1));
    let part = Part::of(source, is_opened);
    if rest.is_empty() {
        return Ok(missing(part, number, text));
    }
    let (line, others) = next_line(rest);
    let is_ended = text.ends_with(b"\n");
    let Some(fault) = fault_before(alloc, part, line, others, is_ended)? else {
        return Ok(None);
    };
    let line = shortened(alloc, line)?;
    Ok(Some(Explanation::Line {
        number,
        line,
        fault,
    }))
}
