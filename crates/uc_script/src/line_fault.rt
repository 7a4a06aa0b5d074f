//! The first fault of a line.

ghost use Rattle.std.specs.Prelude.{◌≡◌, IfOk};
ghost use Rattle.std.specs.Option.{option_copied};
ghost use Rattle.uc_script.specs.Faults as faults;
ghost use Rattle.uc_script.specs.Faults.{fields_after};
ghost use Rattle.uc_script.specs.Words.{kinds};

use crate::fault::LineFault;
use crate::lines::{is_skipped, next_field};
use crate::part::Part;
use crate::word::Word;
use std::alloc::{AllocError, Global};

/// The fault of the fields after a line's word, if anything follows its space.
fn arguments_fault(
    alloc: Global,
    word: Word,
    text: Option<&[u8]>,
) -> Result<Option<LineFault>, AllocError>
    ensures { IfOk result (λ fault. fault ≡ faults.arguments_fault word 2 (kinds word) (fields_after (option_copied text.entry))) }
{
    let mut rest = text;
    for (place, kind) in word.kinds().iter().enumerate() {
        let Some(text) = rest else {
            return Ok(Some(LineFault::TooFew(word)));
        };
        let (field, after) = next_field(text);
        if !kind.reads(alloc, field)? {
            return Ok(Some(LineFault::BadField {
                word,
                field: place + 2,
                kind: *kind,
            }));
        }
        rest = after;
    }
    Ok(rest.map(|_| LineFault::TooMany(word)))
}

/// The fault of a line of a part, or `None` if it is right there. It allocates for the bytes of one key or value
/// at a time.
#[tactic(auto, unfolding(crate::specs::Faults::line_fault))]
pub(crate) fn line_fault(
    alloc: Global,
    part: Part,
    line: &[u8],
) -> Result<Option<LineFault>, AllocError>
    ensures { IfOk result (λ fault. fault ≡ faults.line_fault part line.now) }
{
    if is_skipped(line) {
        return Ok(None);
    }
    let (first, rest) = next_field(line);
    match Word::named(part, first) {
        Some(word) => arguments_fault(alloc, word, rest),
        None if Word::is_word(first) => Ok(Some(LineFault::Misplaced(part))),
        None => Ok(Some(LineFault::UnknownWord(part))),
    }
}
