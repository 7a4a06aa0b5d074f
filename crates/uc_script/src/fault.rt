//! [`LineFault`]: what is wrong with a line.

ghost use Rattle.std.specs.Prelude.{Some};
ghost use Rattle.uc_script.specs.FaultTexts.{fault_text};

use crate::field_kind::FieldKind;
use crate::part::Part;
use crate::word::Word;
use std::fmt;

/// The fault of a line: the first of these from the left. Fields are counted from 1, the line's first word.
#[derive(Clone, Copy, Debug, PartialEq, Eq)]
pub enum LineFault {
    /// No line of any script begins with its first word.
    UnknownWord(Part),
    /// No line of this part begins with its first word, but one of another does.
    Misplaced(Part),
    /// Fields are missing after the word.
    TooFew(Word),
    /// There are more fields than the word takes.
    TooMany(Word),
    /// A field is of the wrong kind.
    BadField {
        /// The line's first word.
        word: Word,
        /// The number of the field.
        field: usize,
        /// The kind that the field must have.
        kind: FieldKind,
    },
    /// It is the line `log` without its line feed, so no log follows it.
    NoLineFeed,
}

impl fmt::Display for LineFault {
    ghost output = { λ fault. Some (fault_text fault) };

    fn fmt<W: fmt::Write>(&self, f: &mut fmt::Formatter<W>) -> fmt::Result {
        match *self {
            LineFault::UnknownWord(part) => write!(f, "its first word is unknown: {part}"),
            LineFault::Misplaced(part) => write!(f, "its first word has no place here: {part}"),
            LineFault::TooFew(word) => write!(f, "it has too few fields for `{word}`"),
            LineFault::TooMany(word) => write!(f, "it has too many fields for `{word}`"),
            LineFault::BadField { word, field, kind } => {
                write!(f, "field {field} of `{word}` has to be {kind}")
            }
            LineFault::NoLineFeed => {
                write!(f, "its line feed is missing, behind which the log begins")
            }
        }
    }
}
