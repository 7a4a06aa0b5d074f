//! [`Explanation`]: what is said of the faulty line.

ghost use Rattle.std.specs.Prelude.{Some};
ghost use Rattle.uc_script.specs.Explanations.{explanation_text};

use crate::fault::LineFault;
use crate::word::Word;
use std::fmt;

/// The explanation of a faulty line. It prints as one line, without a line break.
#[derive(Debug, Drop, PartialEq, Eq)]
pub enum Explanation {
    /// A fault of a line that is there.
    Line {
        /// The line's number, from 1.
        number: u64,
        /// The line as it is shown.
        line: String,
        /// The fault.
        fault: LineFault,
    },
    /// A line is missing after the last.
    Missing {
        /// The number that it must have, from 1.
        number: u64,
        /// The word that it must be, and all of it.
        word: Word,
    },
}

impl fmt::Display for Explanation {
    ghost output = { λ explanation. Some (explanation_text explanation) };

    fn fmt<W: fmt::Write>(&self, f: &mut fmt::Formatter<W>) -> fmt::Result {
        match self {
            Explanation::Line {
                number,
                line,
                fault,
            } => {
                let (number, line, fault) = (*number, line.as_str(), *fault);
                write!(f, "line {number}, `{line}`: {fault}")
            }
            Explanation::Missing { number, word } => {
                let (number, word) = (*number, *word);
                write!(f, "line {number} is missing: it has to be `{word}`")
            }
        }
    }
}
