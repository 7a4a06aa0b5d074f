//! [`Part`]: the part of a script that has a line; [`Source`]: the kind of the input.

ghost use Rattle.std.specs.Prelude.{◌≡◌, Some};
ghost use Rattle.uc_script.specs.Parts as parts;
ghost use Rattle.uc_script.specs.Parts.{first_words};

use std::fmt;

/// The kind of input that has faulty lines.
#[derive(Clone, Copy, Debug, PartialEq, Eq)]
pub enum Source {
    /// A script, as [`read_script`](crate::read_script) reads it.
    Script,
    /// The lines before a log, as [`read_head`](crate::read_head) reads them.
    Head,
}

/// The part of a script or head that has a line. It determines the words with which the line may begin.
#[derive(Clone, Copy, Debug, PartialEq, Eq)]
pub enum Part {
    /// A script before its `open`.
    Setup,
    /// A script after its `open`.
    Calls,
    /// The lines before a log.
    Head,
}

impl Part {
    /// The part of a line, given whether an `open` comes before it.
    pub fn of(source: Source, is_opened: bool) -> Part
        ensures { result ≡ parts.part_of source is_opened }
    {
        match (source, is_opened) {
            (Source::Script, false) => Part::Setup,
            (Source::Script, true) => Part::Calls,
            (Source::Head, _) => Part::Head,
        }
    }
}

/// The words that a line of the part may begin with.
impl fmt::Display for Part {
    ghost output = { λ part. Some (first_words part) };

    fn fmt<W: fmt::Write>(&self, f: &mut fmt::Formatter<W>) -> fmt::Result {
        f.write_str(match self {
            Part::Setup => {
                "before `open` a line begins with put, delete, merge, range, keep or open"
            }
            Part::Calls => {
                "after `open` a line begins with put, delete, merge, range, feed, keep, release, get, scan, claim, install, abandon, compact, pick or report"
            }
            Part::Head => "in front of a log a line begins with keep, get, scan or log",
        })
    }
}
