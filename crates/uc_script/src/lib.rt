//! Scripts: parsing a script's bytes, the head before a log, the numbers and bytes that the program prints, and explanations of
//! faulty lines.
//!
//! A script is lines of fields. The lines before its one `open` are writes and snapshots, and those after it are calls. Writes may
//! follow there too: a `feed` after them writes them. Either each line is right, or the script has a fault at one, or its last
//! writes lack their `feed`; nothing else about a script can be wrong. Scripts are bytes and not UTF-8: a comment may hold any byte
//! but LF.
//!
//! A head may come before a log: snapshots and queries, as in a script, and a line `log`. The bytes after it are the log.
//!
//! Read `script_text.rt` first: it goes from bytes to a [`Script`], or to its [`Preamble`]; then `call_reader.rt` returns its calls
//! one at a time. `head.rt` goes from bytes to a [`Head`], and `query_reader.rt` returns its queries, a few at a time. `lines.rt`
//! cuts the bytes into lines, and `field.rt` reads a field. `setup_line.rt` and `call_line.rt` read a line of either part of a
//! script, and `change_line.rt` has what these share; `gathering.rt` hands the writes after `open` to their `feed`. `head_line.rt`
//! reads a line of a head, and `query_line.rt` has what it shares with `call_line.rt`. `digits.rt` prints bytes and numbers.
//! `laws.rt` says what the definitions in `specs/` mean.
//!
//! Reading returns only the number of the first faulty line. [`explain`] reads that line again, and returns an [`Explanation`] for
//! people, which prints as one line: what it contains, what is wrong with it and what is allowed there. Read `specs/Faults.antt`,
//! then `faulty_line.rt`. `word.rt` has the words that lines begin with and what follows each, `field_kind.rt` what a field may be,
//! and `fault.rt` the kinds of faults. `line_fault.rt` finds the first fault of a line, and `shown_line.rt` writes a line with only
//! printable characters. `fault_laws.rt` says that an explanation is one line.
//!
//! An `Err(AllocError)`, or a variant `Memory`, comes only if an allocation fails.
//!
//! Tests: `crates/ucstore/cases/lines/run`.
#![tactic(auto)]

mod call;
mod call_line;
mod call_reader;
mod change_line;
mod error;
mod explanation;
mod fault;
mod fault_laws;
mod faulty_line;
pub mod field;
mod field_kind;
mod gathering;
mod head;
mod head_line;
mod laws;
mod line_fault;
mod lines;
mod part;
mod query;
mod query_line;
mod query_reader;
mod script;
mod script_text;
mod seq;
mod setup_line;
mod shown_line;
mod word;

pub use call::{Call, NAMES};
pub use call_reader::CallReader;
pub use error::ScriptError;
pub use explanation::Explanation;
pub use fault::LineFault;
pub use fault_laws::{a_shortened_line_is_short, an_explanation_is_one_line};
pub use faulty_line::explain;
pub use field_kind::FieldKind;
pub use head::{Head, read_head};
pub use laws::{
    a_head_is_its_lines, a_script_is_its_lines, a_script_names_no_more_than_it_has,
    digits_are_read, names_are_in_range, printed_numbers_are_read,
    what_follows_a_head_changes_nothing,
};
pub use lines::{is_skipped, next_field, next_line};
pub use part::{Part, Source};
pub use query::Query;
pub use query_reader::QueryReader;
pub use script::{Calls, Keeps, Ops, Preamble, Script};
pub use script_text::{judge_script, read_script};
pub use seq::Seq;
pub use shown_line::{MOST_SHOWN, shortened};
pub use word::Word;
