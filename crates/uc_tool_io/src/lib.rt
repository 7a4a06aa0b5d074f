//! Code that the subcommands of the program share below the store: words, input, output, the lines of logs, and how a run ends.
//!
//! A subcommand reads all of its input, up to a limit, prints replies one after the other, and ends in a [`Done`], whose number is
//! the exit status. What it may have written by then is `HasWritten`, a relation between its `Output`, which is a function of the
//! bytes that it read, and what the writer holds. Read `specs/Output.antt` first, then `input.rt` and `output.rt`, which are the
//! two ends, and `ending.rt`. [`run_over_input`] is a whole run, from the first byte read to the flush, over any work: each
//! subcommand is this function over its own work. Read `specs/Works.antt`, then `whole_run.rt`. A work takes its input as
//! [`Gathered`]: all bytes in one piece, or pieces that are freed as they are read. The lemmas in `proofs/` are for the loops of
//! the subcommands: `Printing.antt` if each turn prints one reply, `Parts.antt` if it prints several, and `Written.antt` at the end
//! of a run.
//!
//! An `Err(AllocError)` or `Memory` comes only if an allocation fails.
//!
//! [`OperatorName`] is a merge operator by its word: the parser of the command line and the program both use it, so each word that
//! the parser accepts names an operator. [`Refusal`] says why the command line can't be read, and how the program ends then. Read
//! `operator_name.rt`, then `refusal.rt`.
//!
//! Each line that is printed is a stated function of what it prints, ends with LF, and has bytes in hexadecimal and numbers in
//! decimal. `line.rt` makes lines of words, numbers and byte strings. `logs.rt` has the line of each write of a log, and the one
//! that says how far the log was read. Read `specs/Line.antt`, then `specs/LogLines.antt`.
//!
//! [`dump`] prints a line for each write before a log's first fault, and one that says whether the log ended there, was torn, or is
//! faulty: `dump_of`, a function of the bytes that it reads. Read `specs/Dump.antt`, then `dump_run.rt`. Its loop goes over a
//! reader that is seen by what is ahead: the record that holds of it is `DumpsOn` in `proofs/Dumps.antt`.
//!
//! It depends only on the formats, not on the store, so code that prints logs can be proved without the store.
//!
//! Tests: `crates/ucstore/cases/run`, `crates/ucstore/cases/lines/run`.
#![tactic(auto)]

mod digits;
mod done;
mod dump_run;
mod ending;
mod gathered;
mod input;
mod line;
mod logs;
mod operator_name;
mod output;
mod refusal;
mod refused_run;
mod run_error;
mod whole_run;

pub use digits::{push_hex, push_number};
pub use done::Done;
pub use dump_run::dump;
pub use ending::{finish, finish_without_input};
pub use gathered::Gathered;
pub use input::{INPUT_LIMIT, InputError, read_input};
pub use line::{
    fields_line, numbered_line, push_counted, push_fields_line, push_numbered_line, push_text_line,
};
pub use logs::{ended_line, push_write};
pub use operator_name::{OPERATORS, OperatorName};
pub use output::write_bytes;
pub use refusal::Refusal;
pub use refused_run::print_refusal;
pub use run_error::RunError;
pub use whole_run::run_over_input;
