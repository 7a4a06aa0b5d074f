//! Code that the subcommands share that open a store: opening one from a log, reporting why that fails, and the lines of replies.
//!
//! `open_ops` opens a store from a script's writes, by way of a log of them, and `writes_by_log` makes those that are fed later;
//! `print_fault`, `print_refused_opening` and `print_bad_log` end a run that opened none with the one line that says why. Nothing
//! here claims, compacts or answers: that is left to the subcommands above.
//!
//! Besides that line there may be a [`Reason`]: the fault of the first faulty line, or the option or number that makes the opening
//! fail. `specs/Reasons.antt` says which reason a run has. An [`Outcome`] is how a run ended, with its reason.
//!
//! An `Err(AllocError)` or `Memory` comes only if an allocation fails.
//!
//! [`query_of`] says what a line that reads asks, for scripts and for what stands in front of a log alike.
//!
//! Read `specs/Opening.antt` and `specs/Refusals.antt` first, then `opening.rt` and `refused_runs.rt`. That the log of a script's
//! writes gives them back is proved in `proofs/LogAgain.antt`.
//!
//! A reply is printed as one line or several whole ones, each a stated function of what it prints. Read `uc_tool_io`'s
//! `specs/Line.antt`, then `specs/ReplyLines.antt` and `replies.rt`.
//!
//! Tests: `crates/ucstore/cases/run`.
#![tactic(auto)]

mod answers;
mod asked;
mod laws;
mod opening;
mod opening_fault;
mod outcome;
mod reason;
mod refusals;
mod refused_runs;
mod replies;
mod reports;

pub use answers::push_answer_lines;
pub use asked::{query_of, seq_at};
pub use laws::printed_bytes_are_read;
pub use opening::{open_ops, writes_by_log};
pub use opening_fault::{OpeningFault, fault_of_opening, option_fault};
pub use outcome::Outcome;
pub use reason::{Reason, reason_of_line, reason_of_opening};
pub use refusals::{claim_refusal_line, feed_refusal_line, install_refusal_line};
pub use refused_runs::{opening_refusal_line, print_bad_log, print_fault, print_refused_opening};
pub use replies::{answers_lines, compacted_line, reply_lines};
pub use reports::report_lines;
