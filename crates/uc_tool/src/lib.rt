//! The program's work over any reader and writer, and what its command line names.
//!
//! `play` opens a store over a script's writes and answers its calls; `ask` answers queries over a log by workers, while compactors
//! compact its store, and later writes of the log are fed to it; `report_log` opens a store from a log, reports its contents, and
//! compacts it; `dump` prints the contents of a log. The output of each is a stated function of the bytes that it reads.
//! `uc_tool_ask` has `ask`, and `uc_tool_io` `dump`; this crate re-exports them with its own two, so that a caller names it alone.
//!
//! `play` reads a script, opens a store from its writes by way of a log, and prints the reply to each of its calls as soon as it is
//! there. What it prints is `play_of`, a function of the bytes that it reads, of the operator and of the options. The law
//! `reads_are_answered_from_plain_writes` says what that means of the calls that read: whatever is claimed, compacted and installed
//! between them, they are answered from the plain writes alone. Read `specs/Play.antt` first, then `script_run.rt` and, for the
//! calls, `replies.rt`; `specs/Reading.antt` and `laws.rt` have the law.
//!
//! `report_log` opens a store from a log, prints a report on it, compacts what universal compaction picks as long as it picks
//! anything, with a line for each compaction, and prints a report on what is then: `report_of`, again a function of bytes, operator
//! and options. The law `compactions_end_where_nothing_is_picked` says why the compactions end: nothing more is picked, or no id is
//! left. Read `specs/Report.antt` first, then `report_run.rt` and, for the loop of compactions, `compaction_steps.rt` with
//! `specs/Compacting.antt`.
//!
//! `through_buffer` runs either, or one of the other two, through a buffer in front of a writer.
//!
//! Openings, errors and the lines of replies and reports are in `uc_tool_opening`. An `Err(AllocError)` or `Memory` comes only if
//! an allocation fails.
//!
//! Tests: `crates/ucstore/cases/run`, `examples/run`.
#![tactic(auto)]

mod buffered;
mod compaction_steps;
mod laws;
mod replies;
mod report_laws;
mod report_run;
mod script_run;

pub use buffered::through_buffer;
pub use laws::{reads_are_answered_from_plain_writes, scripts_name_as_many_claims_as_are_held};
pub use report_laws::compactions_end_where_nothing_is_picked;
pub use report_run::report_log;
pub use script_run::play;
pub use uc_tool_ask::{
    Beside, MOST_COMPACTORS, ask, is_plan, nothing_later_leaves_all_writes,
    queries_are_answered_from_the_log,
};
pub use uc_tool_io::{Done, OperatorName, Refusal, dump};
pub use uc_tool_opening::{Outcome, Reason};
pub use uc_version_state::Options;
