//! `ask`: the queries in front of a log, answered by workers while compactors install and a feeder feeds.
//!
//! It reads a head of queries, opens a store that threads share from the log after it, and prints the answers, which workers take
//! from whatever versions are shown, while compactors compact what universal compaction picks and a feeder feeds the log's last
//! writes, which aren't opened. Its output is `ask_of`, a function of the bytes that it reads, of the operator, of the options and
//! of the number of later writes: workers, pieces, compactors and the feeder aren't in it. The law
//! `queries_are_answered_from_the_log` says what that means in the words of plain writes.
//!
//! The input is read in pieces. `parted_input.rt` splits it at the end of its head, and `opened_part.rt` opens the store from the
//! log after that.
//!
//! Read `specs/Ask.antt` first, then `ask_run.rt`, `answers.rt`, `crew.rt` and `feeder.rt`. Tests delay compactors by a
//! [`TurnGate`](uc_share::TurnGate). Recovery, errors and the lines of answers are in `uc_tool_opening`, batches in
//! `uc_query_shared`, and the store with a compactor's turn in `uc_share`.
//!
//! Tests: `crates/ucstore/cases/run`, `uc_tests_tool`.
#![tactic(auto)]

mod answers;
mod ask_run;
mod beside;
mod crew;
mod feeder;
mod laws;
mod opened_part;
mod parted_input;
mod plan;

pub use ask_run::{ask, ask_through};
pub use beside::Beside;
pub use laws::{nothing_later_leaves_all_writes, queries_are_answered_from_the_log};
pub use plan::{MOST_COMPACTORS, is_plan};
pub use uc_share::TurnGate;
