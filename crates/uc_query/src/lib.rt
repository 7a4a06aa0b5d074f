//! Queries of a store, and lists of calls.
//!
//! [`run_calls`] goes through a list of calls to a store in one owner's hands: claims under names, installs, compactions,
//! picks, reports, batches of queries, writes that are fed, and snapshots. Its replies are those of a small machine, a
//! function of what the store holds and of the calls: read `specs/Turns.antt` first, then `specs/Running.antt`,
//! `specs/Answered.antt`, `named_claims.rt` and `calls.rt`. What a query asks and what answers it stand in `uc_query_read` and
//! `uc_query_workers`; their public items are given out here too.
//!
//! A [`report`] says what a version holds, in numbers: a line for each run, and their totals. What is printed of a line is the
//! list [`RunLine::fields`]. Read `specs/Reports.antt` first, then `run_line.rt` and `reports.rt`.
//!
//! An `Err(AllocError)` or `Memory` comes only if an allocation fails.
//!
//! Tests: `tests/owner.py`.
#![tactic(auto)]

mod ask_turn;
mod call;
mod calls;
mod claim_turns;
mod figure;
mod install_turns;
mod laws;
mod live_turns;
mod named_claims;
mod reply;
mod reports;
mod run_line;
mod summary;

pub use call::Call;
pub use calls::run_calls;
pub use figure::{Field, Figure};
pub use laws::{
    asks_are_answered_from_plain_writes, calls_extend_histories, installs_replace_what_was_claimed,
};
pub use named_claims::NamedClaims;
pub use reply::Reply;
pub use reports::report;
pub use run_line::{RunLine, total_fields};
pub use summary::Report;
pub use uc_fold::Totals;
pub use uc_query_read::{
    Answer, Query, Rows, answer_last, answer_one, answer_writes, get, get_last,
};
pub use uc_query_workers::{AskError, MOST_WORKERS, answer_plain};
