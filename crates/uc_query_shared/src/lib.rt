//! Batches of queries, answered by workers from the current versions of a shared store.
//!
//! A batch is cut into pieces, and each piece is taken by the next free worker. For each piece a worker pins the version that is
//! shown then, so a batch and what happens to the store meanwhile never wait for each other. Each answer is that of all the plain
//! writes that the store was given up to some point of its history, which the worker's reader has seen, at the sequence numbers
//! that were kept then. So while writes are fed and snapshots are taken and released, two answers may be of two points in time.
//! Where a store's keeps stay, there is one answer for good: whichever pieces the workers take and whichever versions they pin, the
//! answers are those of one thread that folds the plain writes that the store was opened with.
//!
//! Read `specs/Given.antt` first, then `answers.rt`. The workers are in `uc_query_workers`; `pinned_piece.rt` has what a reader
//! gives it.
//!
//! An `Err(AllocError)`, or an error `Memory`, comes only if an allocation fails.
//!
//! Tests: `tests/shared.py`, `uc_tests_threads`.
#![tactic(auto)]

mod answers;
mod laws;
mod pinned_piece;

pub use answers::{answer_all, batch_refusal};
pub use laws::pinned_versions_answer_as_given;
pub use uc_query_workers::{AskError, Free, Gate, MOST_WORKERS};
