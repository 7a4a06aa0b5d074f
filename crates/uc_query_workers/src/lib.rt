//! Batches of queries, answered by workers.
//!
//! A batch is cut into pieces, which workers draw as they come free, each once: a slow piece holds up nobody. They get the
//! answers from a [`Source`]: one version, or a shared store, where each worker has a reader as its place. Whatever they draw in
//! whichever order, each query has one answer, and the answers stand in the order of the queries. Each answer is such as the source
//! may give to its query while one of the workers' places goes from what it was before the call to what it is after. Read
//! `specs/Given.antt` and `source.rt` first, then `answered.rt`, which has the machine, and `plain.rt`, which answers by it from
//! one version.
//!
//! A [`PieceCounter`] has one word, the number of draws so far. A thread acts at it through a [`PieceSeat`], a token that knows
//! the numbers that it drew. [`PieceCounter::draw`] takes one `fetch_add`; no call takes a lock or waits for another thread.
//! A rule is proved over every interleaving of any number of seats: the seats' lists together hold the numbers below the word,
//! each once, and the word is at most pieces and workers together, so it never wraps. So once all workers have met the end,
//! the numbers of all pieces stand in the joined seat's list, each once ([`PieceCounter::recall_all_drawn`]). `rule.rt` has the rule
//! and the kinds of step that keep it; read it before `counter.rt`.
//!
//! An `Err(AllocError)`, or a variant `Memory`, comes only if an allocation fails.
//!
//! Tests: `tests/owner.py`, `uc_tests_threads`.
#![tactic(auto)]

mod answered;
mod ask_error;
mod batch;
mod counter;
pub mod draw_laws;
mod drawn;
mod gate;
mod gathered;
mod job;
mod laws;
mod one_version;
mod plain;
mod rule;
mod seat;
mod source;
mod version_answers;
mod worker;
mod workers;

pub use answered::answers_by_workers;
pub use ask_error::{AskError, MOST_WORKERS};
pub use batch::Batch;
pub use counter::PieceCounter;
pub use gate::{Free, Gate};
pub use laws::answers_are_mapped;
pub use plain::{answer_plain, ask_refusal};
pub use seat::PieceSeat;
pub use source::Source;
pub use version_answers::push_answers;
