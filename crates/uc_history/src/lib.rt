//! Which writes a read of a database sees that many threads use: a law alone.
//!
//! The store takes writes by groups, readers are shown what it has, and a write is acknowledged after that. A read takes what is shown, and
//! answers by it (`specs/Histories.antt`). By [`each_read_sees_a_moment`] its answer is then that of the writes that were shown at one moment
//! of its call. These have all that were acknowledged before, so a thread's own, and all that an earlier read has seen.
//!
//! That a view answers as the writes that its store has taken is `uc_live`'s promise. The database's duty is one sentence: it acknowledges a
//! write when it is shown, and a read answers by what was shown since it began.
//!
//! Tests: `bindings/rust/ucstore-db/tests/threads.rs`.
#![tactic(auto)]

mod laws;

pub use laws::{a_read_sees_a_group, each_read_sees_a_moment, no_more_is_shown_than_was_taken};
