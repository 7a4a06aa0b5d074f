//! Queries, their answers, and reads of a version: lookups of keys and scans of ranges, at a keep (a snapshot's
//! sequence).
//!
//! [`answer_writes`] is the slow reference: it answers from a plain list of writes, by the meaning of `uc_model`. Read
//! `specs/Answers.antt` first, then `query.rt` and `answer.rt`. `specs/Scans.antt` defines a scan without saying how it
//! is found; by `answer_laws.rt` the reference finds that.
//!
//! [`answer_one`] returns the same answer from a version's runs. Read `answering.rt` first, then `lookup.rt`, and for
//! scans `specs/Ahead.antt`, `specs/Walks.antt`, `walkers.rt`, `cursors.rt`, `dead_keys.rt` and `scan.rt`. `behind.rt` reads a
//! version after newer writes. For scans against the order of keys read `specs/Back.antt`, `back_walk.rt`,
//! `dead_below.rt` and `back_scan.rt`. [`touch`] reads ahead for lookups of many keys.
//!
//! An `Err(AllocError)` comes only if an allocation fails.
//!
//! Tests: `tests/base.py`, `tests/owner.py`.
#![tactic(auto)]

mod answer;
mod answer_laws;
mod answering;
mod back_scan;
mod back_walk;
mod behind;
mod cursors;
mod dead_below;
mod dead_keys;
mod laws;
mod lookup;
mod passing;
mod plain;
mod query;
mod scan;
mod touching;
mod walkers;

pub use answer::Answer;
pub use answer_laws::{
    equal_values_give_equal_answers, rows_back_are_rows_reversed, scan_is_answered_by_first_rows,
    scan_keys_are_named, scan_keys_rise, scan_rows_are_determined, scan_rows_are_first,
    unprotected_is_refused,
};
pub use answering::{answer_last, answer_one, get, get_last};
pub use behind::{
    lay_rows_at, lay_rows_back_at, lay_rows_back_behind, lay_rows_behind, rows_at, rows_behind,
    value_behind,
};
pub use laws::{histories_keep_answers, later_events_leave_answers_alone};
pub use plain::answer_writes;
pub use query::Query;
pub use touching::touch;
pub use uc_rows::{Laid, RowBuffer, RowIter, Rows};
