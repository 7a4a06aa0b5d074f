//! Points of a run, encoded in one arena to save memory.
//!
//! [`Points`] is the entries' encodings, one after the other, with the offset of every fourth entry. A contract sees it as the list of
//! the entries. `specs/Spelling.antt` defines the encoding. Read it first, then `points.rt`.
//!
//! A [`PointRef`] is one point, and a [`PointSlice`] consecutive points. Both borrow from the arena and copy no key or value.
//! [`PointsAhead`] walks over points, and decodes each once.
//!
//! [`Points::as_bytes`] returns the arena. [`Points::from_bytes`] makes an arena of bytes that encode points, or returns the offset of
//! the first fault (`specs/Faults.antt`). By `laws.rt`, bytes encode at most one list of entries, and bytes with a fault none.
//!
//! A call without an error type of its own returns `Err(AllocError)` only if allocation fails.
//!
//! Tests: `tests/runs.py`, `tests/drawn.py`.
#![tactic(auto)]

mod judging;
mod laws;
mod number;
mod point_ref;
mod point_slice;
mod point_test;
mod points;
mod points_ahead;
mod points_error;
mod spelling;
mod touching;

pub use laws::{fault_is_no_spelling, numbers_differ, spelling_is_unique};
pub use number::{push_number, read_number, spelled_number};
pub use point_ref::PointRef;
pub use point_slice::PointSlice;
pub use point_test::PointTest;
pub use points::{Points, points_of};
pub use points_ahead::PointsAhead;
pub use points_error::PointsError;
pub use uc_run_entry::make_small;
