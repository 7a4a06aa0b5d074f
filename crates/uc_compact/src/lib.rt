//! Compaction: several runs made into one that reads as they do (RocksDB wiki, "Universal Compaction").
//!
//! A compaction folds what happened to each key between two neighbouring keeps (snapshots' sequences), a *stripe*, and keeps
//! at most one point of it. Read `specs/Stripes.antt` first, then `specs/Inputs.antt` and `specs/Output.antt`, which defines
//! the output for each key and stripe. `specs/Reading.antt` and `laws.rt` say that reads see no difference. `keeping.rt`,
//! `over.rt` and `kept_points.rt` choose the points of one key.
//!
//! [`compact`] goes over its inputs' points key by key. Large inputs are cut at a few keys, and the parts between them are
//! merged side by side, in threads. The [`Merger`] [`Alone`] starts none. Read `compaction.rt` first, then `output.rt`,
//! `parts.rt` and `points.rt`.
//!
//! [`Groups`] merges the inputs' points. It has a cursor in each run, and returns the least key's points next, those of
//! the newest run first, without those that a newer one hides from all reads. Read `specs/Groups.antt` and
//! `specs/Lasting.antt` first.
//!
//! The range deletions over a key are asked of each run by a `Front`, a place among its fragments that moves along with the
//! keys. So are the cut points, one after the other: nothing is stored between two of them (`fronts.rt`, `fragments.rt`).
//!
//! An `Err(AllocError)` comes only if an allocation fails.
//!
//! Tests: `tests/runs.py`, `tests/drawn.py`.
#![tactic(auto)]

mod checking;
mod compacted;
mod compaction;
mod cursor;
mod cuts;
mod falling;
mod folder;
mod folding;
mod fragment_seqs;
mod fragments;
mod front;
mod fronts;
mod groups;
mod inputs;
mod keeping;
mod kept_points;
mod lasting_points;
mod laws;
mod merger;
mod output;
mod over;
mod parts;
mod points;
mod stripe;

pub use checking::{are_of_one_key, keeps_rise, seqs_are_from_one};
pub use compacted::Compacted;
pub use compaction::{compact, compact_by, compact_by_parts};
pub use folder::{Alone, By, Folder, fold_in_threads};
pub use fragment_seqs::kept_seqs;
pub use groups::Groups;
pub use inputs::inputs_stand;
pub use keeping::Keeping;
pub use kept_points::push_kept_points;
pub use laws::{
    compaction_gives_a_run, compaction_keeps_each_stripe, compaction_keeps_one_of_each_stripe,
    compaction_keeps_what_is_read, compaction_of_the_oldest_leaves_values,
    points_are_chosen_key_by_key, runs_compose, sequences_have_one_stripe,
};
pub use merger::Merger;
pub use output::merge_in_threads;
pub use over::Over;
