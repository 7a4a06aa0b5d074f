//! Memtables and runs: where writes are inserted, and the sorted tables that they become.
//!
//! A [`Memtable`] stores the keys and values of its writes one after the other in one arena, and a small slot for each write
//! (`slots.rt`). A contract sees it as the list of the writes that were inserted. [`Memtable::flush`] returns its contents as a
//! [`Run`]. Read `specs/Flush.antt` and `memtable.rt`, then `ranks.rt`, which sorts the points.
//!
//! A [`Run`] is immutable. It keeps its points, packed, in blocks of 16 in order of key, and a Bloom filter of their keys
//! (`filter.rt`). A contract sees it as its contents (`uc_run_entry`'s `specs/Run.antt`); only the contracts of [`Run::blocks`] and
//! [`Run::fence`] speak of blocks. A [`Cursor`] moves forward over a run, a [`BackCursor`] backward, and [`Heads`] has the next
//! keys of several cursors. Read `run.rt`, then `lookup.rt`, `cursor.rt`, `back_cursor.rt` and `heads.rt`. Before lookups of many
//! keys [`Run::touch`] reads ahead (`touching.rt`).
//!
//! This crate re-exports the public items of `uc_run_entry` that runs are made of.
//!
//! An `Err(AllocError)` comes only if an allocation fails.
//!
//! Tests: `tests/runs.py`, `tests/drawn.py`.
#![tactic(auto)]

mod back_cursor;
mod common_front;
mod cursor;
mod entry_ref;
mod fences;
mod filter;
mod filter_bits;
mod flush;
mod hashing;
mod heads;
mod laws;
mod lone;
mod lookup;
mod memtable;
mod near;
mod number_blocks;
mod places;
mod prefixes;
mod ranks;
mod run;
mod run_size;
mod same;
mod size;
mod slot;
mod slot_ref;
mod slot_slice;
mod slot_totals;
mod slots;
mod sought_key;
mod texts;
mod touching;

pub use back_cursor::BackCursor;
pub use cursor::Cursor;
pub use hashing::key_hash;
pub use heads::{Head, Heads, lesser};
pub use laws::{
    flush_keeps_every_effect, flushed_writes_are_a_run, keys_at_places_are_next,
    other_keys_are_kept,
};
pub use memtable::Memtable;
pub use run::Run;
pub use size::op_size;
pub use sought_key::SoughtKey;
pub use texts::{same_text, text_order};
pub use uc_run_entry::{
    Entry, Fragment, Fragments, Range, What, WhatRef, covering_fragment, cut_ranges,
    fragments_are_in_order, fragments_cover_what_ranges_cover, is_run,
    plain_list_does_what_is_found, plain_list_is_in_order, stripes_of_plain_list_do_what_is_found,
};
