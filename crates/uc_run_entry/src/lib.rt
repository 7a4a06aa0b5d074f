//! The parts of a run, and its meaning.
//!
//! A run has points in order of key, the newest of a key first. It has fragments: pieces of the key space with the range deletions
//! over them. And it has a range of sequences. [`is_run`] says which of these make a run. Read `specs/Run.antt` first, then
//! `specs/PlainList.antt`: a run stands for a plain list of writes.
//!
//! Range deletions may overlap. A lookup needs all those over a key at once, so [`cut_ranges`] cuts them at all their ends into
//! [`Fragments`], each with the sequences of the ranges over it (RocksDB's fragmented range tombstones). `specs/Cutting.antt`
//! defines them, and `fragment_laws.rt` has their laws. Read `cutting.rt` first.
//!
//! A range deletion is in all fragments between its ends, so n overlapping ranges give up to n^2 sequences. A [`Span`] says in
//! which fragments a sequence is. [`Spans`] holds spans and answers as the lists would, in the time and memory of n log n. [`Seqs`]
//! are the sequences of one fragment, which fall: one, a list or a share of such spans. `specs/Spans.antt` defines the lists; read
//! `spans.rt` first.
//!
//! Lists that many fragments have are in one vector, [`Lists`], that they share: cut points, and sequences where a fragment has
//! few.
//!
//! An `Err(AllocError)` comes only if an allocation fails.
//!
//! Tests: `tests/runs.py`, `tests/drawn.py`.
#![tactic(auto)]

mod ahead;
mod alike;
mod checking;
mod cutting;
mod entry;
mod falling;
mod few;
mod few_spans;
mod fragment;
mod fragment_laws;
mod fragments;
mod freeing;
mod laws;
mod lists;
mod newest;
mod node;
mod range;
mod seqs;
mod share;
mod span;
mod spanning;
mod spans;
mod tree;
mod walks;
mod what_ref;
mod within;

pub use ahead::SeqsAhead;
pub use checking::{covering_fragment, is_run};
pub use cutting::cut_ranges;
pub use entry::{Entry, What};
pub use fragment::Fragment;
pub use fragment_laws::{fragments_are_in_order, fragments_cover_what_ranges_cover};
pub use fragments::Fragments;
pub use freeing::make_small;
pub use laws::{
    plain_list_does_what_is_found, plain_list_is_in_order, stripes_of_plain_list_do_what_is_found,
};
pub use lists::Lists;
pub use newest::newer;
pub use range::Range;
pub use seqs::Seqs;
pub use span::Span;
pub use spans::Spans;
pub use what_ref::WhatRef;
pub use within::are_within;
