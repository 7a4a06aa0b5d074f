//! Checkpoints: a store's contents at one point in time, as a write-ahead log that puts its rows.
//!
//! A [`Checkpoint`] encodes the rows of a view, piece by piece. Its pieces, one after the other, are a log: a store that opens from
//! it has the view's rows at their last sequence numbers, numbered from 1, and takes later batches. So a program can truncate its
//! log by a checkpoint. Read `specs/Checkpoints.antt` first, then `checkpoint.rt`.
//!
//! By the laws of `laws.rt` the log is read back as puts of exactly those rows, which are at most as many as the last sequence
//! number.
//!
//! An `Err` of `Memory` comes only if an allocation fails.
//!
//! Tests: `bindings/c/worked.c`, `bindings/c/test.c`.
#![tactic(auto)]

mod checkpoint;
mod checkpoint_error;
mod laws;

pub use checkpoint::{Checkpoint, pieces_have_a_most};
pub use checkpoint_error::CheckpointError;
pub use laws::{pieces_are_read_back, pieces_in_rooms_are_read_back, rows_are_at_most_the_writes};
