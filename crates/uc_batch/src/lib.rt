//! Write batches, and the plain writes of a log.
//!
//! A batch is the payload of one log record: a sequence number, a count, and that many operations (RocksDB, `write_batch.cc`). Read
//! `error.rt` and `tag.rt` for what a batch may hold, then `records.rt`, `batch_writes.rt` and `writing.rt`. [`WriteBatch`] encodes
//! operations as the bytes of a batch. [`BatchReader`] iterates over the batches of a log and returns borrowed writes.
//!
//! [`Pieces`] holds the bytes of a log as they are read from a file or a pipe, in pieces of 1 MiB. [`PieceReader`] iterates over
//! their batches, with the clauses of [`BatchReader`], and frees each piece as soon as its batches are read. So opening a store
//! doesn't hold the whole log and the whole store in memory. Read `pieces.rt`, then `piece_reader.rt`.
//!
//! An `Err(AllocError)`, or a variant `Memory`, comes only if an allocation fails.
//!
//! Tests: `bindings/c/test.c`, `faults/damage.rs`, `crates/ucstore/cases/run`.
#![tactic(auto)]

mod batch_reader;
mod batch_writes;
mod cursor;
mod ended;
mod error;
mod gathering;
mod header;
mod laws;
mod log;
mod mode;
mod payload;
mod payload_reader;
mod piece_reader;
mod pieces;
mod push_error;
mod read_error;
mod reading;
mod records;
mod tag;
mod unread;
mod varint;
mod writes;
mod writing;

pub use batch_reader::{Advance, BatchReader};
pub use batch_writes::{BatchWrites, judge_batch};
pub use ended::Ended;
pub use error::BatchError;
pub use gathering::WriteBatch;
pub use header::Header;
pub use laws::{
    gathered_batch_is_read, refusal_stands_in_batch, written_batch_is_read,
    written_batch_is_spelled,
};
pub use log::read_writes;
pub use mode::Mode;
pub use piece_reader::PieceReader;
pub use pieces::Pieces;
pub use push_error::PushError;
pub use read_error::ReadError;
pub use reading::read_batch;
pub use uc_bytes::{Op, OpRef, Write};
pub use writes::Writes;
pub use writing::{fits_batch, write_batch};
