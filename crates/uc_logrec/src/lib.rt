//! The records of a write-ahead log, read and written: LevelDB's `log_format.md`.
//!
//! A log is a sequence of blocks of 32,768 bytes. A record has a header of seven bytes (a masked CRC-32C, a length, a
//! type) and its data. A payload that does not fit its block is cut into a FIRST, MIDDLEs and a LAST. [`LogReader`]
//! returns the payloads of a log one at a time and how it ends; [`read_log`] returns all of them at once; [`LogWriter`]
//! writes a log.
//!
//! A program that keeps a log in a file walks through it by [`next_payload`], which takes and returns offsets. It cuts
//! the file at the last offset, and appends the [`payload_bytes`] of each payload more. `specs/Walk.antt` defines such a
//! walk. By the laws [`walk_begins_log`], [`log_goes_on`] and [`walk_goes_on`] the file is then read as the payloads of
//! the walk and the new ones. By [`walk_is_kept`] an append that is cut off leaves the payloads before it.
//!
//! Read `kind.rt` and `log_record.rt` first: what a record is. `step.rt` has the payload that is not complete yet;
//! `log_reader.rt` and `log_writer.rt` have the two directions. `specs/Grammar.antt` defines what a log means by the
//! grammar of its records. By the law [`log_is_read_by_grammar`] the reader keeps to it; by [`written_log_is_read`] it
//! reads again what was written.
//!
//! The checksum is [`crc32c`], and [`mask`] the form in which a log stores it. `specs/` defines the checksum: `Bits`
//! (the bits of bytes and numbers), `Division` (long division of polynomials over GF(2)), `Crc` (a message's remainder,
//! inverted at both ends) and `Mask` (the masked form). None of it mentions the code's tables. Read `checksum.rt`
//! first, then `register.rt`, which takes eight bytes at a time from the tables of `table.rt`. [`division`] is the law
//! that the division of `specs/` is division. The checksum never allocates or fails.
//!
//! An `Err(AllocError)` comes only if an allocation fails.
//!
//! Tests: `bindings/c/test.c`, `faults/damage.rs`, `crates/ucstore/cases/run`.
#![tactic(auto)]

mod checksum;
mod crc_laws;
mod ending;
mod fault;
mod kind;
mod laws;
mod log_read;
mod log_reader;
mod log_record;
mod log_writer;
mod masking;
mod register;
mod step;
mod table;

pub use checksum::{crc32c, extend};
pub use crc_laws::division;
pub use ending::Ending;
pub use fault::LogFault;
pub use laws::{
    log_goes_on, log_is_read_by_grammar, walk_begins_log, walk_goes_on, walk_is_kept,
    written_log_is_read, written_records_fill_blocks,
};
pub use log_read::{LogRead, Payloads, read_log};
pub use log_reader::{LogReader, Next, next_payload, next_payload_at};
pub use log_writer::{LogWriter, payload_bytes};
pub use masking::{mask, unmask};
