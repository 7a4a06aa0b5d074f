//! Runs as the bytes of files.
//!
//! A file has the points of a run as its arena spells them (`uc_run_points`), its fragments (`specs/Spelling.antt`), a CRC-32C for each
//! piece of 64 KiB of these (`specs/Pieces.antt`), and a footer of 64 bytes: lengths, counts, the range of sequences, the version, a
//! checksum of the table and of these, and eight magic bytes (`specs/Footers.antt`). Numbers of a fixed size are stored lowest byte
//! first. The points come first, so a file in memory becomes the arena of a run when its end is cut off. Filter and fences aren't in
//! the file: they are made anew.
//!
//! [`RunBytes`] gives a file's bytes from any offset on, without a copy of the points. [`read_run`] reads a file: it checks the lengths
//! against the file's before anything else, then the checksums, then the contents. `specs/Files.antt` has both contracts: what is read
//! has exactly these bytes, and bytes that are refused are no run's. By the law [`file_is_of_one_run`] each file is of one run. A
//! [`RunFile`] takes a file's bytes piece by piece, straight into what becomes the arena.
//! Read `reading.rt` first, then `splitting.rt`, `judging.rt` and `fragment_reader.rt`.
//!
//! An `Err(AllocError)`, and an error `Memory`, comes only if an allocation fails.
//!
//! Tests: its own.
#![tactic(auto)]

mod footer;
mod fragment_reader;
mod fragment_writer;
mod fragments_error;
mod judging;
mod laws;
mod pieces;
mod reading;
mod run_bytes;
mod run_fault;
mod run_file;
mod sequences;
mod splitting;
mod strings;
#[cfg(test)]
mod tests;
mod words;

pub use fragment_reader::read_fragments;
pub use fragments_error::FragmentsError;
pub use laws::file_is_of_one_run;
pub use reading::read_run;
pub use run_bytes::RunBytes;
pub use run_fault::{RunFault, RunFileError};
pub use run_file::RunFile;
