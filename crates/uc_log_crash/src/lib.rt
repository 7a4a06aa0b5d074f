//! Torn logs after a crash, byte by byte: laws alone, over any bytes that a device may show.
//!
//! The first bytes of a log, up to its last sync, are durable. After a crash the device shows these, and after them anything: a
//! part of what was written, pages in any order, zeros or older bytes between them (`specs/Shown.antt`). Each batch of a database's
//! log has a mark, the number of bytes of the log that were durable when the batch was written (`specs/Marks.antt`).
//!
//! By [`synced_batches_are_read`] every batch before the synced offset is found again. By [`batches_that_are_read_were_written`]
//! what is read after these is what was written next, in order and without a gap. By [`crash_is_no_damage`] no mark that is shown
//! says that a missing batch was durable: so a mark that does proves damage, which no crash leaves.
//!
//! `uc_folder` states for records what this crate states for bytes: by [`a_shown_log_is_a_crashed_one`] its crashes leave what
//! these bytes show.
//!
//! The second and the third law have a premise: bytes that nobody wrote at an offset aren't a valid batch there. Checksums and
//! sequence numbers make that so, except by chance, and except for older bytes of the same log at the same offset.
//!
//! Tests: its own.
#![tactic(auto)]

mod laws;
mod mark;
mod search;
mod telling;
#[cfg(test)]
mod tests;

pub use laws::{
    a_shown_log_is_a_crashed_one, batches_that_are_read_were_written, crash_is_no_damage,
    synced_batches_are_read,
};
pub use mark::{mark_bytes, mark_of, with_mark};
pub use search::first_told;
pub use telling::tells;
