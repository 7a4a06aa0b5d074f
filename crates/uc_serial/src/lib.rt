//! Optimistic transactions: laws alone.
//!
//! A transaction reads at a snapshot, and brings its writes at its end. It may commit if nothing that it read has changed since
//! (`specs/Transactions.antt`), and so if nothing was written above the snapshot to a key that it read: by
//! [`untouched_reads_are_current`]. Then it read what it would read right before its own writes: by [`current_reads_have_one_answer`]. So
//! the transactions that committed are serial, in the order of their commits: by [`committed_transactions_are_serial`].
//!
//! A [`Read`] is a key or a range of a read set (`specs/ReadSets.antt`). It is unchanged if each of its keys has the value that it had: by
//! [`rows_say_values`] a walk over a range tells that. Values are compared, and not sequences. So a write that leaves a key as it was
//! changes nothing, and a compaction that folds writes hides none.
//!
//! Reads are the queries of a store, with the answers that `uc_query_read` defines. So the laws hold whatever is flushed and compacted
//! meanwhile, since the store's answers do.
//!
//! Tests: `tests/serial.py`.
#![tactic(auto)]

mod laws;
mod read;
mod read_laws;
mod read_set;

pub use laws::{
    committed_transactions_are_serial, current_reads_have_one_answer,
    readers_are_serial_at_their_snapshots, untouched_reads_are_current, what_was_read_stays,
    written_ranges_have_written_keys,
};
pub use read::Read;
pub use read_laws::{reads_of_equal_values_are_current, rows_say_values};
pub use read_set::ReadSet;
