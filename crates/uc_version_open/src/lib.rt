//! Code by which both stores take writes: they open a version from a log's writes, and feed it others later.
//!
//! The store of one owner (`uc_version`) and the store that threads share (`uc_share`) use this crate.
//!
//! An [`Opener`] takes the writes of a log one after the other, so no list of them is ever held. A full memtable becomes a run when
//! the next write comes. It reports no error before its end, since a fault of the log comes before an error of the opening. Read
//! `specs/Refusal.antt` first, which says when a store isn't opened, then `specs/Progress.antt` and `opener.rt`. A store opens with
//! `opened` of `uc_version_state`.
//!
//! Writes that are fed to a store later fill the same memtables: [`fed_version`], or in two steps [`flush_writes`] and
//! [`version_with_flushed`]. [`version_with_memtable`] takes those of a memtable that is there.
//!
//! [`recover`] reads a write-ahead log once and passes each write, borrowed from the log's bytes, to an opener. [`count_writes`]
//! returns their number. Read `recovery.rt`.
//!
//! [`recover_pieces`] does so over a log in pieces, and frees each once its batches are read. [`recover_first`] takes the first
//! writes alone, and returns those after them.
//!
//! Each takes [`Workers`] first. [`Alone`] flushes a memtable as soon as it is full. [`InThreads`] lets a few wait, and flushes
//! several concurrently while the calling thread continues to read. A store that opens so is the same, whichever flush ends first.
//! Read `workers.rt`, and then `reading.rt`.
//!
//! An `Err(AllocError)`, or a variant `Memory`, comes only if an allocation fails.
//!
//! Tests: `tests/owner.py`, `tests/drawn_stores.py`.
#![tactic(auto)]

mod first_version;
mod flushes;
mod full_memtable;
mod keeps;
mod laws;
mod lent_memtables;
mod log_batches;
mod memtable_feed;
mod memtables;
mod open_error;
mod opener;
mod reading;
mod recovery;
mod work;
mod workers;

pub use first_version::open_version;
pub use flushes::{fed_version, flush_writes, version_with_flushed};
pub use laws::no_refusal_is_leave_to_open;
pub use memtable_feed::version_with_memtable;
pub use open_error::OpenError;
pub use opener::Opener;
pub use recovery::{Counted, Recovered, count_writes, recover, recover_first, recover_pieces};
pub use uc_compact::Alone;
pub use workers::{InThreads, Workers};
