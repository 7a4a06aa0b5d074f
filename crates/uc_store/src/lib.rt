//! The stores for programs: one crate to name.
//!
//! Begin with a [`LiveStore`]. It has one owner, takes single writes, and flushes and compacts automatically: [`LiveStore::open`]
//! opens it from the bytes of a write-ahead log, [`LiveStore::write`] writes, [`LiveStore::get`] and [`LiveStore::scan`] read,
//! [`LiveStore::snapshot`] takes a snapshot. Other threads read a [`View`] of it, and run its compactions as [`Job`]s. It comes
//! from `uc_live`. A [`Checkpoint`] of a view is its rows as a log that a store opens from.
//!
//! An [`Owned`] store shows its runs, and its owner chooses compactions. [`open_log`] opens one from the bytes of a log, and
//! returns how far the log could be read; [`open_pieces`] frees the log as it reads it. Both take [`Workers`] first: [`Alone`], or
//! [`InThreads`], which is faster. [`get`] looks up a key at a sequence number that a snapshot protects, [`answer_one`] answers any
//! query and [`answer_plain`] a batch of them by many workers. [`feed_batch`] writes, and [`get_last`] and [`answer_last`] read at
//! the last sequence number. [`Owned`] takes snapshots, and picks compactions; [`report`] lists a store's contents.
//!
//! [`open_shared`] opens a [`Store`] that threads share. [`feed_shared_batch`] writes to it, [`Store::keep`] and [`Store::release`]
//! take and release snapshots, and [`Store::turn`] compacts for a [`Compactor`]. A [`Reader`] pins versions without waiting, and
//! [`answer_all`] answers a batch by workers that have a reader each.
//!
//! Begin with `opened_log.rt`, `batches.rt` and `last_reads.rt`, then `opened_shared.rt` and `shared_batches.rt`; all else is
//! re-exported from the crates below.
//!
//! Tests: `uc_examples_library`.
#![tactic(auto)]

mod batches;
mod compactors;
mod feed_batch_error;
mod last_reads;
mod opened_log;
mod opened_shared;
mod shared_batches;

pub use batches::feed_batch;
pub use compactors::next_compactor;
pub use feed_batch_error::FeedBatchError;
pub use last_reads::{answer_last, get_last};
pub use opened_log::{OpenedLog, open_log, open_pieces};
pub use opened_shared::{OpenedShared, open_shared};
pub use shared_batches::feed_shared_batch;
pub use uc_batch::{Ended, Op, Pieces, Writes};
pub use uc_bytes::{Bytes, OpRef, Write};
pub use uc_checkpoint::{Checkpoint, CheckpointError};
pub use uc_live::{
    FlushEnd, FlushJob, Job, JobEnd, JobStage, LiveOpenError, LiveOptions, LiveStore, LookupSource,
    OpenedStore, RoomError, View, WriteError,
};
pub use uc_oper::{Append, Counter, Maximum, Operator, Tail};
pub use uc_query::{Answer, AskError, Query, Report, Rows, answer_one, answer_plain, get, report};
pub use uc_query_shared::{Free, Gate, MOST_WORKERS, answer_all};
pub use uc_share::{
    Compactor, Held, MOST_READERS, MOST_SEATS, Name, Opening, Pin, Reader, Seat, Store, Turn,
};
pub use uc_version::{
    Alone, By, ClaimError, CompactError, FeedError, InThreads, InstallError, Merger, Options,
    Owned, OwnedClaim, Placed, ReleaseError, Stretch, Version, Workers,
};
pub use uc_version_open::OpenError;
