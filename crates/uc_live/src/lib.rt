//! A store that one owner writes to as to a map: single writes go to a memtable, and it compacts automatically.
//!
//! A [`LiveStore`] has a version, and memtables before its runs. A contract sees a [`Live`](specs/Lives.antt): the version, and the
//! list of the writes in memtables. Read `specs/Lives.antt` first, then `specs/Going.antt`, which defines how a store continues,
//! and `live_store.rt`.
//!
//! A write has two steps. [`LiveStore::prepare`] and [`LiveStore::prepare_batch`] validate it, number it and take all memory that
//! it needs (`preparing.rt`); [`LiveStore::commit`] takes it, and can't fail. Reads only read (`reading.rt`, `last_reads.rt`): the
//! last sequence number needs no snapshot. A full memtable is flushed when the next write comes, and then runs are compacted while
//! any are picked (`flushing.rt`, `compacting.rt`). Snapshots are counted (`snapshots.rt`).
//!
//! A [`View`] has a store's contents at one point in time, which other threads read while the store is written to (`view.rt`,
//! `specs/Views.antt`).
//!
//! A store and its views return which part answers a lookup of a key: the memtables, the filters of the runs, or the runs
//! ([`LookupSource`], `specs/Sources.antt`, `source_laws.rt`).
//!
//! A transaction reads in a view. [`LiveStore::prepare_if`] prepares its batch only if what it read is as it was (`judging.rt`,
//! `specs/Judging.antt`, `transaction_laws.rt`).
//!
//! A program makes it durable by a log in a file: [`LiveStore::prepare_recorded`] returns the bytes that it appends before it
//! commits (`recording.rt`, `recorded_laws.rt`).
//!
//! A [`Job`] is a compaction that any thread runs while the store is used: the store starts it, and takes it back (`jobs.rt`,
//! `specs/LiveJobs.antt`). A [`FlushJob`] is such a flush of the memtables, if the options say that a full memtable waits for one
//! (`flushes.rt`, `specs/LiveFlushes.antt`).
//!
//! A store is opened from the runs of a view, which [`LiveStore::add_run`] adds to it, the oldest first (`adding.rt`,
//! `specs/Adding.antt`). By the laws of `standing_laws.rt` it stands for the same writes (`specs/Standing.antt`).
//!
//! By the laws of `laws.rt` a store answers as one thread that folds all writes it has taken, whatever it flushed and compacted,
//! and so does a view of it.
//!
//! Tests: `bindings/rust/ucstore/tests/stories.rs`.
//!
//! An `Err(AllocError)`, or a variant `Memory`, comes only if an allocation fails.
#![tactic(auto)]

mod add_run_error;
mod adding;
mod compacting;
mod flush_end;
mod flush_job;
mod flush_laws;
mod flushes;
mod flushing;
mod jobs;
mod judging;
mod last_reads;
mod laws;
mod live_options;
mod live_store;
mod lookup_source;
mod open_error;
mod opening;
mod preparing;
mod reading;
mod recorded_laws;
mod recording;
mod room_error;
mod snapshots;
mod source_laws;
mod standing_laws;
mod store_id;
mod transaction_error;
mod transaction_laws;
mod view;
mod waiting;
mod write_error;

pub use add_run_error::AddRunError;
pub use flush_end::FlushEnd;
pub use flush_job::FlushJob;
pub use flush_laws::{
    flushes_bring_no_write, flushes_go_in, jobs_stay_out_beside_flushes, spent_flushes_stay_spent,
};
pub use laws::{
    commits_go_on, created_stores_have_taken_nothing, jobs_go_in, stores_answer_as_their_writes,
    taken_writes_add_up, views_answer_as_their_writes,
};
pub use live_options::{GREATEST_STOP, LiveOptions, MOST_RANGES, limits_have_their_numbers};
pub use live_store::LiveStore;
pub use lookup_source::LookupSource;
pub use open_error::LiveOpenError;
pub use opening::OpenedStore;
pub use recorded_laws::{
    batches_are_walked, later_batches_come_after_less, recorded_batch_is_recovered,
};
pub use room_error::RoomError;
pub use source_laws::sources_tell_what_values_come_of;
pub use standing_laws::{
    newest_run_ends_below_memtables, runs_carry_what_is_read, runs_stand_for_older_writes,
    standing_stores_answer_as_their_writes, standing_stores_go_on, stores_stand_for_their_writes,
};
pub use store_id::StoreId;
pub use transaction_error::TransactionError;
pub use transaction_laws::unchanged_transactions_may_commit;
pub use uc_batch::{BatchError, Ended};
pub use uc_bytes::{Bytes, OpRef};
pub use uc_query_read::{Answer, Rows};
pub use uc_serial::{Read, ReadSet};
pub use uc_version::{
    FeedError, InstallError, Job, JobEnd, JobStage, Options, ReleaseError, Version,
};
pub use view::View;
pub use write_error::WriteError;
