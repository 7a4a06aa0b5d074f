//! A live store whose merge operator is a value, for callers that can name no type: exports to C, and what is built on
//! them.
//!
//! An [`Engine`] is a [`LiveStore`](uc_live::LiveStore) of one of the operators, and which that is. Each method does
//! what the store's method of the same name does (`each_operator.rt`). It starts no thread. An
//! [`EngineView`] is a [`View`](uc_live::View) in the same way, an [`EngineJob`] a [`Job`](uc_live::Job), and an
//! [`EngineCheckpoint`] a [`Checkpoint`](uc_checkpoint::Checkpoint). A [`TakenJob`] is an [`EngineJob`] or a [`FlushJob`].
//!
//! Read `specs/Engines.antt` first, then `operator_kind.rt`, `engine.rt`, `opening.rt`, `writing.rt`, `reading.rt`, `touching.rt`,
//! `snapshots.rt`, `compacting.rt`, `engine_job.rt`, `engine_flush.rt`, `taken_job.rt`, `engine_view.rt`, `runs.rt`, `transactions.rt`
//! and `engine_checkpoint.rt`.
//!
//! An `Err(AllocError)`, or a variant `Memory`, comes only if an allocation fails.
//!
//! Tests: `bindings/rust/ucstore/tests/stories.rs`.
#![tactic(auto)]

mod compacting;
mod each_operator;
mod engine;
mod engine_checkpoint;
mod engine_flush;
mod engine_job;
mod engine_view;
mod opening;
mod operator_kind;
mod reading;
mod report;
mod runs;
mod snapshots;
mod store_job;
mod taken_job;
mod touching;
mod transactions;
mod writing;

pub use engine::Engine;
pub use engine_checkpoint::EngineCheckpoint;
pub use engine_job::EngineJob;
pub use engine_view::EngineView;
pub use opening::OpenedEngine;
pub use operator_kind::OperatorKind;
pub use report::EngineReport;
pub use store_job::StoreJob;
pub use taken_job::TakenJob;
pub use uc_batch::{BatchError, Ended};
pub use uc_bytes::{Bytes, OpRef};
pub use uc_checkpoint::{
    CheckpointError, pieces_are_read_back, pieces_have_a_most, rows_are_at_most_the_writes,
};
pub use uc_live::{
    AddRunError, FeedError, FlushEnd, FlushJob, GREATEST_STOP, InstallError, JobEnd, JobStage,
    LiveOpenError, LiveOptions, LookupSource, Options, Read, ReadSet, ReleaseError, RoomError,
    StoreId, TransactionError, WriteError, batches_are_walked, commits_go_on, flushes_go_in,
    jobs_go_in, limits_have_their_numbers, recorded_batch_is_recovered,
    sources_tell_what_values_come_of, spent_flushes_stay_spent, unchanged_transactions_may_commit,
};
pub use uc_oper::ValueRef;
pub use uc_query_read::{Answer, Laid, Query, RowBuffer, Rows};
