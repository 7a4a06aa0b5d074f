//! An embedded store for programs in C, and for languages that call C.
//!
//! C holds a store in a [`Handle`](uc_handle::Handle), a struct of one address, and passes its address to each function.
//! `bindings/c/ucstore.h` declares them:
//!
//! ```c struct ucstore store = {0}; struct ucstore_options options; ucstore_options_init(&options); int32_t status =
//! ucstore_create(&store, UCSTORE_COUNTER, &options);
//! ```
//!
//! Each function of a store is a thin export over a method of [`Engine`](uc_engine::Engine): it takes the engine out of the handle,
//! calls it, puts it back, and returns a status. Results are written through pointers only if the status is `OK`; rows of a view are
//! copied to the buffer as they are found.
//!
//! C collects operations in a [`BatchHandle`](uc_handle::BatchHandle), which is held in the same way. So is a view, in a
//! [`ViewHandle`](uc_handle::ViewHandle), a checkpoint, in a [`CheckpointHandle`](uc_handle::CheckpointHandle), and a job, in a
//! [`JobHandle`](uc_handle::JobHandle). Stores and views are read by the same functions, over [`Readable`](readable::Readable).
//!
//! The functions of `logs.rt` need no handle: C keeps a log in its own file, appends the bytes that they encode, and walks over it.
//! `replaying.rt` writes the batches of such a walk to a store. If a walk stops, it stores the reason through a pointer.
//! `log_ends.rt` writes and reads marks, and finds the batch after a fault that tells damage. `logging.rt` prepares and commits what a
//! database logs.
//! `folders.rt` finds the files of a database's directory that opening reads, and determines the next file operation; C holds its
//! state machine in a struct of numbers. `run_folder.rt` does this where checkpoints are lists of run files, and `runs.rt` gives these files'
//! bytes and reads them.
//!
//! Read `status.rt` and `specs/Replies.antt` first, for the results of the functions, then `opening.rt`, `batches.rt`,
//! `writing.rt`, `snapshots.rt`, `readable.rt`, `reading.rt`, `many.rt`, `scanning.rt`, `views.rt`, `view_reading.rt`,
//! `sources.rt`, `reads.rt`, `transactions.rt`, `checkpoints.rt`, `compacting.rt`, `jobs.rt`, `job_laws.rt`, `c_report.rt`, with
//! `specs/LogWalk.antt`, `logs.rt` and `replaying.rt`, `log_ends.rt`, `logging.rt`, `folders.rt`, `run_folder.rt`, `runs.rt` and
//! `operands.rt`.
//!
//! Tests: `bindings/c/worked.c`, `bindings/c/test.c`.
#![tactic(auto)]

mod batches;
mod c_ended;
mod c_log_place;
mod c_options;
mod c_report;
mod checkpoints;
mod compacting;
mod fault_codes;
mod folders;
mod job_laws;
mod jobs;
mod log_ends;
mod log_step;
mod logging;
mod logs;
mod many;
mod opening;
mod operands;
mod readable;
mod reading;
mod reads;
mod replaying;
mod room;
mod run_files;
mod run_folder;
mod runs;
mod scanning;
mod snapshots;
mod sources;
mod status;
mod transactions;
mod version;
mod view_reading;
mod views;
mod writing;
