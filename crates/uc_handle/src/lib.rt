//! Handles for C, each a struct of one address: of an engine, a batch, a view of an engine, a checkpoint of a view, the
//! bytes of a run, the file of a run, a job, or the reads of a transaction.
//!
//! C cannot hold a `Box`. So [`Handle`] is a struct of one address, which C sees, and the box at it, which a contract sees. An
//! export takes a `&mut Handle`, takes the box out of it, calls the engine, and puts the box back. No export has a pointer in its
//! contract, and none has its own proof about memory. [`BatchHandle`], [`ViewHandle`], [`CheckpointHandle`], [`JobHandle`],
//! [`RunHandle`], [`RunFileHandle`] and [`ReadsHandle`] are the same for the others: no type argument crosses to C.
//!
//! Read `handle.rt` first, then `batch_handle.rt`, `view_handle.rt`, `checkpoint_handle.rt`, `run_handle.rt`,
//! `run_file_handle.rt`, `job_handle.rt`, `reads_handle.rt`, and `loose.rt`, a box as its address.
//!
//! Tests: `uc_c`.
#![tactic(auto)]

mod batch_handle;
mod checkpoint_handle;
mod handle;
mod job_handle;
mod loose;
mod reads_handle;
mod run_file_handle;
mod run_handle;
mod view_handle;

pub use batch_handle::BatchHandle;
pub use checkpoint_handle::CheckpointHandle;
pub use handle::Handle;
pub use job_handle::JobHandle;
pub use reads_handle::ReadsHandle;
pub use run_file_handle::RunFileHandle;
pub use run_handle::RunHandle;
pub use view_handle::ViewHandle;
