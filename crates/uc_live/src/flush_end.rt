//! [`FlushEnd`]: what came of a flush job.

use uc_version::FeedError;

/// The outcome of a flush job that was ended.
#[derive(Clone, Copy, Debug, PartialEq, Eq)]
pub enum FlushEnd {
    /// Its run was installed, with this id.
    Installed(u64),
    /// It wasn't run. Its writes are still in memtables.
    NotRun,
    /// Its writes were flushed before it came back.
    FlushedBefore,
    /// Its run couldn't be installed: no slot or no id is free, or allocation failed. Its writes are still in memtables.
    Refused(FeedError),
}
