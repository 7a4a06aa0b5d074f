//! [`Phase`]: the state of a checkpoint that writes runs.

/// The phase of the checkpointer.
#[derive(Debug, Clone, Copy, PartialEq, Eq)]
pub enum Phase {
    /// No checkpoint is under way. The folder's machine may still remove logs and older lists.
    Between,
    /// A run is written. The numbers are the list's, of the batches that it has of the log of that number, of the run, and of the last
    /// run that is written for the list.
    WritingRun(u64, u64, u64, u64),
    /// That run is synced.
    SyncingRun(u64, u64, u64, u64),
    /// The names of all runs are synced.
    NamingRuns(u64, u64),
    /// The folder's machine writes the list, syncs it and gives it its name.
    Listing,
    /// The list is read back, with its runs.
    ReadingBack,
}
