//! [`Writer`], [`NextLog`] and [`Checkpointer`]: the phases of a machine.

/// Phase of the writer. Those up to [`Writer::Settling`] belong to an opening.
#[derive(Debug, Clone, Copy, PartialEq, Eq)]
pub enum Writer {
    /// Creates the first log.
    Making,
    /// Syncs the name of the first log.
    Founding,
    /// Syncs the names that the opening read. Holds the greatest number of a log, and true if the current log is sealed. A sealed log isn't
    /// copied.
    Naming(u64, bool),
    /// Removes a log without batches. Holds its number, the number of the last log to remove, and true if the current log is sealed.
    Clearing(u64, u64, bool),
    /// Copies the bytes after the current log's last batch to another file.
    SettingAside,
    /// Copies the current log's batches to a new file.
    Copying,
    /// Syncs the new file.
    SealingCopy,
    /// Renames the new file to the current log.
    Replacing,
    /// Syncs the name of the current log.
    Settling,
    /// Waits for a request.
    Ready,
    /// Appends a batch.
    Appending,
    /// Cuts off the remains of a failed append. The batch isn't in the log then.
    Mending,
    /// Syncs the log, up to a number of records.
    Syncing(u64),
    /// Appends a batch during a sync, which covers a number of records.
    Both(u64),
    /// Waits for such a sync after the append failed. Its remains are cut off when the sync ends.
    Spoiled(u64),
    /// Syncs the log, which takes no more records. The next log becomes the current one.
    Closing,
    /// Does nothing any more, because the log's contents are unknown. The directory must be opened again.
    Failed,
}

/// State of the log after the current one. Batches are appended to the current log meanwhile.
#[derive(Debug, Clone, Copy, PartialEq, Eq)]
pub enum NextLog {
    /// It doesn't exist.
    Absent,
    /// It is being created.
    Creating,
    /// Its name is being synced.
    Recording,
    /// It exists and can become the current log.
    Waiting,
}

/// Phase of the checkpointer.
#[derive(Debug, Clone, Copy, PartialEq, Eq)]
pub enum Checkpointer {
    /// Waits for a request.
    Idle,
    /// Writes the rows of a base under a temporary name. Holds the base's number, and the number of batches of that log that it contains.
    Writing(u64, u64),
    /// Syncs the base's file.
    Sealing(u64, u64),
    /// Renames the base.
    Renaming(u64, u64),
    /// Syncs the base's name.
    Fixing(u64, u64),
    /// Removes the log with a number, which the newest base contains.
    RemovingLog(u64),
    /// Removes the bases with a number, which are older than the newest.
    RemovingBase(u64),
}
