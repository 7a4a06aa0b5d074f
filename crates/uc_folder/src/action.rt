//! [`Action`]: a file operation.

/// A file operation that a machine requests.
#[derive(Debug, Clone, Copy, PartialEq, Eq)]
pub enum Action {
    /// No operation.
    Nothing,
    /// Creates the empty log with this number.
    CreateLog(u64),
    /// Appends the submitted batch to the log with this number. The record's mark is the second number: the log's number of durable
    /// records.
    Append(u64, u64),
    /// Syncs the log with this number. Makes at least the given number of records durable: those appended when the sync was requested.
    SyncLog(u64, u64),
    /// Cuts the log with this number off after the given number of records, and syncs it.
    CutLog(u64, u64),
    /// Syncs the directory's names.
    SyncNames,
    /// Copies the bytes after the log's last batch to a file that no opening reads.
    SetAside(u64),
    /// Writes the first batches of a log to a new file with a temporary name. The second number counts the batches.
    CopyLog(u64, u64),
    /// Syncs the file that `CopyLog` wrote.
    SyncCopy,
    /// Renames that file to the log with this number.
    NameCopy(u64),
    /// Writes the rows of a base to a new file with a temporary name. The base contains all logs below the first number, and from the log
    /// with that number the first batches, which the second number counts.
    WriteBase(u64, u64),
    /// Syncs the file that `WriteBase` wrote.
    SyncBase,
    /// Renames that file to the base with these numbers.
    NameBase(u64, u64),
    /// Removes the log with this number, if it exists.
    RemoveLog(u64),
    /// Removes the bases with this number, if any exist.
    RemoveBase(u64),
}
