//! [`RunAction`]: a file operation on runs, or one of the folder's machine.

use uc_folder::Action;

/// A file operation that a [`RunFolder`](crate::RunFolder) asks for.
#[derive(Debug, Clone, Copy, PartialEq, Eq)]
pub enum RunAction {
    /// There is nothing to do.
    Wait,
    /// Writes the run of a number to a new file.
    WriteRun(u64),
    /// Syncs the file of that run.
    SyncRun(u64),
    /// Syncs the folder's names.
    NameRuns,
    /// Carries out an operation of the folder's machine. A base stands there for a list: it is the file that names its runs.
    OfFolder(Action),
    /// Reads the newest list and its runs, and compares their checksums.
    ReadBack,
    /// Removes the run of a number, if it is there.
    RemoveRun(u64),
}
