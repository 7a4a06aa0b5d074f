//! [`JobEnd`]: what came of a job.

use uc_version_compact::InstallError;

/// The outcome of a job that was ended.
#[derive(Clone, Copy, Debug, PartialEq, Eq)]
pub enum JobEnd {
    /// Its run was installed, with this id.
    Installed(u64),
    /// It wasn't run.
    NotRun,
    /// Its run couldn't be installed.
    Refused(InstallError),
}
