//! [`JobStage`]: how far a job is.

/// The stages of a job that was taken out of a store.
#[derive(Clone, Copy, Debug, PartialEq, Eq)]
pub enum JobStage {
    /// It was taken out, and isn't run yet.
    Taken,
    /// It was run.
    Run,
    /// It has ended.
    Ended,
}
