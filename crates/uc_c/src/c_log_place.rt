//! [`CLogPlace`]: a place in a log, as C keeps it.

/// A place in a log, after some of its batches, as C keeps it. A walk over the log begins at zeros.
#[repr(C)]
#[derive(Clone, Copy, Debug, PartialEq, Eq)]
pub struct CLogPlace {
    /// The bytes before it.
    pub offset: u64,
    /// The last sequence before it; 0 if there is none.
    pub last: u64,
    /// The batches before it.
    pub batches: u64,
}
