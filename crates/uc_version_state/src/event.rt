//! [`Event`]: what changes a store's version.
use crate::install::Install;
use uc_bytes::{Items, Write};

/// A change of a store's version. A history is a list of events: contracts speak of them, and a store makes none to
/// change itself.
#[derive(Drop)]
pub enum Event {
    /// A compaction's output replaces its inputs.
    Installed(Install),
    /// Writes that were fed become runs before all others.
    Flushed(Items<Write>),
    /// The last sequence becomes a keep.
    Kept,
    /// A keep is one no more.
    Released(u64),
}
