//! [`Busy`]: the slot that was found taken.
use thiserror::Error;

/// The first slot asked for that was found taken.
#[derive(Clone, Copy, Debug, PartialEq, Eq, Error)]
#[error("slot {0} is taken")]
pub struct Busy(pub usize);
