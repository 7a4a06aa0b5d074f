//! [`Gate`]: what a worker calls between drawing a piece and answering it.
use std::marker::Sync;

/// A gate, which each worker calls when it has taken a piece, before the source answers it. A gate may delay a worker as long as it
/// likes, so that tests choose from which state a piece is answered; the guarantees on the answers are the same for every gate.
pub trait Gate: Sync {
    /// Called with the number of a piece, from 0, by the worker that took it.
    fn at(&self, piece: usize);
}

/// The gate that returns at once.
#[derive(Clone, Copy, Drop)]
pub struct Free;

impl Gate for Free {
    fn at(&self, _piece: usize) {}
}
