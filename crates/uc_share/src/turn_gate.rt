//! [`TurnGate`]: what a compactor calls between the steps of a turn.
use std::marker::Sync;

/// A gate, which a compactor calls between the steps of a turn. A gate may delay it as long as it likes, so that tests choose what
/// others do in that time. Whatever it does, the turn keeps its contract.
pub trait TurnGate: Sync {
    /// Called if a stretch is picked, before it is claimed.
    fn picked(&self);

    /// Called if the stretch is claimed, before it is compacted.
    fn claimed(&self);
}

/// The gate that returns at once.
#[derive(Clone, Copy, Drop)]
pub struct Ungated;

impl TurnGate for Ungated {
    fn picked(&self) {}

    fn claimed(&self) {}
}
