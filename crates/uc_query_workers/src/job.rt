//! [`Job`]: what the workers of a batch share.
ghost use Rattle.uc_query_workers.specs.Pieces.{AreNumbers};

use crate::batch::Batch;
use crate::counter::PieceCounter;

/// The parts of a batch that its workers share: its pieces, the counter from which they take these, the gate, the source of
/// answers, and the capacity of each worker's list.
#[derive(Drop)]
pub(crate) struct Job<'a, S, G> {
    pub(crate) batch: &'a Batch<'a>,
    pub(crate) counter: &'a PieceCounter,
    pub(crate) gate: &'a G,
    pub(crate) source: &'a S,
    pub(crate) room: usize,
    ghost numbers: { AreNumbers batch.now counter.now.pieces },
}
