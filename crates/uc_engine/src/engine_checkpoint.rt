//! [`EngineCheckpoint`]: the rows of a view of an engine as a write-ahead log.
ghost use Rattle.std.specs.Prelude.{◌≡◌, IfErr, IfOk};
ghost use Rattle.uc_checkpoint.specs.Checkpoints.{LaysInto, RefusesPiece};
ghost use Rattle.uc_engine.specs.EngineCheckpoints.{begun};
ghost use Rattle.uc_engine.specs.Engines.{meaning_of};

use crate::each_operator::{map_each, with_each};
use crate::engine_view::{AnyView, EngineView};
use crate::operator_kind::{LastBytes, Texts};
use std::alloc::{AllocError, Global};
use std::marker::Model;
use uc_checkpoint::{Checkpoint, CheckpointError};
use uc_mixed::Mixed;
use uc_oper::{Counter, Maximum};

/// A checkpoint of a store of each operator.
#[derive(Drop)]
pub(crate) enum AnyCheckpoint {
    /// A checkpoint of a store that joins byte strings.
    Append(Checkpoint<Texts>),
    /// A checkpoint of a store that adds numbers.
    Counter(Checkpoint<Counter>),
    /// A checkpoint of a store that keeps the greater byte string.
    Maximum(Checkpoint<Maximum>),
    /// A checkpoint of a store that keeps the last bytes.
    Tail(Checkpoint<LastBytes>),
    /// A checkpoint of a store whose operands name their operators.
    Mixed(Checkpoint<Mixed>),
}

/// A view of an engine whose rows are laid out as a write-ahead log that puts them, piece by piece. A contract sees which
/// operator merges, and how far the view is laid out.
pub struct EngineCheckpoint {
    pub(crate) checkpoint: AnyCheckpoint,
}

impl Model for EngineCheckpoint {
    ghost use Rattle.uc_engine.specs.EngineCheckpoints.{EngineProgress};
    ghost use Rattle.uc_engine.specs.HeldEngineCheckpoints.{engine_progress};

    ghost Value = { EngineProgress };

    ghost view = { engine_progress };
}

// A destructor of its own: where a value is dropped, the proof of a caller has one call, and not one for each field.
impl Drop for EngineCheckpoint {
    fn drop(self) {
        let EngineCheckpoint { checkpoint: _ } = self;
    }
}

impl EngineView {
    /// A checkpoint of the view, of which nothing is laid out yet. The view stays: they share its parts. What no run of the
    /// view has is sorted, once.
    pub fn checkpoint(&self, alloc: Global) -> Result<EngineCheckpoint, AllocError>
        ensures { IfOk result (λ checkpoint. checkpoint ≡ begun self.now) }
    {
        let checkpoint =
            map_each!(AnyView => AnyCheckpoint, &self.view, view => Checkpoint::of(alloc, view.again()?)?);
        Ok(EngineCheckpoint { checkpoint })
    }
}

impl EngineCheckpoint {
    /// The number of rows laid out.
    pub fn rows(&self) -> u64
        ensures { result ≡ self.now.progress.rows }
    {
        with_each!(AnyCheckpoint, &self.checkpoint, checkpoint => checkpoint.rows())
    }

    /// Encodes the next rows into the buffer, as `Checkpoint::next_into` does: the bytes that a log of `log_length` bytes gets for
    /// them. Returns their number, or `None` if no row is left. If they don't fit, nothing changes. An `Err` changes nothing.
    pub fn next_into(
        &mut self,
        alloc: Global,
        log_length: u64,
        most: u64,
        room: &mut [u8],
    ) -> Result<Option<usize>, CheckpointError>
        ensures kind { self.new.kind ≡ self.old.kind }
        ensures ok { IfOk result (λ size.
            LaysInto (meaning_of self.old.kind) log_length most size room.old room.new self.old.progress self.new.progress) }
        ensures err { IfErr result (λ error.
            RefusesPiece (meaning_of self.old.kind) self.old.progress error × (room.new ≡ room.old) × (self.new ≡ self.old)) }
    {
        with_each!(AnyCheckpoint, &mut self.checkpoint, checkpoint => {
            checkpoint.next_into(alloc, log_length, most, room)
        })
    }
}
