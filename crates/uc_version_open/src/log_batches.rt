//! [`LogBatches`]: the batches of a log in one piece or in several.
ghost use Rattle.std.specs.Prelude.{◌≡◌, IfOk, OnErr};
ghost use Rattle.uc_batch.specs.Log.{log_writes};
ghost use Rattle.uc_batch.specs.Position.{Advances, StaysAt};

use std::alloc::{AllocError, Global};
use std::marker::Model;
use uc_batch::{Advance, BatchReader, BatchWrites, PieceReader, Pieces};

/// A reader of either kind.
#[derive(Drop)]
enum AnyReader<'a> {
    /// Of a log in one piece, which is borrowed.
    Borrowed(BatchReader<'a>),
    /// A log in pieces, which are freed as they are read.
    InPieces(PieceReader),
}

/// The batches of a log, one at a time, whether it is in one piece or in several.
#[derive(Drop)]
pub(crate) struct LogBatches<'a> {
    reader: AnyReader<'a>,
}

impl<'a> Model for LogBatches<'a> {
    ghost use Rattle.uc_batch.specs.Position.{BatchPosition};
    ghost use Rattle.uc_version_open.specs.LogPositions.{position_of};

    ghost Value = { BatchPosition };

    ghost view = { λ b. position_of b.reader };
}

impl<'a> LogBatches<'a> {
    /// At the start of a log in one piece.
    pub(crate) fn borrowed(alloc: Global, log: &'a [u8]) -> LogBatches<'a>
        ensures ahead { result.ahead ≡ log_writes log.now }
        ensures last { result.last ≡ 0 }
    {
        LogBatches {
            reader: AnyReader::Borrowed(BatchReader::new(alloc, log)),
        }
    }

    /// At the start of a log in pieces.
    pub(crate) fn in_pieces(alloc: Global, log: Pieces) -> LogBatches<'a>
        ensures ahead { result.ahead ≡ log_writes log }
        ensures last { result.last ≡ 0 }
    {
        LogBatches {
            reader: AnyReader::InPieces(PieceReader::new(alloc, log)),
        }
    }

    /// Goes to the next batch. After the last one it returns how far the log was read, again at each further call.
    ///
    /// After an `Err` nothing is passed over.
    pub(crate) fn advance(&mut self) -> Result<Advance, AllocError>
        ensures ok { IfOk result (λ advance. Advances advance self.old self.new) }
        ensures err { OnErr result (StaysAt self.old self.new) }
    {
        match &mut self.reader {
            AnyReader::Borrowed(batches) => batches.advance(),
            AnyReader::InPieces(batches) => batches.advance(),
        }
    }

    /// The writes of the current batch: none before the first batch and after the last.
    pub(crate) fn writes(&self) -> BatchWrites<'_>
        ensures { result ≡ self.now.batch }
    {
        match &self.reader {
            AnyReader::Borrowed(batches) => batches.writes(),
            AnyReader::InPieces(batches) => batches.writes(),
        }
    }
}
