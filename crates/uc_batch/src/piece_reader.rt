//! [`PieceReader`]: the batches of a log in pieces, one at a time, borrowed.
ghost use Rattle.std.specs.Prelude.{◌≡◌, IfOk, OnErr};
ghost use Rattle.uc_batch.specs.Position.{Advances, StaysAt};
ghost use Rattle.uc_batch.specs.Log.{log_writes};
ghost use Rattle.uc_batch.specs.PiecePosition.{Finds};

use crate::payload::Payload;
use crate::payload_reader::{Next, PayloadReader};
use crate::pieces::Pieces;
use crate::{Advance, BatchWrites, Ended, Header, judge_batch};
use std::alloc::{AllocError, Global};
use std::marker::Model;

/// A validated batch, or how far the log was read.
#[derive(Clone, Copy)]
pub(crate) enum Found {
    Batch(Payload, Header),
    Ended(Ended),
}

/// Goes through the batches of a log in pieces, front to back, as `BatchReader` of uc_batch goes through a log in one piece.
///
/// It holds the pieces from the current batch on. Contracts see what they see of a `BatchReader`: the last sequence used,
/// the current batch, and what is ahead.
#[derive(Drop)]
pub struct PieceReader {
    log: PayloadReader,
    joined: Vec<u8>,
    // The current batch.
    payload: Payload,
    header: Header,
    last: u64,
    ended: Option<Ended>,
}

impl Model for PieceReader {
    ghost use Rattle.std.specs.Prelude.{◌+◌, length};
    ghost use Rattle.uc_batch.specs.Batch.{writes_in};
    ghost use Rattle.uc_batch.specs.Position.{BatchPosition, IsJudged, log_ahead, ahead_unless};
    ghost use Rattle.uc_batch.specs.PiecePosition.{payload_in, LiesIn};

    ghost Value = { BatchPosition };

    ghost view = { λ r. record {
      last = r.last;
      batch = writes_in r.header.sequence (payload_in r.payload r.log.piece r.joined.items);
      ahead = ahead_unless r.ended (log_ahead r.last (r.log.log.payloads_read + 1) r.log.log.ahead);
      left = length r.log.log.ahead.payloads;
    } };

    ghost invariant = { λ r. IsJudged r.header (payload_in r.payload r.log.piece r.joined.items)
        × LiesIn r.payload r.log.piece };
}

impl PieceReader {
    /// A reader at the start of a log. It doesn't allocate.
    pub fn new(alloc: Global, log: Pieces) -> PieceReader
        ensures ahead { result.ahead ≡ log_writes log }
        ensures last { result.last ≡ 0 }
    {
        PieceReader {
            log: PayloadReader::new(alloc, log),
            joined: Vec::new(alloc),
            payload: Payload::EMPTY,
            header: Header::EMPTY,
            last: 0,
            ended: None,
        }
    }

    /// Advances to the next batch. After the last one it returns how far the log was read, and returns the same at each further
    /// call.
    ///
    /// An `Err` skips nothing. A piece is freed when the reader leaves it.
    pub fn advance(&mut self) -> Result<Advance, AllocError>
        ensures ok { IfOk result (λ advance. Advances advance self.old self.new) }
        ensures err { OnErr result (StaysAt self.old self.new) }
    {
        self.payload = Payload::EMPTY;
        self.header = Header::EMPTY;
        if let Some(ended) = self.ended {
            return Ok(Advance::Ended(ended));
        }
        match find_batch(&mut self.log, &mut self.joined, self.last)? {
            Found::Batch(payload, header) => {
                self.payload = payload;
                self.header = header;
                self.last = header.last_used(self.last);
                Ok(Advance::Batch)
            }
            Found::Ended(ended) => {
                self.ended = Some(ended);
                Ok(Advance::Ended(ended))
            }
        }
    }

    /// The writes of the current batch: none before the first batch and after the last.
    pub fn writes(&self) -> BatchWrites<'_>
        ensures { result ≡ self.now.batch }
    {
        let bytes = self.payload.bytes(self.log.piece(), &self.joined);
        BatchWrites::judged(self.header, bytes)
    }

    /// The last sequence used, or 0 if none was.
    pub fn last(&self) -> u64
        ensures { result ≡ self.now.last }
    {
        self.last
    }
}

/// Validates the next payload, if there is one.
fn find_batch(log: &mut PayloadReader, joined: &mut Vec<u8>, last: u64) -> Result<Found, AllocError>
    ensures ok { IfOk result (λ found. Finds found joined.new.items last log.old log.new) }
    ensures err { OnErr result (log.new.log ≡ log.old.log) }
{
    let payload = match log.next(joined)? {
        Next::Payload(payload) => payload,
        Next::Ended(ending) => return Ok(Found::Ended(Ended::from(ending))),
    };
    Ok(
        match judge_batch(payload.bytes(log.piece(), joined), last) {
            Ok(header) => Found::Batch(payload, header),
            Err(fault) => Found::Ended(Ended::BatchFault(log.payloads_read(), fault)),
        },
    )
}
