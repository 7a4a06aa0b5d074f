//! [`BatchReader`]: a log's batches, one at a time, borrowed.
ghost use Rattle.std.specs.Prelude.{◌≡◌, ℕ, ◌≢◌, Ok, length, IfOk, OnErr};
ghost use Rattle.uc_batch.specs.declared.ended.Ended.TheVariants as ends;
ghost use Rattle.uc_batch.specs.declared.error.BatchError.TheVariants as faults;
ghost use Rattle.uc_batch.specs.Position.{Advances, StaysAt, Finds, IsJudged, payload_bytes};
ghost use Rattle.uc_batch.specs.Batch.{writes_in};
ghost use Rattle.uc_batch.specs.Log.{log_writes};
ghost use Rattle.uc_batch.specs.Rising.{IsRising};

use crate::batch_writes::{BatchWrites, judge_batch};
use crate::ended::Ended;
use crate::header::Header;
use std::alloc::{AllocError, Global};
use std::marker::Model;
use uc_logrec::{LogReader, Next};

/// The outcome of a step to the next batch.
#[derive(Clone, Copy)]
pub enum Advance {
    /// A batch; [`BatchReader::writes`] returns its writes.
    Batch,
    /// No further batch can be read: how far the log was read.
    Ended(Ended),
}

/// Where a payload's bytes are.
#[derive(Clone, Copy)]
pub(crate) enum Payload<'a> {
    /// In the log.
    Whole(&'a [u8]),
    /// In the reader's buffer.
    Joined,
}

/// A validated batch, or how far the log was read.
#[derive(Clone, Copy)]
pub(crate) enum Found<'a> {
    Batch(Payload<'a>, Header),
    Ended(Ended),
}

/// Iterates over a log's batches, front to back, and returns borrowed writes of one at a time.
///
/// The header, the records and the count of a batch are validated before its first write is returned. Batches end at the first
/// fault of the log or of a batch. It allocates only one buffer, for a payload of several pieces in the log.
///
/// Contracts see the last sequence number used, the current batch, and what is ahead: the writes of the other batches, and how far
/// the log is read.
#[derive(Drop)]
pub struct BatchReader<'a> {
    log: LogReader<'a>,
    joined: Vec<u8>,
    // The current batch.
    payload: Payload<'a>,
    header: Header,
    last: u64,
    ended: Option<Ended>,
}

impl<'a> Model for BatchReader<'a> {
    ghost use Rattle.std.specs.Prelude.{◌+◌, length};
    ghost use Rattle.uc_batch.specs.Batch.{writes_in};
    ghost use Rattle.uc_batch.specs.Position.{BatchPosition, IsJudged, payload_bytes, log_ahead, ahead_unless};

    ghost Value = { BatchPosition };

    ghost view = { λ r. record {
      last = r.last;
      batch = writes_in r.header.sequence (payload_bytes r.payload r.joined.items);
      ahead = ahead_unless r.ended (log_ahead r.last (r.log.payloads_read + 1) r.log.ahead);
      left = length r.log.ahead.payloads;
    } };

    ghost invariant = { λ r. IsJudged r.header (payload_bytes r.payload r.joined.items) };
}

impl<'a> BatchReader<'a> {
    /// A reader at the start of a log. It doesn't allocate.
    pub fn new(alloc: Global, log: &'a [u8]) -> BatchReader<'a>
        ensures ahead { result.ahead ≡ log_writes log.now }
        ensures last { result.last ≡ 0 }
    {
        BatchReader {
            log: LogReader::new(log),
            joined: Vec::new(alloc),
            payload: Payload::Whole(&[]),
            header: Header::EMPTY,
            last: 0,
            ended: None,
        }
    }

    /// Goes to the next batch. After the last one it returns how far the log was read, again at each further call.
    ///
    /// After an `Err` nothing is passed over.
    pub fn advance(&mut self) -> Result<Advance, AllocError>
        ensures ok { IfOk result (λ advance. Advances advance self.old self.new) }
        ensures err { OnErr result (StaysAt self.old self.new) }
    {
        self.payload = Payload::Whole(&[]);
        self.header = Header::EMPTY;
        if let Some(ended) = self.ended {
            return Ok(Advance::Ended(ended));
        }
        match find_batch(&mut self.log, &mut self.joined, self.last)? {
            Found::Batch(payload, header) => {
                self.payload = payload;
                self.header = header;
                self.last = header.last_used(self.last);
                Ok(Advance::Batch)
            }
            Found::Ended(ended) => {
                self.ended = Some(ended);
                Ok(Advance::Ended(ended))
            }
        }
    }

    /// The writes of the current batch: none before the first batch and after the last.
    pub fn writes(&self) -> BatchWrites<'_>
        ensures { result ≡ self.now.batch }
    {
        BatchWrites::judged(self.header, bytes_of(self.payload, &self.joined))
    }

    /// The last sequence used, or 0 if none was.
    pub fn last(&self) -> u64
        ensures { result ≡ self.now.last }
    {
        self.last
    }
}

/// The bytes of a payload; `joined` is the buffer.
fn bytes_of<'a>(payload: Payload<'a>, joined: &'a [u8]) -> &'a [u8]
    ensures { result.now ≡ payload_bytes payload.entry joined.now }
{
    match payload {
        Payload::Whole(bytes) => bytes,
        Payload::Joined => joined,
    }
}

/// Validates the next payload, if there is one.
fn find_batch<'a>(
    log: &mut LogReader<'a>,
    joined: &mut Vec<u8>,
    last: u64,
) -> Result<Found<'a>, AllocError>
    ensures ok { IfOk result (λ found. Finds found joined.new.items last log.old log.new) }
    ensures err { OnErr result (log.new ≡ log.old) }
{
    let payload = match log.next(joined)? {
        Next::Whole(payload) => Payload::Whole(payload),
        Next::Joined => Payload::Joined,
        Next::Ended(ending) => return Ok(Found::Ended(Ended::from(ending))),
    };
    Ok(match judge_batch(bytes_of(payload, joined), last) {
        Ok(header) => Found::Batch(payload, header),
        Err(fault) => Found::Ended(Ended::BatchFault(log.payloads_read(), fault)),
    })
}
