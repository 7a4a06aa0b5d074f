//! [`PayloadReader`]: the payloads of a log in pieces, one at a time.
ghost use Rattle.std.specs.Prelude.{◌≡◌, ◌≤◌, ◌<◌, ◌+◌, ◌^◌, length, IfOk, OnErr};
ghost use Rattle.uc_logrec.specs.Log.{reading_of};
ghost use Rattle.uc_batch.specs.Unread.{bytes_ahead};
ghost use Rattle.uc_batch.specs.PiecePosition.{ReadsFrom, Comes};

use crate::payload::{Payload, Read, read_in, read_over};
use crate::pieces::Pieces;
use crate::unread::Unread;
use std::alloc::{AllocError, Global};
use std::marker::Model;
use uc_logrec::Ending;

/// The next item of a log.
#[derive(Clone, Copy)]
pub(crate) enum Next {
    /// A payload.
    Payload(Payload),
    /// After the last payload, how the log ends.
    Ended(Ending),
}

/// Returns the payloads of a log in pieces one at a time, as `LogReader` of uc_logrec does of a log in one piece.
///
/// Contracts see its position in the log, and the current piece.
#[derive(Drop)]
pub(crate) struct PayloadReader {
    alloc: Global,
    // The bytes from the end of the last payload on, which is at this place of the log.
    unread: Unread,
    place: usize,
    payloads_read: u64,
}

impl Model for PayloadReader {
    ghost use Rattle.std.specs.Prelude.{◌<◌, ◌≤◌, ◌+◌, ◌^◌, length};
    ghost use Rattle.uc_logrec.specs.Position.{ahead_at};
    ghost use Rattle.uc_batch.specs.Unread.{bytes_ahead};
    ghost use Rattle.uc_batch.specs.PiecePosition.{PiecePosition};

    ghost Value = { PiecePosition };

    ghost view = { λ r. record {
      log = record { payloads_read = r.payloads_read; ahead = ahead_at r.place (bytes_ahead r.unread) };
      piece = r.unread.piece.items;
    } };

    ghost invariant = { λ r. (r.unread.at ≤ length r.unread.piece.items) × (r.payloads_read ≤ r.place)
        × (r.place + length (bytes_ahead r.unread) < 2 ^ 63) };
}

impl PayloadReader {
    /// A reader at the start of a log.
    pub(crate) fn new(alloc: Global, log: Pieces) -> PayloadReader
        ensures { result.log ≡ record { payloads_read = 0; ahead = reading_of log } }
    {
        PayloadReader {
            alloc,
            unread: Unread::new(alloc, log),
            place: 0,
            payloads_read: 0,
        }
    }

    /// The number of payloads returned before.
    pub(crate) fn payloads_read(&self) -> u64
        ensures { result ≡ self.now.log.payloads_read }
    {
        self.payloads_read
    }

    /// The current piece, in which the last payload lies unless it was joined.
    pub(crate) fn piece(&self) -> &[u8]
        ensures { result.now ≡ self.now.piece }
    {
        &self.unread.piece
    }

    /// The next payload or, after the last one, the ending, again at each further call.
    ///
    /// The buffer is for a payload of several records. After an `Err` nothing is passed over.
    pub(crate) fn next(&mut self, joined: &mut Vec<u8>) -> Result<Next, AllocError>
        ensures ok { IfOk result (λ next. Comes next joined.new.items self.old self.new) }
        ensures err { OnErr result (self.new.log ≡ self.old.log) }
    {
        match read_from(self.alloc, &mut self.unread, self.place, joined)? {
            Read::Payload(payload, size) => {
                self.place += size;
                self.payloads_read += 1;
                Ok(Next::Payload(payload))
            }
            Read::Ended(ending) => Ok(Next::Ended(ending)),
        }
    }
}

/// Reads at a place of the log, and passes over a payload. An ending of a piece is the log's if no piece is after it.
fn read_from(
    alloc: Global,
    unread: &mut Unread,
    place: usize,
    joined: &mut Vec<u8>,
) -> Result<Read, AllocError>
    requires within { unread.old.at ≤ length unread.old.piece.items }
    requires fits { place + length (bytes_ahead unread.old) < 2 ^ 63 }
    ensures within { unread.new.at ≤ length unread.new.piece.items }
    ensures ok { IfOk result (λ read. ReadsFrom read joined.new.items place unread.old unread.new) }
    ensures err { OnErr result (bytes_ahead unread.new ≡ bytes_ahead unread.old) }
{
    loop {
        match read_in(&unread.piece, unread.at, place, joined)? {
            Read::Payload(payload, size) => {
                unread.at += size;
                return Ok(Read::Payload(payload, size));
            }
            Read::Ended(ending) => {
                if let Some(size) = read_over(alloc, unread, place, joined)? {
                    unread.skip(size);
                    return Ok(Read::Payload(Payload::Joined, size));
                }
                if !unread.enlarge(alloc)? {
                    return Ok(Read::Ended(ending));
                }
            }
        }
    }
}
