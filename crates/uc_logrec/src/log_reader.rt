//! A log's payloads, one at a time.
ghost use Rattle.std.specs.Prelude.{◌≡◌, ℕ, ◌+◌, ◌-◌, ◌<◌, ◌^◌, List, length, take, drop, IfOk, OnErr};
ghost use Rattle.uc_logrec.specs.Log as definitions;
ghost use Rattle.uc_logrec.specs.Log.{reading_of};
ghost use Rattle.uc_logrec.specs.Position.{Comes, IsLastOf, Leads, LeadsIn};
ghost use Rattle.uc_logrec.specs.Steps.{open_in};

use crate::ending::Ending;
use crate::log_record::{HEADER_SIZE, Stop, read_record, skip_trailer};
use crate::step::{Step, Unfinished, step_at};
use std::alloc::AllocError;
use std::marker::Model;

/// The next item of a log.
#[derive(Clone, Copy)]
pub enum Next<'a> {
    /// A payload that the log has in one piece.
    Whole(&'a [u8]),
    /// A payload of several pieces, which the buffer has now, joined.
    Joined,
    /// After the last payload, how the log ends.
    Ended(Ending),
}

/// Returns a log's complete payloads one at a time, front to back.
///
/// Contracts see how many it has returned, and what is ahead of it: the payloads to come and the ending.
#[derive(Drop)]
pub struct LogReader<'a> {
    // The end of the last payload, and the bytes from there.
    place: usize,
    left: &'a [u8],
    payloads_read: u64,
}

impl<'a> Model for LogReader<'a> {
    ghost use Rattle.std.specs.Prelude.{◌<◌, ◌≤◌, ◌+◌, ◌^◌, length};
    ghost use Rattle.uc_logrec.specs.Position.{Position, ahead_at};

    ghost Value = { Position };

    ghost view = { λ r. record { payloads_read = r.payloads_read; ahead = ahead_at r.place r.left.now } };

    ghost invariant = { λ r. (r.payloads_read ≤ r.place) × (r.place + length r.left.now < 2 ^ 63) };
}

impl<'a> LogReader<'a> {
    /// A reader at the start of a log.
    pub fn new(log: &'a [u8]) -> LogReader<'a>
        ensures { result ≡ record { payloads_read = 0; ahead = reading_of log.now } }
    {
        LogReader {
            place: 0,
            left: log,
            payloads_read: 0,
        }
    }

    /// The number of payloads returned before.
    pub fn payloads_read(&self) -> u64
        ensures { result ≡ self.now.payloads_read }
    {
        self.payloads_read
    }

    /// The next payload or, after the last one, the ending, again at each further call.
    ///
    /// The buffer is for a payload of several pieces. Its former content is ignored, and one buffer serves for all
    /// payloads. After an `Err` nothing is passed over. It allocates only for data that is there, whatever a length
    /// field says.
    pub fn next(&mut self, joined: &mut Vec<u8>) -> Result<Next<'a>, AllocError>
        ensures ok { IfOk result (λ next. Comes next joined.new.items self.old self.new) }
        ensures err { OnErr result (self.new ≡ self.old) }
    {
        let (next, place, left) = next_payload_at(joined, self.place, self.left)?;
        if let Next::Whole(_) | Next::Joined = next {
            self.place = place;
            self.left = left;
            self.payloads_read += 1;
        }
        Ok(next)
    }
}

/// The item at an offset of a log, and the offset after that payload; if the log ends there, the same offset.
///
/// Offsets are in bytes. A payload may begin at 0 and where an earlier call led. At an offset above its length the log
/// ends clean. The buffer is for a payload of several pieces, as at [`LogReader::next`]. After an `Err` the call can be
/// made again.
pub fn next_payload<'a>(
    log: &'a [u8],
    offset: u64,
    joined: &mut Vec<u8>,
) -> Result<(Next<'a>, u64), AllocError>
    ensures { IfOk result (λ found. LeadsIn found.0 joined.new.items log.now offset found.1) }
{
    let place = offset as usize;
    let Some(left) = log.get(place..) else {
        return Ok((Next::Ended(Ending::Clean), offset));
    };
    let (next, behind, _) = next_payload_at(joined, place, left)?;
    match next {
        Next::Ended(_) => Ok((next, offset)),
        Next::Whole(_) | Next::Joined => Ok((next, behind as u64)),
    }
}

/// The next item at a place of a log, if these bytes are there; then the place after that payload, and the bytes from
/// there.
///
/// Places are offsets in bytes. A payload may begin at 0 and where an earlier call led. The bytes may be cut off: a payload
/// that is whole in them is the log's, whatever follows, and an ending is the log's if they go to its end. The buffer is for
/// a payload of several pieces, as at [`LogReader::next`]. After an `Err` the call can be made again.
pub fn next_payload_at<'a>(
    joined: &mut Vec<u8>,
    mut place: usize,
    mut left: &'a [u8],
) -> Result<(Next<'a>, usize, &'a [u8]), AllocError>
    requires { place + length left.now < 2 ^ 63 }
    ensures leads { IfOk result (λ found. Leads found.0 joined.new.items place left.now found.1 found.2.now) }
    ensures last { IfOk result (λ found. IsLastOf found.0 (take (found.1 - place) left.now)) }
    ensures behind { IfOk result (λ found. found.2.now ≡ drop (found.1 - place) left.now) }
{
    let mut unfinished = None;
    loop {
        let (offset, rest) = skip_trailer(place, left);
        let (record, behind) = match read_record(offset, rest) {
            Ok(found) => found,
            Err(stop) => {
                let ending = ending_at(stop, &unfinished, offset as u64);
                return Ok((Next::Ended(ending), place, left));
            }
        };
        place = offset + HEADER_SIZE + record.fragment.len();
        left = behind;
        match step_at(unfinished, joined, offset as u64, record)? {
            Step::Whole => return Ok((Next::Whole(record.fragment), place, left)),
            Step::Joined => return Ok((Next::Joined, place, left)),
            Step::Open(open) => unfinished = Some(open),
            Step::Refused(fault) => {
                let ending = Ending::Fault(fault, offset as u64);
                return Ok((Next::Ended(ending), place, left));
            }
        }
    }
}

/// The end of the log at an offset where no record is. The open payload's data is ignored.
fn ending_at(stop: Stop, unfinished: &Option<Unfinished>, offset: u64) -> Ending
    ensures { (joined : List ℕ) → result ≡ definitions.ending_at stop (open_in unfinished.now joined) offset }
{
    match (stop, unfinished) {
        (Stop::End, None) => Ending::Clean,
        (Stop::Cut, None) => Ending::Torn(offset),
        (Stop::Bad(fault), _) => Ending::Fault(fault, offset),
        (_, Some(unfinished)) => Ending::Torn(unfinished.start),
    }
}
