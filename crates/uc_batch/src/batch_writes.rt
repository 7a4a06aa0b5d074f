//! [`BatchWrites`]: the writes of a batch, one at a time, borrowed.
ghost use Rattle.std.specs.Prelude.{◌≡◌, ◌<◌, ◌≤◌, ◌+◌, ◌^◌, ◌++◌, [], ℕ, length, drop, option_to_list, Ok};
ghost use Rattle.std.specs.Prelude.{Err, OnOk, IfOk, IfErr, IfNone};
ghost use Rattle.std.specs.Iterator.{YieldsFirst, item_count};
ghost use Rattle.uc_batch.specs.Reads.{Exactly};
ghost use Rattle.uc_batch.specs.Records.{operations};
ghost use Rattle.uc_batch.specs.Batch.{batch_of, counted_of, ops_in, writes_in, AreCounted};

use crate::cursor::Cursor;
use crate::error::BatchError;
use crate::header::{HEADER_SIZE, Header};
use crate::records::read_record;
use std::marker::Model;
use uc_bytes::{OpRef, WriteRef};

/// The remaining writes, in order, of a batch that was validated before.
///
/// A contract sees them as a list. Iteration doesn't allocate: each write borrows its key and value from the batch.
#[derive(Drop)]
pub struct BatchWrites<'a> {
    // The sequence of the next one, and how many there are.
    sequence: u64,
    count: u32,
    records: Cursor<'a>,
}

impl<'a> Model for BatchWrites<'a> {
    ghost use Rattle.std.specs.Prelude.{List, ◌<◌, ◌≤◌, ◌+◌, ◌^◌};
    ghost use Rattle.uc_bytes.specs.declared.write.Write.{Write};
    ghost use Rattle.uc_batch.specs.Batch.{numbered, ops_in, AreCounted};

    ghost Value = { List Write };

    ghost view = { λ w. numbered w.sequence (ops_in w.records.total w.records.rest.now) };

    ghost invariant = { λ w. AreCounted w.count w.records.total w.records.rest.now
        × (0 < w.count → w.sequence + w.count ≤ 2 ^ 56) };
}

/// Reads all records, and returns the first fault or `WrongCount`.
fn judge_records(mut batch: Cursor<'_>, count: u32) -> Result<(), BatchError>
    ensures ok { OnOk result (AreCounted count batch.entry.total batch.entry.rest.now) }
    ensures err { IfErr result (λ e.
        (sequence : ℕ) → counted_of sequence count batch.entry.total batch.entry.rest.now ≡ Err e) }
{
    let mut counted = 0;
    while !batch.is_empty() {
        if read_record(&mut batch)?.is_some() {
            counted += 1;
        }
    }
    if counted != u64::from(count) {
        return Err(BatchError::WrongCount);
    }
    Ok(())
}

/// The next operation of validated records, if there is one.
fn next_op<'a>(batch: &mut Cursor<'a>) -> Option<OpRef<'a>>
    requires { operations batch.old.total batch.old.rest.now ≡ Ok (ops_in batch.old.total batch.old.rest.now) }
    ensures fine { operations batch.new.total batch.new.rest.now ≡ Ok (ops_in batch.new.total batch.new.rest.now) }
    ensures ops { ops_in batch.old.total batch.old.rest.now ≡
        option_to_list result ++ ops_in batch.new.total batch.new.rest.now }
    ensures none { IfNone result (ops_in batch.new.total batch.new.rest.now ≡ []) }
{
    while !batch.is_empty() {
        match read_record(batch) {
            Ok(Some(op)) => return Some(op),
            Ok(None) => {}
            Err(_) => unreachable!(),
        }
    }
    None
}

/// Validates a batch that comes after the sequence number `last`, as [`BatchWrites::read`] does, and returns its header. A reader
/// that holds the bytes keeps the header, and makes the writes by [`BatchWrites::judged`] when they are needed.
#[tactic(auto, unfolding(crate::specs::Batch::batch_of))]
pub fn judge_batch(bytes: &[u8], last: u64) -> Result<Header, BatchError>
    ensures value { Exactly (λ header. writes_in header.sequence bytes.now) result (batch_of last bytes.now) }
    ensures counted { IfOk result (λ header. AreCounted header.count (length bytes.now) (drop 12 bytes.now)) }
    ensures room { IfOk result (λ header. 0 < header.count → header.sequence + header.count ≤ 2 ^ 56) }
{
    let Some((header, body)) = Header::split(bytes) else {
        return Err(BatchError::TooShort);
    };
    header.judge(last)?;
    judge_records(Cursor::new(bytes.len(), body), header.count)?;
    Ok(header)
}

impl<'a> BatchWrites<'a> {
    /// Validates a batch that comes after the sequence number `last` (0 if none was used before), and returns its borrowed writes
    /// with their sequence numbers. See [`BatchError`] for the errors and their order; none of them is `Memory`.
    pub fn read(bytes: &'a [u8], last: u64) -> Result<BatchWrites<'a>, BatchError>
        ensures { Exactly (λ writes. writes) result (batch_of last bytes.now) }
    {
        let header = judge_batch(bytes, last)?;
        Ok(BatchWrites::judged(header, bytes))
    }

    /// The writes of a batch that [`judge_batch`] accepted. It looks at no record.
    pub fn judged(header: Header, bytes: &'a [u8]) -> BatchWrites<'a>
        requires counted { AreCounted header.count (length bytes.now) (drop 12 bytes.now) }
        requires room { 0 < header.count → header.sequence + header.count ≤ 2 ^ 56 }
        ensures { result ≡ writes_in header.sequence bytes.now }
    {
        let records = bytes.get(HEADER_SIZE..).unwrap_or(&[]);
        BatchWrites {
            sequence: header.sequence,
            count: header.count,
            records: Cursor::new(bytes.len(), records),
        }
    }
}

impl<'a> Iterator for BatchWrites<'a> {
    type Item = WriteRef<'a>;

    ghost next_gives = { YieldsFirst (λ writes. writes) };

    ghost remaining = { item_count (λ writes. writes) };

    fn next(&mut self) -> Option<WriteRef<'a>> {
        let op = next_op(&mut self.records)?;
        let write = WriteRef::new(self.sequence, op);
        self.sequence += 1;
        self.count -= 1;
        Some(write)
    }
}
