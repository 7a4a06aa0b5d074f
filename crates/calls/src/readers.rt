//! Calls that read a log step by step: from offsets, by readers, and in pieces. Calls that grow batches and logs.
use crate::formats::write_write;
use crate::input::Input;
use crate::out::Out;
use crate::said;
use std::alloc::{AllocError, Global};
use uc_batch::{Advance, BatchReader, BatchWrites, PieceReader, Pieces, PushError, WriteBatch};
use uc_bytes::{Op, OpRef};
use uc_logrec::{LogReader, Next, crc32c, extend, next_payload, payload_bytes};

/// Contents of a buffer before it is used to read a log.
const BEFORE: &[u8] = b"of an earlier log";

/// Writes the next item of a log: a payload, a joined payload, or the ending. Returns true for the ending.
fn write_next(alloc: Global, out: &mut Out, next: Next<'_>, joined: &[u8]) -> bool {
    match next {
        Next::Whole(payload) => {
            out.number(0);
            out.bytes(payload);
            false
        }
        Next::Joined => {
            out.number(1);
            out.bytes(joined);
            false
        }
        Next::Ended(ending) => {
            out.number(2);
            out.name(alloc, &ending);
            true
        }
    }
}

/// Writes the payload at an offset, and the next offset. Returns the next offset unless the log ends.
fn write_at(
    alloc: Global,
    out: &mut Out,
    log: &[u8],
    joined: &mut Vec<u8>,
    offset: u64,
) -> Option<u64> {
    match next_payload(log, offset, joined) {
        Ok((next, behind)) => {
            let is_ended = write_next(alloc, out, next, joined);
            out.number(behind);
            if is_ended { None } else { Some(behind) }
        }
        Err(_) => {
            out.want();
            None
        }
    }
}

/// Reads an offset and a log. Writes the payload at the offset and the next offset, and repeats this until the log ends.
fn walk(alloc: Global, joined: &mut Vec<u8>, call: &mut Input<'_>, out: &mut Out) {
    let (first, log) = (call.number(), call.bytes());
    let mut offset = first;
    for _ in 0..=log.len() {
        match write_at(alloc, out, log, joined, offset) {
            Some(behind) => offset = behind,
            None => return,
        }
    }
    out.refuse();
}

/// Writes a reader's next item, and the number of payloads read so far. Returns true if the log ends.
fn write_payload(
    alloc: Global,
    out: &mut Out,
    reader: &mut LogReader<'_>,
    joined: &mut Vec<u8>,
) -> bool {
    match reader.next(joined) {
        Ok(next) => {
            let is_ended = write_next(alloc, out, next, joined);
            out.number(reader.payloads_read());
            is_ended
        }
        Err(_) => {
            out.want();
            true
        }
    }
}

/// Reads a log. Writes each payload, by a reader, with the number of payloads read so far, and the ending twice.
fn read_on(alloc: Global, joined: &mut Vec<u8>, call: &mut Input<'_>, out: &mut Out) {
    let log = call.bytes();
    let mut reader = LogReader::new(log);
    for _ in 0..=log.len() {
        if write_payload(alloc, out, &mut reader, joined) {
            write_payload(alloc, out, &mut reader, joined);
            return;
        }
    }
    out.refuse();
}

/// Reads a log step by step, with a buffer that isn't empty: from an offset, or by a reader.
fn read_with(
    alloc: Global,
    is_walk: bool,
    call: &mut Input<'_>,
    out: &mut Out,
) -> Result<(), AllocError> {
    let mut joined = Vec::from_slice(alloc, BEFORE)?;
    if is_walk {
        walk(alloc, &mut joined, call, out);
    } else {
        read_on(alloc, &mut joined, call, out);
    }
    Ok(())
}

/// A reader of batches.
trait Batches {
    /// Advances to the next batch.
    fn go_on(&mut self) -> Result<Advance, AllocError>;

    /// Returns the writes of the current batch.
    fn current(&self) -> BatchWrites<'_>;

    /// Returns the last sequence number used.
    fn last_used(&self) -> u64;
}

impl Batches for BatchReader<'_> {
    fn go_on(&mut self) -> Result<Advance, AllocError> {
        self.advance()
    }

    fn current(&self) -> BatchWrites<'_> {
        self.writes()
    }

    fn last_used(&self) -> u64 {
        self.last()
    }
}

impl Batches for PieceReader {
    fn go_on(&mut self) -> Result<Advance, AllocError> {
        self.advance()
    }

    fn current(&self) -> BatchWrites<'_> {
        self.writes()
    }

    fn last_used(&self) -> u64 {
        self.last()
    }
}

/// Writes the writes of the current batch, and the last sequence number used.
fn write_current<B: Batches>(out: &mut Out, batches: &B) {
    for write in batches.current() {
        out.flag(true);
        write_write(out, &write);
    }
    out.flag(false);
    out.number(batches.last_used());
}

/// Writes the current batch, or the log's ending. Returns true for the ending.
fn write_advance<B: Batches>(alloc: Global, out: &mut Out, batches: &B, advance: &Advance) -> bool {
    match advance {
        Advance::Batch => {
            out.flag(true);
            write_current(out, batches);
            false
        }
        Advance::Ended(ended) => {
            out.flag(false);
            write_current(out, batches);
            out.name(alloc, ended);
            true
        }
    }
}

/// Advances to the next batch. Writes it, or the log's ending. Returns true for the ending.
fn write_step<B: Batches>(alloc: Global, out: &mut Out, batches: &mut B) -> bool {
    match batches.go_on() {
        Ok(advance) => write_advance(alloc, out, batches, &advance),
        Err(_) => {
            out.want();
            true
        }
    }
}

/// Writes all batches, and the ending twice.
fn write_batches<B: Batches>(alloc: Global, out: &mut Out, batches: &mut B, most: usize) {
    write_current(out, batches);
    for _ in 0..=most {
        if write_step(alloc, out, batches) {
            write_step(alloc, out, batches);
            return;
        }
    }
    out.refuse();
}

/// Returns a log in pieces of `size` bytes. The first has the remainder.
fn in_pieces(alloc: Global, log: &[u8], size: usize) -> Result<Pieces, AllocError> {
    let mut pieces = Pieces::new(alloc);
    for piece in log.rchunks(size.max(1)) {
        pieces.push_front(Vec::from_slice(alloc, piece)?)?;
    }
    Ok(pieces)
}

/// Writes the batches of a log.
fn read_whole(alloc: Global, log: &[u8], out: &mut Out) {
    let mut reader = BatchReader::new(alloc, log);
    write_batches(alloc, out, &mut reader, log.len());
}

/// Writes the batches of a log in pieces, at most `most`.
fn read_pieces(alloc: Global, pieces: Pieces, most: usize, out: &mut Out) {
    let mut reader = PieceReader::new(alloc, pieces);
    write_batches(alloc, out, &mut reader, most);
}

/// Reads the size of pieces, or 0 for one piece, and a log. Writes the log's batches.
fn read_in(alloc: Global, call: &mut Input<'_>, out: &mut Out) {
    let (size, log) = (call.place(), call.bytes());
    if size == 0 {
        return read_whole(alloc, log, out);
    }
    match in_pieces(alloc, log, size) {
        Ok(pieces) => read_pieces(alloc, pieces, log.len(), out),
        Err(_) => out.want(),
    }
}

/// Removes the first bytes of pieces, and writes them.
fn split(alloc: Global, pieces: &mut Pieces, size: usize, out: &mut Out) {
    if pieces.len() < size {
        out.refuse();
    } else {
        out.made(pieces.split_front(alloc, size));
    }
}

/// Adds bytes at the front of pieces.
fn push_front(alloc: Global, pieces: &mut Pieces, bytes: &[u8]) -> Result<(), AllocError> {
    pieces.push_front(Vec::from_slice(alloc, bytes)?)
}

/// Reads a step. 0 adds bytes to the front of pieces, 1 to the back, and 2 removes a number of bytes.
fn change(alloc: Global, pieces: &mut Pieces, call: &mut Input<'_>, out: &mut Out) {
    match call.number() {
        0 => out.done(push_front(alloc, pieces, call.bytes())),
        1 => out.done(pieces.push_bytes(alloc, call.bytes())),
        _ => split(alloc, pieces, call.place(), out),
    }
}

/// Reads the number of steps, and the steps.
fn change_all(alloc: Global, pieces: &mut Pieces, call: &mut Input<'_>, out: &mut Out) {
    for _ in 0..call.number() {
        if call.is_short() {
            break;
        }
        change(alloc, pieces, call, out);
    }
}

/// Reads steps with pieces. Writes the bytes that they remove, and then the remaining bytes.
fn pieces(alloc: Global, call: &mut Input<'_>, out: &mut Out) {
    let mut pieces = Pieces::new(alloc);
    change_all(alloc, &mut pieces, call, out);
    out.made(pieces.into_vec(alloc));
}

/// Appends operations to a batch.
fn push_all(batch: &mut WriteBatch, ops: &[Op], out: &mut Out) {
    for op in ops {
        match batch.push(&OpRef::of(op)) {
            Ok(()) => {}
            Err(PushError::Memory) => return out.want(),
            Err(_) => return out.refuse(),
        }
    }
}

/// Writes the bytes of a batch, the number of its operations, and a flag that is set if it has none.
fn write_gathered(out: &mut Out, batch: &WriteBatch) {
    out.bytes(batch.as_bytes());
    out.number(u64::from(batch.len()));
    out.flag(batch.is_empty());
}

/// Appends operations to a batch, clears it, and appends them again. Writes the cleared batch, and the last.
fn gather_twice(batch: &mut WriteBatch, ops: &[Op], out: &mut Out) {
    push_all(batch, ops, out);
    batch.clear();
    write_gathered(out, batch);
    push_all(batch, ops, out);
    write_gathered(out, batch);
}

/// Reads operations, and appends them to a batch.
fn gather(alloc: Global, call: &mut Input<'_>, out: &mut Out) -> Result<(), AllocError> {
    let ops = said::list::<Op>(alloc, call)?;
    let mut batch = WriteBatch::new(alloc)?;
    gather_twice(&mut batch, &ops, out);
    Ok(())
}

/// Reads two byte strings. Writes the checksum of both in a row.
fn sum_up(call: &mut Input<'_>, out: &mut Out) {
    let (front, back) = (call.bytes(), call.bytes());
    out.number(u64::from(extend(crc32c(front), back)));
}

/// Makes a call of the given kind.
pub(crate) fn play(alloc: Global, kind: u64, call: &mut Input<'_>, out: &mut Out) {
    match kind {
        66 | 67 => {
            let done = read_with(alloc, kind == 66, call, out);
            out.done(done);
        }
        68 => read_in(alloc, call, out),
        69 => sum_up(call, out),
        70 => out.made(payload_bytes(alloc, call.number(), call.bytes())),
        71 => pieces(alloc, call, out),
        72 => {
            let done = gather(alloc, call, out);
            out.done(done);
        }
        _ => out.refuse(),
    }
}
