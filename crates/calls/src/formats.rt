//! Calls of logs, their records and checksums, and write batches.
use crate::input::Input;
use crate::out::Out;
use crate::{readers, said};
use std::alloc::{AllocError, Global};
use std::time::Clock;
use uc_batch::{
    BatchError, Mode, ReadError, Writes, fits_batch, read_batch, read_writes, write_batch,
};
use uc_bytes::{Op, Write, WriteRef};
use uc_logrec::{LogRead, LogWriter, crc32c, mask, read_log, unmask};

/// Reads bytes. Writes their checksum, the masked checksum, and that unmasked again.
fn sum_up(call: &mut Input<'_>, out: &mut Out) {
    let checksum = crc32c(call.bytes());
    out.number(u64::from(checksum));
    out.number(u64::from(mask(checksum)));
    out.number(u64::from(unmask(mask(checksum))));
}

/// Writes payloads, and the ending of their log.
fn write_payloads(alloc: Global, out: &mut Out, read: &LogRead) {
    let payloads = read.payloads.as_slice();
    out.place(payloads.len());
    for payload in payloads {
        out.bytes(payload.as_slice());
    }
    out.name(alloc, &read.ending);
}

/// Reads a log. Writes its payloads and its ending.
fn read(alloc: Global, call: &mut Input<'_>, out: &mut Out) {
    match read_log(alloc, call.bytes()) {
        Ok(read) => write_payloads(alloc, out, &read),
        Err(_) => out.want(),
    }
}

/// Reads the number of payloads, and the payloads. Writes their log.
fn log_of(alloc: Global, call: &mut Input<'_>) -> Result<Vec<u8>, AllocError> {
    let mut log = LogWriter::new(alloc);
    for _ in 0..call.number() {
        if call.is_short() {
            break;
        }
        log.add(call.bytes())?;
    }
    Ok(log.finish())
}

/// Writes a write: its sequence number, kind and byte strings.
pub(crate) fn write_write(out: &mut Out, write: &WriteRef<'_>) {
    let (kind, first, second) = write.op().parts();
    out.number(write.seq());
    out.number(kind as u64);
    out.bytes(first);
    out.bytes(second);
}

/// Writes the number of writes, and each write.
fn write_writes(out: &mut Out, writes: &[Write]) {
    out.flag(true);
    out.place(writes.len());
    for write in writes {
        write_write(out, &WriteRef::of(write));
    }
}

/// Reads the last sequence number before a batch, and the batch. Writes its writes, or the reason why it is refused.
fn read_one(alloc: Global, call: &mut Input<'_>, out: &mut Out) {
    let (last, batch) = (call.number(), call.bytes());
    match read_batch(alloc, batch, last) {
        Ok(writes) => write_writes(out, writes.as_slice()),
        Err(BatchError::Memory) => out.want(),
        Err(error) => {
            out.flag(false);
            out.name(alloc, &error);
        }
    }
}

/// Writes the batch of changes that begins with this sequence number.
fn write_ops(alloc: Global, out: &mut Out, first: u64, ops: &[Op]) {
    if fits_batch(first, ops) {
        out.made(write_batch(alloc, first, ops));
    } else {
        out.refuse();
    }
}

/// Reads the first sequence number, and changes. Writes their batch.
fn write_one(alloc: Global, call: &mut Input<'_>, out: &mut Out) {
    let first = call.number();
    match said::list::<Op>(alloc, call) {
        Ok(ops) => write_ops(alloc, out, first, &ops),
        Err(_) => out.want(),
    }
}

/// Writes the writes of a log, or the reason why it can't be read.
fn write_read(alloc: Global, out: &mut Out, read: &Result<Writes, ReadError>) {
    match read {
        Ok(writes) => write_writes(out, writes.list()),
        Err(ReadError::Memory) => out.want(),
        Err(error) => {
            out.flag(false);
            out.name(alloc, error);
        }
    }
}

/// Writes the number of writes of a log without damage.
fn write_count(out: &mut Out, read: &Result<Writes, ReadError>) {
    match read {
        Ok(writes) => out.place(writes.list().len()),
        Err(ReadError::Memory) => out.want(),
        Err(_) => out.refuse(),
    }
}

/// Reads a flag that is set to keep the writes before damage, and a log. Writes the writes of its batches, or the reason why they can't be
/// read. Clocks only the reading.
fn read_all(clock: &impl Clock, alloc: Global, call: &mut Input<'_>, out: &mut Out) {
    let mode = if call.flag() {
        Mode::PointInTime
    } else {
        Mode::TornTail
    };
    let read = read_writes(alloc, call.bytes(), mode);
    out.watch.stop(clock);
    write_read(alloc, out, &read);
}

/// Reads a log without damage. Writes the number of its batches' writes.
fn count_all(clock: &impl Clock, alloc: Global, call: &mut Input<'_>, out: &mut Out) {
    let read = read_writes(alloc, call.bytes(), Mode::TornTail);
    out.watch.stop(clock);
    write_count(out, &read);
}

/// Makes a call of the given kind.
pub(crate) fn play(
    clock: &impl Clock,
    alloc: Global,
    kind: u64,
    call: &mut Input<'_>,
    out: &mut Out,
) {
    match kind {
        60 => sum_up(call, out),
        61 => read(alloc, call, out),
        62 => out.made(log_of(alloc, call)),
        63 => read_one(alloc, call, out),
        64 => write_one(alloc, call, out),
        65 => read_all(clock, alloc, call, out),
        73 => count_all(clock, alloc, call, out),
        _ => readers::play(alloc, kind, call, out),
    }
}
