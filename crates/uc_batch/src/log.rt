//! From the bytes of a log to its plain writes.
ghost use Rattle.std.specs.Prelude.{◌≡◌, ℕ, ◌≢◌, Ok, Err, IfOk, IfErr, IfSome};
ghost use Rattle.uc_batch.specs.declared.error.BatchError.TheVariants as faults;
ghost use Rattle.uc_batch.specs.declared.read_error.ReadError.TheVariants as errors;
ghost use Rattle.uc_batch.specs.Rising.{IsRising};
ghost use Rattle.uc_batch.specs.Log.{log_writes, writes_of, Refuses};

use crate::batch_reader::{Advance, BatchReader};
use crate::ended::Ended;
use crate::mode::Mode;
use crate::read_error::ReadError;
use crate::reading::push_copies;
use crate::writes::Writes;
use std::alloc::{AllocError, Global};
use uc_bytes::Write;

/// Copies the writes of a log, up to its first fault, and says how far it was read.
fn copy_writes(alloc: Global, bytes: &[u8]) -> Result<(Vec<Write>, Ended), AllocError>
    ensures writes { IfOk result (λ read. read.0.items ≡ (log_writes bytes.now).list) }
    ensures ended { IfOk result (λ read. read.1 ≡ (log_writes bytes.now).ended) }
    ensures rising { IfOk result (λ read. IsRising 0 read.0.items) }
{
    let mut writes = Vec::new(alloc);
    let mut log = BatchReader::new(alloc, bytes);
    loop {
        match log.advance()? {
            Advance::Batch => push_copies(alloc, &mut writes, log.writes())?,
            Advance::Ended(ended) => return Ok((writes, ended)),
        }
    }
}

/// The plain writes of a log: the operations of its batches in order, with their sequence numbers.
///
/// `Mode::TornTail` rejects a log with a fault or an invalid batch; `Mode::PointInTime` keeps what comes before it (RocksDB,
/// `WALRecoveryMode`).
pub fn read_writes(alloc: Global, bytes: &[u8], mode: Mode) -> Result<Writes, ReadError>
    ensures ok { IfOk result (λ writes. writes_of mode bytes.now ≡ Ok writes) }
    ensures err { IfErr result (λ e. Refuses e (writes_of mode bytes.now)) }
    ensures named { (number : ℕ) → result ≢ Err (errors.Batch number faults.Memory) }
{
    let (list, ended) = copy_writes(alloc, bytes)?;
    match (ended, mode) {
        (Ended::BatchFault(number, fault), Mode::TornTail) => Err(ReadError::Batch(number, fault)),
        (Ended::LogFault(fault, offset), Mode::TornTail) => Err(ReadError::Log(fault, offset)),
        _ => Ok(Writes::known(list, ended)),
    }
}
