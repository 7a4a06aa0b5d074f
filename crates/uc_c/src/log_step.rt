//! [`LogStep`]: what comes next in a log.
ghost use Rattle.std.specs.Prelude.{◌≡◌, ◌<◌, ◌≤◌, List, ℕ, ◌∷◌, ◌++◌, length, IfOk, OnOk};
ghost use Rattle.uc_logrec.specs.Position.{LiesIn};
ghost use Rattle.uc_batch.specs.Rising.{last_of};
ghost use Rattle.uc_c.specs.LogSteps.{StepsTo};
ghost use Rattle.uc_c.specs.LogWrites as layout;
ghost use Rattle.uc_c.specs.LogWrites.{op_bytes, write_bytes};
ghost use Rattle.uc_rows.specs.RowBytes.{text_bytes};

use crate::c_log_place::CLogPlace;
use std::alloc::{AllocError, Global};
use uc_batch::{BatchWrites, Ended};
use uc_bytes::{OpKind, OpRef, WriteRef};
use uc_logrec::{Next, next_payload};
use uc_rows::push_text;

/// The writes of a batch, laid out for C.
#[derive(Drop)]
pub(crate) struct LaidWrites {
    /// The writes, one after the other.
    pub(crate) bytes: Vec<u8>,
    /// Their number.
    pub(crate) count: u64,
    /// The last sequence with them.
    pub(crate) last: u64,
}

/// The next item of a log.
#[derive(Drop)]
pub(crate) enum LogStep {
    /// A batch, and the place after it.
    Batch(LaidWrites, CLogPlace),
    /// No batch that may follow: how far the log was read.
    Ended(Ended),
}

/// The next item at a place of a log.
pub(crate) fn step_from(alloc: Global, log: &[u8], place: CLogPlace) -> Result<LogStep, AllocError>
    requires { place.batches ≤ place.offset }
    ensures { IfOk result (λ step. StepsTo step log.now place) }
{
    let mut joined = Vec::new(alloc);
    let (next, behind) = next_payload(log, place.offset, &mut joined)?;
    match next {
        Next::Whole(payload) => batch_step(alloc, payload, place, behind),
        Next::Joined => batch_step(alloc, joined.as_slice(), place, behind),
        Next::Ended(ending) => Ok(LogStep::Ended(Ended::from(ending))),
    }
}

/// The payload between a place and an offset, validated as a batch.
fn batch_step(
    alloc: Global,
    payload: &[u8],
    place: CLogPlace,
    behind: u64,
) -> Result<LogStep, AllocError>
    requires numbered { place.batches ≤ place.offset }
    requires later { place.offset < behind }
    ensures { IfOk result (λ step.
        (log : List ℕ) → LiesIn payload.now log place.offset behind → StepsTo step log place) }
{
    let number = place.batches + 1;
    match BatchWrites::read(payload, place.last) {
        Ok(writes) => {
            let laid = laid_writes(alloc, writes, place.last)?;
            let behind = CLogPlace {
                offset: behind,
                last: laid.last,
                batches: number,
            };
            Ok(LogStep::Batch(laid, behind))
        }
        Err(fault) => Ok(LogStep::Ended(Ended::BatchFault(number, fault))),
    }
}

/// Lays writes out after a last sequence.
fn laid_writes(
    alloc: Global,
    writes: BatchWrites<'_>,
    before: u64,
) -> Result<LaidWrites, AllocError>
    ensures bytes { IfOk result (λ laid. laid.bytes.items ≡ layout.writes_bytes writes.entry) }
    ensures count { IfOk result (λ laid. laid.count ≡ length writes.entry) }
    ensures last { IfOk result (λ laid. laid.last ≡ last_of before writes.entry) }
{
    let mut bytes = Vec::new(alloc);
    let mut count = 0;
    let mut last = before;
    for write in writes {
        push_write(&mut bytes, &write)?;
        count += 1;
        last = write.seq();
    }
    Ok(LaidWrites { bytes, count, last })
}

/// Writes a write at the end.
fn push_write(bytes: &mut Vec<u8>, write: &WriteRef<'_>) -> Result<(), AllocError>
    ensures { OnOk result (bytes.new.items ≡ bytes.old.items ++ write_bytes write.now) }
{
    bytes.extend_from_slice(&write.seq().to_le_bytes())?;
    push_op(bytes, write.op())
}

/// Writes an operation at the end.
fn push_op(bytes: &mut Vec<u8>, op: &OpRef<'_>) -> Result<(), AllocError>
    ensures { OnOk result (bytes.new.items ≡ bytes.old.items ++ op_bytes op.now) }
{
    let (kind, first, second) = op.parts();
    match kind {
        OpKind::Put => push_texts(bytes, 1, first, second),
        OpKind::Delete => push_texts(bytes, 0, first, &[]),
        OpKind::Merge => push_texts(bytes, 2, first, second),
        OpKind::DeleteRange => push_texts(bytes, 15, first, second),
    }
}

/// Appends a tag and two byte strings.
fn push_texts(bytes: &mut Vec<u8>, tag: u8, first: &[u8], second: &[u8]) -> Result<(), AllocError>
    ensures { OnOk result (bytes.new.items ≡
        bytes.old.items ++ (tag ∷ text_bytes first.now ++ text_bytes second.now)) }
{
    bytes.push(tag)?;
    push_text(bytes, first)?;
    push_text(bytes, second)
}
