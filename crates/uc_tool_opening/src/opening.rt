//! A store that opens from a log, or from a script's writes by way of one.

ghost use Rattle.std.specs.Prelude.{◌≡◌, ◌≢◌, Some, None, IfOk, IfErr};
ghost use Rattle.uc_logrec.specs.Log.{log_text};
ghost use Rattle.uc_batch.specs.Batch.{numbered};
ghost use Rattle.uc_batch.specs.Rising.{IsRising};
ghost use Rattle.uc_batch.specs.declared.ended.Ended.TheVariants.{Clean};
ghost use Rattle.uc_version_state.specs.Openings.{Opening, opened};
ghost use Rattle.uc_version_open.specs.Progress.{progress_of};
ghost use Rattle.uc_version_open.specs.Refusal.{opening_refusal};
ghost use Rattle.uc_version_open.specs.declared.open_error.OpenError.TheVariants.{Memory};
ghost use Rattle.uc_tool_opening.specs.Opening.{batch_texts, FitsLog};

use std::alloc::{AllocError, Global};
use std::marker::Sync;
use std::slice;
use std::thread::Threads;
use uc_batch::{Mode, Pieces, ReadError, Writes, read_writes, write_batch, written_batch_is_read};
use uc_bytes::Op;
use uc_logrec::{LogWriter, written_log_is_read};
use uc_script::{Keeps, Ops};
use uc_version_open::{InThreads, OpenError, Opener, Recovered, recover_pieces};
use uc_version_state::{Options, Version};

/// Writes the operations as a log, a batch for each, numbered from `first` on.
fn write_log(alloc: Global, first: u64, ops: &[Op]) -> Result<Vec<u8>, AllocError>
    requires { FitsLog first ops.now }
    ensures { IfOk result (λ log. log.items ≡ log_text (batch_texts first ops.now)) }
{
    let mut log = LogWriter::new(alloc);
    let mut seq = first;
    for op in ops {
        let batch = write_batch(alloc, seq, slice::from_ref(op))?;
        log.add(&batch)?;
        seq += 1;
    }
    Ok(log.finish())
}

/// The log of the operations, numbered from `first`. The operations are freed.
fn log_of(alloc: Global, first: u64, ops: Ops) -> Result<Vec<u8>, AllocError>
    requires { FitsLog first ops }
    ensures { IfOk result (λ log. log.items ≡ log_text (batch_texts first ops)) }
{
    write_log(alloc, first, ops.as_slice())
}

/// A log in pieces, so that each can be freed once it is read.
fn in_pieces(alloc: Global, log: Vec<u8>) -> Result<Pieces, AllocError>
    ensures { IfOk result (λ pieces. pieces ≡ log.items) }
{
    let mut pieces = Pieces::new(alloc);
    pieces.push_bytes(alloc, &log)?;
    Ok(pieces)
}

/// A store that is being opened from operations, which are numbered from 1 and first encoded as a log. Each intermediate form is
/// freed once the next one is made.
fn opener_of(
    rt: &(impl Threads + Sync),
    alloc: Global,
    ops: Ops,
    options: Options,
) -> Result<Opener, AllocError>
    requires { FitsLog 1 ops }
    ensures opener { IfOk result (λ opener. opener ≡ progress_of options (numbered 1 ops)) }
    ensures rising { IfOk result (λ _. IsRising 0 (numbered 1 ops)) }
{
    // Printed replies are read again: the laws of the layers below, which do nothing when they run.
    written_log_is_read();
    written_batch_is_read();
    let log = in_pieces(alloc, log_of(alloc, 1, ops)?)?;
    let Recovered { opener, .. } = recover_pieces(&InThreads(rt), alloc, log, options)?;
    Ok(opener)
}

/// The version that a store opens with from operations, which are numbered from 1, by way of a log of them. Its memtables are
/// flushed in threads.
pub fn open_ops(
    rt: &(impl Threads + Sync),
    alloc: Global,
    ops: Ops,
    keeps: Keeps,
    options: Options,
) -> Result<Version, OpenError>
    requires { FitsLog 1 ops }
    ensures ok { let opening : Opening = record { writes = numbered 1 ops; keeps = keeps; options = options } in
        IfOk result (λ version. (version ≡ opened opening) × (opening_refusal opening ≡ None)) }
    ensures err { let opening : Opening = record { writes = numbered 1 ops; keeps = keeps; options = options } in
        IfErr result (λ error. error ≢ Memory → opening_refusal opening ≡ Some error) }
{
    opener_of(rt, alloc, ops, options)?.finish(&InThreads(rt), alloc, keeps.as_slice())
}

/// Operations as writes, numbered from `first`, by way of a log of them. The operations and the log are freed.
pub fn writes_by_log(alloc: Global, first: u64, ops: Ops) -> Result<Writes, AllocError>
    requires { FitsLog first ops }
    ensures { IfOk result (λ writes. writes ≡ record { list = numbered first ops; ended = Clean }) }
{
    written_log_is_read();
    written_batch_is_read();
    let log = log_of(alloc, first, ops)?;
    match read_writes(alloc, &log, Mode::PointInTime) {
        Ok(writes) => Ok(writes),
        Err(ReadError::Memory) => Err(AllocError),
        // Point-in-time recovery rejects nothing.
        Err(ReadError::Batch(_, _) | ReadError::Log(_, _)) => unreachable!(),
    }
}
