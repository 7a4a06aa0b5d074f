//! `dump`: what stands in a write-ahead log, as lines.

ghost use Rattle.std.specs.Prelude.{◌≡◌, ◌≤◌, [], length, map, IfOk, IfErr, IfSome, OnOk, OnErr};
ghost use Rattle.std.specs.Io.KnownBytes.{Appends};
ghost use Rattle.uc_batch.specs.Log.{log_writes};
ghost use Rattle.uc_tool_io.specs.Dump as dumps;
ghost use Rattle.uc_tool_io.specs.LogLines.{write_line};
ghost use Rattle.uc_tool_io.specs.Dump.{dump_of};
ghost use Rattle.uc_tool_io.specs.Output.{Prints, HasWritten};
ghost use Rattle.uc_tool_io.specs.Writing.{AppendsFront};

use crate::done::Done;
use crate::logs::{ended_line, push_write};
use crate::output::write_bytes;
use crate::run_error::RunError;
use crate::whole_run::run_over_input;
use std::alloc::Global;
use std::io;
use std::io::Read;
use uc_batch::{Advance, BatchWrites, Ended, PieceReader, Pieces};

/// The number of bytes of lines that are put together before they are written out.
const FULL: usize = 64 << 10;

/// Writes out the lines that were put together, and empties the buffer.
fn print_lines<W: io::Write>(lines: &mut Vec<u8>, writer: &mut W) -> Result<(), RunError>
    ensures ok { OnOk result (Appends (W.contents writer.old) (W.contents writer.new) lines.old.items) }
    ensures empty { OnOk result (lines.new.items ≡ []) }
    ensures err { OnErr result (AppendsFront (W.contents writer.old) (W.contents writer.new) lines.old.items) }
    ensures device { IfErr result (λ e. e ≡ RunError.Device) }
{
    write_bytes(writer, lines)?;
    lines.clear();
    Ok(())
}

/// Prints the writes of a batch, a line each. Lines are put together in the buffer `lines`, which is written out as soon as it
/// is full, however many writes the batch has. Its bytes are of no use before or after.
fn print_writes<W: io::Write>(
    lines: &mut Vec<u8>,
    writes: BatchWrites<'_>,
    writer: &mut W,
) -> Result<(), RunError>
    ensures { Prints (map write_line writes.entry) (W.contents writer.old) (W.contents writer.new) result }
{
    lines.clear();
    for write in writes {
        push_write(lines, &write)?;
        if lines.len() >= FULL {
            print_lines(lines, writer)?;
        }
    }
    print_lines(lines, writer)
}

/// Prints the writes of a log, up to its first fault, and returns how far it was read. Each write is printed from the log's own
/// bytes, whose pieces are freed as they are read.
fn print_log<W: io::Write>(alloc: Global, log: Pieces, writer: &mut W) -> Result<Ended, RunError>
    ensures printed { Prints (map write_line (log_writes log).list) (W.contents writer.old)
        (W.contents writer.new) result }
    ensures ended { IfOk result (λ ended. ended ≡ (log_writes log).ended) }
{
    let mut batches = PieceReader::new(alloc, log);
    let mut lines = Vec::new(alloc);
    loop {
        match batches.advance()? {
            Advance::Batch => print_writes(&mut lines, batches.writes(), writer)?,
            Advance::Ended(ended) => return Ok(ended),
        }
    }
}

/// The end of a run that read its log up to here.
fn done_of(ended: Ended) -> Done
    ensures { result ≡ dumps.done_of ended }
{
    match ended {
        Ended::Clean | Ended::Torn(_) => Done::Fine,
        Ended::LogFault(..) | Ended::BatchFault(..) => Done::BadLog,
    }
}

/// Prints what a log holds, and how far it can be read.
fn run<W: io::Write>(alloc: Global, input: Pieces, writer: &mut W) -> Result<Done, RunError>
    ensures printed { Prints (dump_of input).replies (W.contents writer.old) (W.contents writer.new) result }
    ensures done { IfOk result (λ done. done ≡ (dump_of input).done) }
{
    let ended = print_log(alloc, input, writer)?;
    let line = ended_line(alloc, ended)?;
    write_bytes(writer, &line)?;
    Ok(done_of(ended))
}

/// Prints the contents of a write-ahead log: a line for each write before its first fault, and one that says whether the log ended
/// there, was torn, or is faulty.
///
/// It writes `dump_of`, a function of the bytes that were read. If allocation fails, it writes some first lines whole, and then
/// `out of memory`. If the reader or the writer fails, or the input is longer than 64 MiB, it writes a prefix of these lines or of
/// the error message.
pub fn dump<R: Read, W: io::Write>(alloc: Global, reader: &mut R, writer: &mut W) -> Done
    ensures { IfSome (R.remaining reader.old) (λ input.
        HasWritten (dump_of input) input (W.contents writer.old) (W.contents writer.new) result) }
{
    let (done, _told) = run_over_input(alloc, reader, writer, |input: Pieces, writer: &mut W| {
        (run(alloc, input, writer), ())
    });
    done
}
