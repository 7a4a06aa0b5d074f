//! Runs that open no store, and the line that says why.

ghost use Rattle.std.specs.Prelude.{◌≡◌, codes, IfOk};
ghost use Rattle.uc_tool_io.specs.Line as texts;
ghost use Rattle.uc_tool_io.specs.Output.{Prints, refused};
ghost use Rattle.uc_tool_opening.specs.Refusals as lines;
ghost use Rattle.uc_tool_opening.specs.Refusals.{bad_log};

use std::alloc::{AllocError, Global};
use std::io::Write;
use uc_batch::Ended;
use uc_tool_io::{Done, RunError, ended_line, numbered_line, print_refusal, write_bytes};
use uc_version_open::OpenError;

/// The line that says why a store isn't opened.
pub fn opening_refusal_line(alloc: Global, error: OpenError) -> Result<Vec<u8>, AllocError>
    ensures { IfOk result (λ line. line.items ≡ lines.opening_refusal_line error) }
{
    match error {
        OpenError::BadCount => Vec::from_slice(alloc, b"refused bad count\n"),
        OpenError::BadOption => Vec::from_slice(alloc, b"refused bad option\n"),
        OpenError::SnapshotAhead(keep) => numbered_line(alloc, b"refused snapshot ahead ", keep),
        OpenError::TooManyRuns => Vec::from_slice(alloc, b"refused too many runs\n"),
        OpenError::Memory => Vec::from_slice(alloc, b"out of memory\n"),
    }
}

/// Prints the number of the line at fault.
pub fn print_fault<W: Write>(alloc: Global, line: u64, writer: &mut W) -> Result<Done, RunError>
    ensures printed { Prints (refused (texts.numbered_line (codes "fault line ") line)).replies
        (W.contents writer.old) (W.contents writer.new) result }
    ensures done { IfOk result (λ done. done ≡ Done.Refused) }
{
    let line = numbered_line(alloc, b"fault line ", line)?;
    print_refusal(&line, writer)
}

/// Prints why a store isn't opened.
pub fn print_refused_opening<W: Write>(
    alloc: Global,
    error: OpenError,
    writer: &mut W,
) -> Result<Done, RunError>
    ensures printed { Prints (refused (lines.opening_refusal_line error)).replies
        (W.contents writer.old) (W.contents writer.new) result }
    ensures done { IfOk result (λ done. done ≡ Done.Refused) }
{
    let line = opening_refusal_line(alloc, error)?;
    print_refusal(&line, writer)
}

/// Prints why a log is rejected.
pub fn print_bad_log<W: Write>(
    alloc: Global,
    ended: Ended,
    writer: &mut W,
) -> Result<Done, RunError>
    ensures printed { Prints (bad_log ended).replies (W.contents writer.old) (W.contents writer.new) result }
    ensures done { IfOk result (λ done. done ≡ Done.BadLog) }
{
    let line = ended_line(alloc, ended)?;
    write_bytes(writer, &line)?;
    Ok(Done::BadLog)
}
