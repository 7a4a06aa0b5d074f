//! The end of a run, once all is printed or where it stops.

ghost use Rattle.std.specs.Prelude.{◌≡◌};
ghost use Rattle.uc_tool_io.specs.Writing.{AppendsFront};
ghost use Rattle.uc_tool_io.specs.Ending.{Finishes, FinishesWithoutInput, FlushesAndEnds};

use crate::done::Done;
use crate::input::InputError;
use crate::output::write_bytes;
use crate::run_error::RunError;
use std::io::Write;

/// Flushes what was written before a run ends so.
fn flush_and_end<W: Write>(writer: &mut W, done: Done) -> Done
    ensures { FlushesAndEnds done (W.contents writer.old) (W.contents writer.new) result }
{
    match writer.flush() {
        Ok(()) => done,
        Err(_) => Done::Device,
    }
}

/// Ends a run: says where memory ran out, and flushes what was written. After a write fault nothing more
/// is written.
pub fn finish<W: Write>(writer: &mut W, outcome: Result<Done, RunError>) -> Done
    ensures { Finishes outcome (W.contents writer.old) (W.contents writer.new) result }
{
    match outcome {
        Ok(done) => flush_and_end(writer, done),
        Err(RunError::Device) => Done::Device,
        Err(RunError::Memory) => match write_bytes(writer, b"out of memory\n") {
            Ok(()) => flush_and_end(writer, Done::NoMemory),
            Err(_) => Done::Device,
        },
    }
}

/// Ends a run whose device failed or whose input is too long, with a message.
fn fail<W: Write>(writer: &mut W, text: &[u8]) -> Done
    ensures front { AppendsFront (W.contents writer.old) (W.contents writer.new) text.now }
    ensures device { result ≡ Done.Device }
{
    if write_bytes(writer, text).is_ok() {
        let _ = writer.flush();
    }
    Done::Device
}

/// Ends a run whose input couldn't be read whole.
pub fn finish_without_input<W: Write>(writer: &mut W, error: InputError) -> Done
    ensures { FinishesWithoutInput error (W.contents writer.old) (W.contents writer.new) result }
{
    match error {
        InputError::Memory => finish(writer, Err(RunError::Memory)),
        InputError::Fault => fail(writer, b"read fault\n"),
        InputError::TooLong => fail(writer, b"input too long\n"),
    }
}
