//! [`run_over_input`]: a whole run: all of the input is read, work is done over it, and the run ends.

ghost use Rattle.std.specs.Prelude.{◌≡◌, ◌≢◌, ℕ, List, IfSome, IfNone};
ghost use Rattle.uc_tool_io.specs.Ending.{IsWhole};
ghost use Rattle.uc_tool_io.specs.Output.{Output, HasWritten};
ghost use Rattle.uc_tool_io.specs.Works.{TakesInput, PrintsOutput, WasDone};

use crate::done::Done;
use crate::ending::{finish, finish_without_input};
use crate::gathered::Gathered;
use crate::input::read_input;
use crate::run_error::RunError;
use std::alloc::Global;
use std::io::{Read, Write};

/// Reads all of the input, does `work` over it, and ends the run: reports it if memory ran out, and flushes what was written.
/// Returns how the run ended, and the work's result with its outcome, unless the input can't be read. The work's type decides in
/// which buffer the input is read.
pub fn run_over_input<R: Read, W: Write, I, T, F>(
    alloc: Global,
    reader: &mut R,
    writer: &mut W,
    work: F,
) -> (Done, Option<T>)
where
    F: FnOnce(I, &mut W) -> (Result<Done, RunError>, T) + Drop,
    I: Gathered + Drop,
    T: Drop,
    requires { TakesInput I.bytes F.FnOnce work }
    ensures written { (program : List ℕ → Output) → ((input : List ℕ) → IsWhole (program input).done) →
        PrintsOutput I.bytes F.FnOnce work W.contents program →
        IfSome (R.remaining reader.old) (λ input.
        HasWritten (program input) input (W.contents writer.old) (W.contents writer.new) result.0) }
    ensures told { IfSome result.1 (λ told.
        WasDone I.bytes F.FnOnce work W.contents (R.remaining reader.old) (W.contents writer.old) (W.contents writer.new)
        result.0 told) }
    ensures untold { IfNone result.1 (result.0 ≢ Done.Refused) }
{
    match read_input::<R, I>(alloc, reader) {
        Ok(input) => {
            let (outcome, told) = work(input, writer);
            (finish(writer, outcome), Some(told))
        }
        Err(error) => (finish_without_input(writer, error), None),
    }
}
