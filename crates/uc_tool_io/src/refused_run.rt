//! Runs that fail with one line.

ghost use Rattle.std.specs.Prelude.{◌≡◌, IfOk};
ghost use Rattle.uc_tool_io.specs.Output.{Prints, refused};

use crate::done::Done;
use crate::output::write_bytes;
use crate::run_error::RunError;
use std::io::Write;

/// Prints the one line of a run that fails.
pub fn print_refusal<W: Write>(line: &[u8], writer: &mut W) -> Result<Done, RunError>
    ensures printed { Prints (refused line.now).replies (W.contents writer.old) (W.contents writer.new) result }
    ensures done { IfOk result (λ done. done ≡ Done.Refused) }
{
    write_bytes(writer, line)?;
    Ok(Done::Refused)
}
