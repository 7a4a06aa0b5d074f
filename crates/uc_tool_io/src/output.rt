//! Writing all of some bytes.

ghost use Rattle.std.specs.Prelude.{◌≡◌, OnOk, OnErr, IfErr};
ghost use Rattle.std.specs.Io.KnownBytes.{Appends};
ghost use Rattle.uc_tool_io.specs.Writing.{AppendsFront};

use crate::run_error::RunError;
use std::io::Write;

/// Writes all of the bytes. Where the writer fails, what went out is a front of them.
pub fn write_bytes<W: Write>(writer: &mut W, bytes: &[u8]) -> Result<(), RunError>
    ensures ok { OnOk result (Appends (W.contents writer.old) (W.contents writer.new) bytes.now) }
    ensures err { OnErr result (AppendsFront (W.contents writer.old) (W.contents writer.new) bytes.now) }
    ensures device { IfErr result (λ e. e ≡ RunError.Device) }
{
    let mut rest = bytes;
    while !rest.is_empty() {
        match writer.write(rest) {
            Ok(count) if count > 0 => rest = &rest[count..],
            _ => return Err(RunError::Device),
        }
    }
    Ok(())
}
