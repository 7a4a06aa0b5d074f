//! [`through_buffer`]: a run that writes through a buffer.
use std::alloc::Global;
use std::io::{BufWriter, Write};
use uc_tool_io::{Done, Refusal};
use uc_tool_opening::Outcome;

/// Drops a writer. Nothing is written after a failed write: then the buffer's contents are discarded, since its drop would try to
/// write them again.
fn let_go<W: Write + Drop>(writer: BufWriter<W>, done: Done) {
    if done == Done::Device {
        let (_inner, _unwritten) = writer.into_parts();
    }
}

/// Runs something through a buffer in front of a writer. Nothing is written after a write that failed.
///
/// Fails with [`Refusal::Memory`] if the buffer can't be allocated.
pub fn through_buffer<W: Write + Drop, F: FnOnce(&mut BufWriter<W>) -> Outcome>(
    alloc: Global,
    inner: W,
    run: F,
) -> Result<Outcome, Refusal>
    requires { F.IsAlwaysCallable run }
{
    let Ok(mut writer) = BufWriter::new(alloc, inner) else {
        return Err(Refusal::Memory);
    };
    let outcome = run(&mut writer);
    let_go(writer, outcome.done);
    Ok(outcome)
}
