//! The compactions that universal compaction makes of a store, one after the other.

ghost use Rattle.std.specs.Prelude.{◌≡◌, ◌≤◌, length, IfOk};
ghost use Rattle.uc_tool.specs.Compacting.{IsStep};
ghost use Rattle.uc_tool.specs.Report.{compactions_of};
ghost use Rattle.uc_tool_io.specs.Output.{Prints};

use std::alloc::{AllocError, Global};
use std::io::Write;
use std::marker::Sync;
use std::thread::Threads;
use uc_oper::Operator;
use uc_tool_io::{RunError, write_bytes};
use uc_tool_opening::{compacted_line, install_refusal_line};
use uc_version::{CompactError, InstallError, Owned, picks_can_be_claimed};

/// The next step.
#[derive(Drop)]
enum Step {
    /// Nothing is picked.
    Nothing,
    /// A compaction failed, with this line.
    Last(Vec<u8>),
    /// A stretch was compacted, with this line.
    Compacted(Vec<u8>),
}

/// Compacts what is picked, if anything is.
fn compact_picked<O: Operator + Sync>(
    rt: &(impl Threads + Sync),
    alloc: Global,
    owned: &mut Owned<O>,
) -> Result<Step, AllocError>
    ensures { IfOk result (λ step. IsStep O.meaning owned.old step owned.new) }
{
    owned.recall();
    picks_can_be_claimed();
    let Some(stretch) = owned.pick() else {
        return Ok(Step::Nothing);
    };
    match owned.compact_now(rt, alloc, stretch) {
        Ok(id) => Ok(Step::Compacted(compacted_line(alloc, stretch, id)?)),
        Err(CompactError::IdsSpent) => {
            Ok(Step::Last(install_refusal_line(alloc, InstallError::IdsSpent)?))
        }
        Err(CompactError::Memory) => Err(AllocError),
        Err(CompactError::NotClaimed(_)) => unreachable!(),
    }
}

/// Compacts as long as something is picked, and prints a line for each compaction as soon as it is made.
pub fn print_compactions<O: Operator + Sync, W: Write>(
    rt: &(impl Threads + Sync),
    alloc: Global,
    owned: &mut Owned<O>,
    writer: &mut W,
) -> Result<(), RunError>
    ensures printed { Prints (compactions_of O.meaning owned.old).lines (W.contents writer.old)
        (W.contents writer.new) result }
    ensures left { IfOk result (λ _. owned.new ≡ (compactions_of O.meaning owned.old).owner) }
{
    for _ in 0..owned.version().runs().len() {
        match compact_picked(rt, alloc, owned)? {
            Step::Nothing => return Ok(()),
            Step::Last(line) => return write_bytes(writer, &line),
            Step::Compacted(line) => write_bytes(writer, &line)?,
        }
    }
    Ok(())
}
