//! [`compact`]: several runs made into one.
ghost use Rattle.std.specs.Prelude.{◌≡◌, ◌<◌, map, IfOk};
ghost use Rattle.std.specs.Arc.{arc_value};
ghost use Rattle.uc_compact.specs.Inputs.{Stand};
ghost use Rattle.uc_compact.specs.Output.{output_of};

use crate::compacted::Compacted;
use crate::inputs::{are_runs, shared};
use crate::merger::Merger;
use crate::output::{merge_by_parts, merge_in_threads};
use std::alloc::{AllocError, Global};
use std::marker::{PhantomData, Sync};
use std::sync::Arc;
use std::thread::Threads;
use uc_oper::Operator;
use uc_run::Run;

/// The runs with the run that they become.
fn compacted_of<O: Operator>(
    alloc: Global,
    inputs: &[Arc<Run>],
    keeps: &[u64],
    oldest: bool,
    output: Run,
) -> Result<Compacted<O>, AllocError>
    requires stand { Stand (map arc_value inputs.now) keeps.now }
    requires output { output ≡
        output_of O.meaning
        (record { inputs = map arc_value inputs.now; keeps = keeps.now; oldest = oldest }) }
    ensures { IfOk result (λ made.
        made ≡ record { inputs = map arc_value inputs.now; keeps = keeps.now; oldest = oldest }) }
{
    are_runs(inputs);
    Ok(Compacted {
        inputs: shared(alloc, inputs)?,
        keeps: keeps.to_vec(alloc)?,
        oldest,
        output: Arc::new(alloc, output)?,
        operator: PhantomData,
    })
}

/// Several runs, the newest first, made into one. It reads as they do at every keep, and at and above their greatest
/// sequence (RocksDB wiki, "Universal Compaction"). `oldest` says that the last of them is the oldest run of all, so
/// nothing lies below it. Then no delete, merge or range deletion is left in the stripe of its first sequence.
///
/// It goes once over the points. It leaves at most one of a key's points between two neighbouring keeps, and folds many
/// operands of one key in two threads. Of the range deletions over a key it searches only for the newest between two
/// neighbouring keeps. Large inputs are merged in four parts of the key space: three of them in threads of their own, and
/// one by the calling thread.
pub fn compact<O: Operator + Sync>(
    rt: &(impl Threads + Sync),
    alloc: Global,
    inputs: &[Arc<Run>],
    keeps: &[u64],
    oldest: bool,
) -> Result<Compacted<O>, AllocError>
    requires { Stand (map arc_value inputs.now) keeps.now }
    ensures { IfOk result (λ made.
        made ≡ record { inputs = map arc_value inputs.now; keeps = keeps.now; oldest = oldest }) }
{
    let output = merge_in_threads::<O>(rt, alloc, inputs, keeps, oldest)?;
    compacted_of::<O>(alloc, inputs, keeps, oldest, output)
}

/// Several runs made into one as [`compact`] does, by this merger.
pub fn compact_by<O: Operator, M: Merger<O>>(
    merger: &M,
    alloc: Global,
    inputs: &[Arc<Run>],
    keeps: &[u64],
    oldest: bool,
) -> Result<Compacted<O>, AllocError>
    requires can { M.can_merge merger.now }
    requires stand { Stand (map arc_value inputs.now) keeps.now }
    ensures { IfOk result (λ made.
        made ≡ record { inputs = map arc_value inputs.now; keeps = keeps.now; oldest = oldest }) }
{
    let output = merger.merge(alloc, inputs, keeps, oldest)?;
    compacted_of::<O>(alloc, inputs, keeps, oldest, output)
}

/// Several runs made into one as [`compact`] does, in at most this many parts of the key space, with about as many points
/// each. Each but the first is merged in a thread of its own, or in this one if none can be started. The output is the
/// same for any number of parts.
pub fn compact_by_parts<O: Operator + Sync>(
    rt: &(impl Threads + Sync),
    alloc: Global,
    inputs: &[Arc<Run>],
    keeps: &[u64],
    oldest: bool,
    parts: usize,
) -> Result<Compacted<O>, AllocError>
    requires stand { Stand (map arc_value inputs.now) keeps.now }
    requires parts { 0 < parts }
    ensures { IfOk result (λ made.
        made ≡ record { inputs = map arc_value inputs.now; keeps = keeps.now; oldest = oldest }) }
{
    let output = merge_by_parts::<O>(rt, alloc, inputs, keeps, oldest, parts)?;
    compacted_of::<O>(alloc, inputs, keeps, oldest, output)
}
