//! [`Merger`]: merges several runs into one.
ghost use Rattle.std.specs.Prelude.{◌≡◌, ⊤, map, IfOk};
ghost use Rattle.std.specs.Arc.{arc_value};
ghost use Rattle.uc_compact.specs.Inputs.{Stand};
ghost use Rattle.uc_compact.specs.Output.{output_of};

use crate::output::merge_alone;
use crate::{Alone, By};
use std::alloc::{AllocError, Global};
use std::sync::Arc;
use uc_oper::Operator;
use uc_run::Run;

/// A merger of several runs into one: the calling thread [`Alone`], or [`By`] a function that may start threads. The result
/// is the same, whoever does it.
pub trait Merger<O: Operator> {
    /// The condition under which a merger may merge.
    ghost can_merge: { Self → Type 0 };

    /// The run that several runs become, the newest first. `oldest` says that the last of them is the oldest run of all.
    fn merge(
        &self,
        alloc: Global,
        inputs: &[Arc<Run>],
        keeps: &[u64],
        oldest: bool,
    ) -> Result<Run, AllocError>
        requires can { can_merge self.now }
        requires stand { Stand (map arc_value inputs.now) keeps.now }
        ensures { IfOk result (λ run.
            run ≡
            output_of O.meaning
            (record { inputs = map arc_value inputs.now; keeps = keeps.now; oldest = oldest })) };
}

impl<O: Operator> Merger<O> for Alone {
    ghost can_merge = { λ _. ⊤ };

    fn merge(
        &self,
        alloc: Global,
        inputs: &[Arc<Run>],
        keeps: &[u64],
        oldest: bool,
    ) -> Result<Run, AllocError> {
        merge_alone::<O>(alloc, inputs, keeps, oldest)
    }
}

impl<
    O: Operator,
    F: Fn(Global, &[Arc<Run>], &[u64], bool) -> Result<Run, AllocError> + Drop,
> Merger<O> for By<F> {
    ghost can_merge = { λ by. (alloc : _) (inputs : _) (keeps : _) (oldest : _) →
        Stand (map arc_value inputs.now) keeps.now →
        F.pre by.0 alloc inputs keeps oldest
        × ((result : _) → F.post by.0 alloc inputs keeps oldest result →
        IfOk result (λ run.
        run ≡
        output_of O.meaning
        (record { inputs = map arc_value inputs.now; keeps = keeps.now; oldest = oldest }))) };

    fn merge(
        &self,
        alloc: Global,
        inputs: &[Arc<Run>],
        keeps: &[u64],
        oldest: bool,
    ) -> Result<Run, AllocError> {
        (self.0)(alloc, inputs, keeps, oldest)
    }
}
