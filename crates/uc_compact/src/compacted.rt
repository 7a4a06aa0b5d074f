//! [`Compacted`]: a compaction with its result.
ghost use Rattle.std.specs.Prelude.{◌≡◌, map};
ghost use Rattle.std.specs.Arc.{arc_value};
ghost use Rattle.uc_compact.specs.Inputs.{AreRuns, Stand};
ghost use Rattle.uc_compact.specs.Output.{output_of};
ghost use Rattle.uc_compact.specs.Reading.{KeepsReads};

use crate::compaction_keeps_what_is_read;
use std::marker::{Model, PhantomData};
use std::sync::Arc;
use uc_oper::Operator;
use uc_run::Run;

/// Runs that were compacted, and the run that was made of them. A contract sees it as what was asked for: the runs, the
/// keeps, and whether the oldest run of all was among them. These determine its output.
pub struct Compacted<O: Operator> {
    pub(crate) inputs: Vec<Arc<Run>>,
    pub(crate) keeps: Vec<u64>,
    pub(crate) oldest: bool,
    pub(crate) output: Arc<Run>,
    pub(crate) operator: PhantomData<O>,
}

impl<O: Operator> Model for Compacted<O> {
    ghost use Rattle.uc_compact.specs.Inputs.{Compaction};
    ghost use Rattle.uc_compact.specs.Made.{asked, IsMade};

    ghost Value = { Compaction };

    ghost view = { asked };

    ghost invariant = { IsMade O.meaning };
}

// A destructor of its own: where a value is dropped, the proof of a caller has one call, and not one for each field.
impl<O: Operator> Drop for Compacted<O> {
    fn drop(self) {
        let Compacted {
            inputs: _,
            keeps: _,
            oldest: _,
            output: _,
            operator: _,
        } = self;
    }
}

impl<O: Operator> Compacted<O> {
    /// The runs that were compacted, the newest first.
    pub fn inputs(&self) -> &[Arc<Run>]
        ensures { map arc_value result.now ≡ self.now.inputs }
    {
        &self.inputs
    }

    /// The sequences at which it reads as its inputs do.
    pub fn keeps(&self) -> &[u64]
        ensures { result.now ≡ self.now.keeps }
    {
        &self.keeps
    }

    /// Whether the oldest run is among its inputs, so that nothing may lie below the output.
    pub fn oldest(&self) -> bool
        ensures { result ≡ self.now.oldest }
    {
        self.oldest
    }

    /// The run that replaces the inputs.
    pub fn output(&self) -> &Arc<Run>
        ensures { arc_value result.now ≡ output_of O.meaning self.now }
    {
        &self.output
    }

    /// The run alone, moved out.
    pub fn into_output(self) -> Arc<Run>
        ensures { arc_value result ≡ output_of O.meaning self }
    {
        let Compacted {
            inputs: _,
            keeps: _,
            oldest: _,
            output,
            operator: _,
        } = self;
        output
    }

    /// The invariant of every value: the runs are runs, and they and the keeps may be compacted together. Proof step: does
    /// nothing when it runs.
    pub fn recall_standing(&self)
        ensures runs { AreRuns self.now.inputs }
        ensures stand { Stand self.now.inputs self.now.keeps }
    {
        let _ = &self.oldest;
    }

    /// The output replaces its inputs. At each of its keeps, and at and above the greatest sequence of the inputs, its
    /// writes do to every key what theirs do. If the oldest run is among them, they give the values that theirs give.
    /// Proof step: does nothing when it runs.
    pub fn stands_for_inputs(&self)
        ensures { KeepsReads O.meaning self.now (output_of O.meaning self.now) }
    {
        compaction_keeps_what_is_read::<O>();
        self.recall_standing();
    }
}
