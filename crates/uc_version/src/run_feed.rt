//! A run that is fed to an owner's store: writes that were flushed away from it.
ghost use Rattle.std.specs.Arc.{arc_value};
ghost use Rattle.std.specs.Prelude.{◌≡◌, ◌⊎◌, None, Some, List, IfOk, IfErr, OnOk};
ghost use Rattle.uc_bytes.specs.declared.write.Write.{Write};
ghost use Rattle.uc_version_state.specs.Feeds.{fed, feed_refusal};
ghost use Rattle.uc_version_state.specs.declared.feed_error.FeedError.TheVariants.{Memory};
ghost use Rattle.uc_version.specs.Feeding as feeding;
ghost use Rattle.uc_version.specs.Feeding.{IsOfWrites, MakesRun, Shows};

use crate::claims::move_down;
use crate::memtable_feed::run_refusal;
use crate::owned::Owned;
use std::alloc::{AllocError, Global};
use std::sync::Arc;
use uc_oper::Operator;
use uc_run::Run;
use uc_version_state::{
    FeedError, Version, feeds_and_keeps_give_versions, no_refusal_is_leave_to_feed,
    small_writes_fill_one_memtable,
};

/// The version with a run of writes that are fed, as a new one that shares it and the runs which were there. It costs one
/// look at the runs for their slots.
fn version_with_run(
    alloc: Global,
    version: &Version,
    run: &Arc<Run>,
    last: u64,
) -> Result<Version, AllocError>
    requires { (writes : List Write) × MakesRun version.now (arc_value run.now) last writes × (feed_refusal version.now writes ≡ None) }
    ensures { IfOk result (λ next. (writes : List Write) → MakesRun version.now (arc_value run.now) last writes → next ≡ fed writes version.now) }
{
    version.recall();
    feeds_and_keeps_give_versions();
    no_refusal_is_leave_to_feed();
    small_writes_fill_one_memtable();
    version.with_run(alloc, run, last)
}

impl<O: Operator> Owned<O> {
    /// Shows the version after writes were fed that make one run.
    fn show_run(&mut self, next: Version)
        requires { (writes : List Write) × Shows self.old.version next writes }
        ensures { (writes : List Write) → Shows self.old.version next writes → self.new ≡ feeding.after_feed writes self.old }
    {
        no_refusal_is_leave_to_feed();
        feeds_and_keeps_give_versions();
        self.version = next;
        move_down(&mut self.claims, 1);
    }

    /// Feeds writes whose run is made already; `last` is their last sequence number. The result and the errors are those of
    /// [`feed`](Owned::feed) with a list of these writes. It copies and sorts nothing, and shares the run with the caller.
    pub fn feed_run(&mut self, alloc: Global, run: &Arc<Run>, last: u64) -> Result<(), FeedError>
        requires { IsOfWrites self.old.version (arc_value run.now) last }
        ensures ok { OnOk result ((writes : List Write) → MakesRun self.old.version (arc_value run.now) last writes →
            (feed_refusal self.old.version writes ≡ None) × (self.new ≡ feeding.after_feed writes self.old)) }
        ensures same { IfErr result (λ _. self.new ≡ self.old) }
        ensures err { IfErr result (λ error. (writes : List Write) → MakesRun self.old.version (arc_value run.now) last writes →
            (feed_refusal self.old.version writes ≡ Some error)
            ⊎ ((feed_refusal self.old.version writes ≡ None) × (error ≡ Memory))) }
    {
        small_writes_fill_one_memtable();
        if let Some(error) = run_refusal(&self.version) {
            return Err(error);
        }
        match version_with_run(alloc, &self.version, run, last) {
            Ok(next) => {
                self.show_run(next);
                Ok(())
            }
            Err(_) => Err(FeedError::Memory),
        }
    }
}
