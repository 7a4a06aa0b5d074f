//! The runs of a view, and runs that are added to an engine.
ghost use Rattle.std.specs.Prelude.{◌≡◌, IfOk, IfErr};
ghost use Rattle.uc_live.specs.Adding.{AddsRun, RefusesRun};

use crate::each_operator::with_each;
use crate::engine::{AnyStore, Engine};
use crate::engine_view::EngineView;
use std::alloc::Global;
use uc_live::AddRunError;
use uc_run::Run;
use uc_version_state::Placed;

impl EngineView {
    /// Its runs, the newest first.
    pub fn runs(&self) -> &[Placed]
        ensures { result.now ≡ self.now.seen.version.runs }
    {
        self.version().runs()
    }
}

impl Engine {
    /// Adds a run before all others, and returns its id, as `LiveStore::add_run` does. An `Err` changes nothing.
    pub fn add_run(&mut self, alloc: Global, run: Run) -> Result<u64, AddRunError>
        ensures kind { self.new.kind ≡ self.old.kind }
        ensures ok { IfOk result (AddsRun self.old.live self.new.live run) }
        ensures err { IfErr result (λ error. RefusesRun self.old.live run error × (self.new.live ≡ self.old.live)) }
    {
        with_each!(AnyStore, &mut self.store, store => store.add_run(alloc, run))
    }
}
