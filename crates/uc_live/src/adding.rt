//! Runs that are added to a live store: a store is opened from the runs of a view.
ghost use Rattle.std.specs.Prelude.{◌≡◌, ◌↔◌, ◌<◌, [], ◌∷◌, IsTrue, IfOk, IfErr};
ghost use Rattle.std.specs.List.{AllByRecursion, list_any};
ghost use Rattle.uc_claims.specs.declared.table.TheConstants.{MOST_SLOTS};
ghost use Rattle.uc_version_state.specs.Versions.{slots_of};
ghost use Rattle.uc_version_state.specs.Feeds.{with_runs};
ghost use Rattle.uc_version.specs.Owners.{is_busy, unclaimed};
ghost use Rattle.uc_live.specs.Adding.{AddsRun, HasPlace, IsAbove, IsQuiet, IsUnclaimed, RefusesRun};
ghost use Rattle.uc_live.specs.declared.add_run_error.AddRunError.TheVariants as errors;

use crate::add_run_error::AddRunError;
use crate::live_store::LiveStore;
use std::alloc::Global;
use std::sync::Arc;
use uc_claims::MOST_SLOTS;
use uc_memtable::FlushableMemtables;
use uc_oper::Operator;
use uc_run::Run;
use uc_version::{Options, Owned, Version};
use uc_version_state::Placed;

/// Whether a run is above all that a version has.
fn is_above(version: &Version, run: &Run) -> bool
    ensures { IsTrue result ↔ IsAbove version.now run.now }
{
    version.last() < run.low_seq()
}

/// Whether a slot and an id are left for a run.
fn has_place(version: &Version) -> bool
    ensures { IsTrue result ↔ HasPlace version.now }
{
    version.runs().len() < MOST_SLOTS && version.next_id() != u64::MAX
}

/// Whether one of some runs, which have slots, is claimed.
fn has_claimed_run<O: Operator>(owned: &Owned<O>, runs: &[Placed]) -> bool
    requires { AllByRecursion (λ slot. slot < MOST_SLOTS) (slots_of runs.now) }
    ensures { result ≡ list_any (λ p. is_busy owned.now p.slot) runs.now }
{
    for placed in runs {
        if owned.busy(placed.slot()) {
            return true;
        }
    }
    false
}

/// Whether no run of an owner is claimed.
fn is_unclaimed<O: Operator>(owned: &Owned<O>) -> bool
    ensures { IsTrue result ↔ IsUnclaimed owned.now }
{
    owned.recall();
    !has_claimed_run(owned, owned.version().runs())
}

/// The version with a run before all others.
fn version_with(alloc: Global, version: &Version, run: Run) -> Result<Version, AddRunError>
    requires above { IsAbove version.now run }
    requires place { HasPlace version.now }
    ensures ok { IfOk result (λ next. next ≡ with_runs (run ∷ []) run.high version.now) }
    ensures err { IfErr result (λ error. error ≡ errors.Memory) }
{
    version.recall();
    run.recall();
    let last = run.high_seq();
    let run = Arc::new(alloc, run)?;
    let next = version.with_run(alloc, &run, last)?;
    Ok(next)
}

/// The owner with a run before all others, and without claims.
fn owned_with<O: Operator>(
    alloc: Global,
    owned: &Owned<O>,
    options: Options,
    run: Run,
) -> Result<Owned<O>, AddRunError>
    requires { owned.now.options ≡ options }
    ensures above { IfOk result (λ _. IsAbove owned.now.version run) }
    ensures place { IfOk result (λ _. HasPlace owned.now.version) }
    ensures ok { IfOk result (λ next. next ≡ unclaimed (with_runs (run ∷ []) run.high owned.now.version) options) }
    ensures order { IfErr result (λ error. error ≡ errors.Order → ¬ IsAbove owned.now.version run) }
    ensures full { IfErr result (λ error. error ≡ errors.Full → ¬ HasPlace owned.now.version) }
    ensures never { IfErr result (λ error. error ≡ errors.Busy → ⊥) }
{
    owned.recall();
    let version = owned.version();
    if !is_above(version, &run) {
        return Err(AddRunError::Order);
    }
    if !has_place(version) {
        return Err(AddRunError::Full);
    }
    let next = version_with(alloc, version, run)?;
    let owner = Owned::new(alloc, next, options)?;
    Ok(owner)
}

/// Whether no write is in memtables or prepared.
fn has_no_write(active: &FlushableMemtables) -> bool
    ensures { IsTrue result ↔ ((active.now.shown ≡ []) × (active.now.waiting ≡ [])) }
{
    if active.is_waiting() {
        return false;
    }
    active.is_empty()
}

impl<O: Operator> LiveStore<O> {
    /// Whether no write is in memtables or prepared, and no run is claimed.
    fn is_quiet(&self) -> bool
        ensures { IsTrue result ↔ IsQuiet self.now }
    {
        has_no_write(&self.active) && is_unclaimed(&self.owned)
    }

    /// Adds a run, which is newer than all that the store has. Its last sequence number becomes the store's. Returns the run's id. Copies
    /// nothing of it.
    ///
    /// A new store to which the runs of a view are added, the oldest first, answers at its last sequence number as the view does: the laws
    /// are in `standing_laws.rt`. Snapshots aren't in runs, and writes in memtables aren't either. An `Err` changes nothing.
    pub fn add_run(&mut self, alloc: Global, run: Run) -> Result<u64, AddRunError>
        ensures ok { IfOk result (AddsRun self.old self.new run) }
        ensures err { IfErr result (λ error. RefusesRun self.old run error × (self.new ≡ self.old)) }
    {
        if !self.is_quiet() {
            return Err(AddRunError::Busy);
        }
        let id = self.owned.version().next_id();
        match owned_with(alloc, &self.owned, self.options.store, run) {
            Ok(next) => {
                self.owned = next;
                Ok(id)
            }
            Err(error) => Err(error),
        }
    }
}
