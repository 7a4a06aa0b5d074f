//! Writes that are fed: why they are rejected, and the version after them.
ghost use Rattle.std.specs.Arc.{arc_value};
ghost use Rattle.std.specs.Prelude.{◌≡◌, ◌<◌, ◌^◌, ◌+◌, ◌++◌, ◌∷◌, ℕ, [], false, IfOk, length, slice_index_or};
ghost use Rattle.uc_version_state.specs.Versions.{IsVersion, slots_of};
ghost use Rattle.uc_version_state.specs.Flushes as flushes;
ghost use Rattle.uc_version_state.specs.Feeds as feeds;

use crate::cuts::memtable_count;
use crate::feed_error::FeedError;
use crate::placed::{Placed, push_shared};
use crate::version::Version;
use std::alloc::{AllocError, Global};
use std::sync::Arc;
use uc_bytes::Write;
use uc_claims::MOST_SLOTS;
use uc_run::Run;

/// Whether the first of some writes is above a sequence.
fn begin_above(last: u64, writes: &[Write]) -> bool
    ensures { result ≡ feeds.begin_above last writes.now }
{
    match writes.first() {
        None => true,
        Some(write) => last < write.seq,
    }
}

/// A flag for each of as many slots as there are runs: whether a run has it.
fn taken_slots(alloc: Global, runs: &[Placed]) -> Result<Vec<bool>, AllocError>
    ensures long { IfOk result (λ taken. length taken.items ≡ length runs.now) }
    ensures flags { IfOk result (λ taken. (slot : ℕ) → slot < length runs.now →
        slice_index_or taken.items slot false ≡ flushes.is_taken (slots_of runs.now) slot) }
{
    let mut taken = Vec::from_elem(alloc, false, runs.len())?;
    for placed in runs {
        let slot = placed.slot();
        if slot < taken.len() {
            taken[slot] = true;
        }
    }
    Ok(taken)
}

/// The least slot that no run has. It looks at each run once.
fn least_free(alloc: Global, runs: &[Placed]) -> Result<usize, AllocError>
    ensures { IfOk result (λ slot. slot ≡ flushes.least_free (slots_of runs.now)) }
{
    let taken = taken_slots(alloc, runs)?;
    for slot in 0..runs.len() {
        if !taken[slot] {
            return Ok(slot);
        }
    }
    Ok(runs.len())
}

/// Runs with their places before older ones, the newest first. The given ones come oldest first. They get ids from `id`
/// on, and each the least slot that none of those after it has.
pub fn placed_onto(
    alloc: Global,
    mut id: u64,
    mut placed: Vec<Placed>,
    runs: Vec<Run>,
) -> Result<Vec<Placed>, AllocError>
    requires { id + length runs.items < 2 ^ 64 }
    ensures { IfOk result (λ all. all.items ≡ flushes.placed_onto id placed.items runs.items) }
{
    for run in runs {
        let slot = least_free(alloc, &placed)?;
        let run = Arc::new(alloc, run)?;
        placed.insert(0, Placed { id, slot, run })?;
        id += 1;
    }
    Ok(placed)
}

impl Version {
    /// Why writes, whose sequences rise, aren't fed to a store that holds this, if they aren't. It goes over the writes,
    /// and doesn't allocate.
    pub fn feed_refusal(&self, writes: &[Write]) -> Option<FeedError>
        ensures { result ≡ feeds.feed_refusal self.now writes.now }
    {
        self.flushed_refusal(writes, memtable_count(self.limit(), writes))
    }

    /// Why writes that fill `count` memtables aren't fed, if they aren't. It looks at the first of them alone, and doesn't
    /// allocate.
    pub fn flushed_refusal(&self, writes: &[Write], count: usize) -> Option<FeedError>
        requires { count ≡ length (feeds.memtables_in self.now writes.now) }
        ensures { result ≡ feeds.feed_refusal self.now writes.now }
    {
        if !begin_above(self.last(), writes) {
            return Some(FeedError::Back(self.last()));
        }
        if count > MOST_SLOTS || self.runs().len() > MOST_SLOTS - count {
            return Some(FeedError::TooManyRuns);
        }
        if count as u64 > u64::MAX - self.next_id() {
            return Some(FeedError::IdsSpent);
        }
        None
    }

    /// The version with runs before all others, as a new one that shares those. The given ones come oldest first, and
    /// `last` is their last sequence.
    pub fn with_runs(&self, alloc: Global, runs: Vec<Run>, last: u64) -> Result<Version, AllocError>
        requires { IsVersion (feeds.with_runs runs.items last self.now) }
        ensures { IfOk result (λ version. version ≡ feeds.with_runs runs.items last self.now) }
    {
        let count = runs.len() as u64;
        let mut shared = Vec::with_capacity(alloc, self.runs().len() + runs.len())?;
        push_shared(&mut shared, self.runs())?;
        let placed = placed_onto(alloc, self.next_id(), shared, runs)?;
        let keeps = self.keeps().to_vec(alloc)?;
        Ok(Version::new(placed, keeps, last, self.next_id() + count, self.limit()))
    }

    /// The version with a run before all others, as a new one that shares it and those. The run stays with the caller too.
    pub fn with_run(&self, alloc: Global, run: &Arc<Run>, last: u64) -> Result<Version, AllocError>
        requires { IsVersion (feeds.with_runs (arc_value run.now ∷ []) last self.now) }
        ensures { IfOk result (λ version. version ≡ feeds.with_runs (arc_value run.now ∷ []) last self.now) }
    {
        let mut all = Vec::with_capacity(alloc, self.runs().len() + 1)?;
        push_shared(&mut all, self.runs())?;
        let slot = least_free(alloc, &all)?;
        let id = self.next_id();
        let shared = run.clone()?;
        let first = Placed {
            id,
            slot,
            run: shared,
        };
        all.insert(0, first)?;
        let keeps = self.keeps().to_vec(alloc)?;
        Ok(Version::new(all, keeps, last, id + 1, self.limit()))
    }
}
