//! [`Install`]: a compaction's output, and the runs that it replaces.
ghost use Rattle.std.specs.Prelude.{◌≡◌, ◌≤◌, IfOk, length};
ghost use Rattle.std.specs.Arc.{arc_value};
ghost use Rattle.std.specs.List.Sorted.{IsStrictlySortedBy};
ghost use Rattle.std.specs.Ordering.{nat_cmp};
ghost use Rattle.uc_version_state.specs.HeldInstalls.{IsInstall};

use std::alloc::AllocError;
use std::marker::Model;
use std::sync::Arc;
use uc_run::Run;

/// A compaction that is installed: its inputs by their ids, the newest first; the keeps that it was made for; whether
/// the oldest run of all is among its inputs; and its output. A contract sees the output's contents, not how they are
/// shared.
#[derive(Drop)]
pub struct Install {
    ids: Vec<u64>,
    keeps: Vec<u64>,
    oldest: bool,
    output: Arc<Run>,
}

impl Model for Install {
    ghost use Rattle.uc_version_state.specs.Installs as installs;
    ghost use Rattle.uc_version_state.specs.HeldInstalls.{install, HoldsInstall};

    ghost Value = { installs.Install };

    ghost view = { install };

    ghost invariant = { HoldsInstall };
}

impl Clone for Install {
    ghost is_clone = { λ install copy. copy ≡ install };

    /// A copy, which shares the output.
    fn clone(&self) -> Result<Install, AllocError>
        ensures { IfOk result (λ copy. copy ≡ self.now) }
    {
        Ok(Install {
            ids: self.ids.clone()?,
            keeps: self.keeps.clone()?,
            oldest: self.oldest,
            output: self.output.clone()?,
        })
    }
}

impl Install {
    /// The install of an output that replaces the runs with these ids, two or more, the newest first. It was compacted
    /// for these keeps, which rise. `oldest` says whether the oldest run of all was among them.
    pub fn new(ids: Vec<u64>, keeps: Vec<u64>, oldest: bool, output: Arc<Run>) -> Install
        requires two { 2 ≤ length ids.items }
        requires keeps_rise { IsStrictlySortedBy nat_cmp keeps.items }
        ensures { result ≡ record { ids = ids.items; keeps = keeps.items; oldest = oldest; output = arc_value output } }
    {
        Install {
            ids,
            keeps,
            oldest,
            output,
        }
    }

    /// Its inputs by their ids, the newest first.
    pub fn ids(&self) -> &[u64]
        ensures { result.now ≡ self.now.ids }
    {
        &self.ids
    }

    /// The keeps that it was made for, which rise.
    pub fn keeps(&self) -> &[u64]
        ensures { result.now ≡ self.now.keeps }
    {
        &self.keeps
    }

    /// Whether the oldest run of all is among its inputs.
    pub fn oldest(&self) -> bool
        ensures { result ≡ self.now.oldest }
    {
        self.oldest
    }

    /// The run that replaces them.
    pub fn output(&self) -> &Arc<Run>
        ensures { arc_value result.now ≡ self.now.output }
    {
        &self.output
    }

    /// The invariant of every install: its inputs are two runs or more, and its keeps rise. Proof step: does nothing when
    /// it runs.
    pub fn recall(&self)
        ensures { IsInstall self.now }
    {
        let _ = &self.oldest;
    }
}
