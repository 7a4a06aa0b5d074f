//! A run that replaces neighbouring ones, and the version after an install.
ghost use Rattle.std.specs.Prelude.{◌≡◌, ◌+◌, ◌<◌, ◌≤◌, ◌∷◌, ◌++◌, IfOk, length, take, drop};
ghost use Rattle.std.specs.Arc.{arc_value};
ghost use Rattle.uc_version_state.specs.Versions.{IsVersion};
ghost use Rattle.uc_version_state.specs.Installs as installs;
ghost use Rattle.uc_version_state.specs.Installs.{MayInstall, part_of, slot_of};

use crate::install::Install;
use crate::laws::install_gives_a_version;
use crate::placed::{Placed, push_shared};
use crate::standing::{newest_id, place_of};
use crate::version::Version;
use std::alloc::{AllocError, Global};
use std::sync::Arc;
use uc_oper::Operator;
use uc_run::Run;

/// Removes `count` runs after the first ones.
fn remove_runs(runs: &mut Vec<Placed>, first: usize, count: usize)
    requires { first + count ≤ length runs.old.items }
    ensures { runs.new.items ≡ take first runs.old.items ++ drop (first + count) runs.old.items }
{
    for _ in 0..count {
        runs.remove(first);
    }
}

/// Replaces `count` runs after the first ones by a run, with an id of its own and the slot of the newest of them.
fn replace_runs(runs: &mut Vec<Placed>, first: usize, count: usize, id: u64, run: Arc<Run>)
    requires some { 0 < count }
    requires within { first + count ≤ length runs.old.items }
    ensures { runs.new.items ≡
        take first runs.old.items
        ++ record {
          id = id;
          slot = slot_of (part_of first count runs.old.items);
          run = arc_value
              run;
        }
        ∷ drop (first + count) runs.old.items }
{
    let slot = runs[first].slot;
    runs[first] = Placed { id, slot, run };
    remove_runs(runs, first + 1, count - 1);
}

/// The runs, shared, with one that replaces `count` others after the first ones. It gets an id of its own and the slot
/// of the newest of them.
fn replaced_runs(
    alloc: Global,
    runs: &[Placed],
    first: usize,
    count: usize,
    new: Placed,
) -> Result<Vec<Placed>, AllocError>
    requires { first + count ≤ length runs.now }
    ensures { IfOk result (λ all. all.items ≡ take first runs.now ++ new ∷ drop (first + count) runs.now) }
{
    let mut all = Vec::with_capacity(alloc, first + 1)?;
    push_shared(&mut all, &runs[..first])?;
    all.push(new)?;
    push_shared(&mut all, &runs[first + count..])?;
    Ok(all)
}

impl Version {
    /// Replaces `count` runs after the first ones by a run. It gets the next id, and the slot of the newest of them. It
    /// moves the runs after them, and copies no run.
    pub fn replace(&mut self, first: usize, count: usize, run: Arc<Run>)
        requires some { 0 < count }
        requires within { first + count ≤ length self.old.runs }
        requires version { IsVersion (installs.replaced first count (arc_value run) self.old) }
        ensures { self.new ≡ installs.replaced first count (arc_value run) self.old }
    {
        replace_runs(&mut self.runs, first, count, self.next_id, run);
        self.next_id += 1;
    }

    /// A new version, in which a run replaces `count` others after the first ones. It gets the next id, and the slot of
    /// the newest of them. The version shares the runs.
    fn with_replaced(
        &self,
        alloc: Global,
        first: usize,
        count: usize,
        run: &Arc<Run>,
    ) -> Result<Version, AllocError>
        requires some { 0 < count }
        requires within { first + count ≤ length self.now.runs }
        requires version { IsVersion (installs.replaced first count (arc_value run.now) self.now) }
        ensures { IfOk result (λ version. version ≡ installs.replaced first count (arc_value run.now) self.now) }
    {
        let runs = self.runs();
        let id = self.next_id();
        let new = Placed {
            id,
            slot: runs[first].slot(),
            run: run.clone()?,
        };
        let runs = replaced_runs(alloc, runs, first, count, new)?;
        let keeps = self.keeps().to_vec(alloc)?;
        Ok(Version::new(runs, keeps, self.last(), id + 1, self.limit()))
    }

    /// The version after an install, as a new one that shares the runs.
    pub fn installed<O: Operator>(
        &self,
        alloc: Global,
        install: &Install,
    ) -> Result<Version, AllocError>
        requires { MayInstall O.meaning self.now install.now }
        ensures { IfOk result (λ version. version ≡ installs.installed install.now self.now) }
    {
        self.recall();
        install_gives_a_version::<O>();
        let first = place_of(self.runs(), newest_id(install.ids()));
        self.with_replaced(alloc, first, install.ids().len(), install.output())
    }
}
