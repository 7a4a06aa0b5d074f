//! [`Placed`]: a run with its place in a store.
ghost use Rattle.std.specs.Prelude.{◌≡◌, ◌++◌, IfOk, OnOk};
ghost use Rattle.std.specs.Arc.{arc_value};

use std::alloc::AllocError;
use std::marker::Model;
use std::sync::Arc;
use uc_run::Run;

/// A run with its place in a store. A contract sees its contents, not how they are shared.
#[derive(Drop)]
pub struct Placed {
    /// Its number, which no other run of the store ever has.
    pub id: u64,
    /// Its slot, which no other run has before it is replaced.
    pub slot: usize,
    /// The run itself.
    pub run: Arc<Run>,
}

impl Model for Placed {
    ghost use Rattle.uc_version_state.specs.Versions.{PlacedRun};
    ghost use Rattle.uc_version_state.specs.Placing.{placed};

    ghost Value = { PlacedRun };

    ghost view = { placed };
}

impl Placed {
    /// Its number.
    pub fn id(&self) -> u64
        ensures { result ≡ self.now.id }
    {
        self.id
    }

    /// Its slot.
    pub fn slot(&self) -> usize
        ensures { result ≡ self.now.slot }
    {
        self.slot
    }

    /// The run with its place again. It shares the run.
    pub fn shared(&self) -> Result<Placed, AllocError>
        ensures { IfOk result (λ again. again ≡ self.now) }
    {
        Ok(Placed {
            id: self.id,
            slot: self.slot,
            run: self.run.clone()?,
        })
    }

    /// The run itself.
    pub fn run(&self) -> &Arc<Run>
        ensures { arc_value result.now ≡ self.now.run }
    {
        &self.run
    }
}

/// Pushes the runs, shared, after those that are there.
pub(crate) fn push_shared(all: &mut Vec<Placed>, runs: &[Placed]) -> Result<(), AllocError>
    ensures { OnOk result (all.new.items ≡ all.old.items ++ runs.now) }
{
    for placed in runs {
        all.push(placed.shared()?)?;
    }
    Ok(())
}
