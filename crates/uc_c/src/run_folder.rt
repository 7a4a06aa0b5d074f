//! Directories whose checkpoints are lists of run files: the runs that opening reads, and which runs are written, synced and removed
//! around the operations of `folders.rt`. A base is a list there. C holds a [`RunState`] beside the [`State`] of the directory.
ghost use Rattle.std.specs.Prelude.{◌≡◌, ◌⊎◌};
ghost use Rattle.uc_folder.specs.States.{state_of};
ghost use Rattle.uc_run_folder.specs.RunStates.{run_state_of, run_step_of};
ghost use Rattle.uc_run_folder.specs.Steps.{opened, next_checkpoint, told_checkpoint, may_write, asking, next_removal};
ghost use Rattle.uc_c.specs.declared.status.TheConstants.{OK};
ghost use Rattle.uc_c.specs.Folders.{IfMachine};
ghost use Rattle.uc_c.specs.RunFolders.{FindsRuns, IfRunFolder, machine_with};

use crate::status::{NO_FOLDER, OK};
use uc_folder::{State, Step};
use uc_run_folder::{RunFault, RunFolder, RunState, run_step, runs_found_in};

/// The machine of some numbers; none if they are no machine's.
fn machine_of(state: &State, runs: &RunState) -> Option<RunFolder>
    ensures { result ≡ machine_with state.now runs.now }
{
    match state.machine() {
        Some(folder) => runs.machine(folder),
        None => None,
    }
}

/// Stores the number of the next run of a directory with these run files, in any order, where the list that opening reads names the runs
/// in `named`. If one of these is missing, stores its number instead, and 0 as the next one. If no number is left, both are 0.
#[unsafe(no_mangle)]
pub extern "C" fn ucstore_run_folder_find(
    named: &[u64],
    listed: &[u64],
    next: &mut u64,
    missing: &mut u64,
) -> i32
    ensures finds { FindsRuns named.now listed.now next.new missing.new }
    ensures ok { result ≡ OK }
{
    match runs_found_in(named, listed) {
        Ok(number) => {
            *next = number;
            *missing = 0;
        }
        Err(RunFault::Missing(number)) => {
            *next = 0;
            *missing = number;
        }
        Err(RunFault::Spent(_)) => {
            *next = 0;
            *missing = 0;
        }
    }
    OK
}

/// Opens the machine of a directory that `ucstore_folder_open` has opened, whose next run has this number.
#[unsafe(no_mangle)]
pub extern "C" fn ucstore_run_folder_open(state: &State, next: u64, runs: &mut RunState) -> i32
    ensures opened { IfMachine result state.now (λ m. runs.new ≡ run_state_of (opened m next)) }
    ensures untold { (result ≡ OK) ⊎ (runs.new ≡ runs.old) }
{
    let Some(folder) = state.machine() else {
        return NO_FOLDER;
    };
    *runs = RunState::of(RunFolder::open(folder, next));
    OK
}

/// Stores the checkpointer's next operation.
#[unsafe(no_mangle)]
pub extern "C" fn ucstore_run_folder_next_checkpoint(
    state: &State,
    runs: &RunState,
    step: &mut Step,
) -> i32
    ensures told { IfRunFolder result state.now runs.now (λ m. step.new ≡ run_step_of (next_checkpoint m.phase m.folder.checkpointer)) }
    ensures untold { (result ≡ OK) ⊎ (step.new ≡ step.old) }
{
    let Some(machine) = machine_of(state, runs) else {
        return NO_FOLDER;
    };
    *step = run_step(machine.next_checkpoint());
    OK
}

/// Records whether the checkpointer's operation succeeded.
#[unsafe(no_mangle)]
pub extern "C" fn ucstore_run_folder_told_checkpoint(
    state: &mut State,
    runs: &mut RunState,
    is_done: bool,
) -> i32
    ensures folder { IfRunFolder result state.old runs.old (λ m. state.new ≡ state_of (told_checkpoint m is_done).folder) }
    ensures runs { IfRunFolder result state.old runs.old (λ m. runs.new ≡ run_state_of (told_checkpoint m is_done)) }
    ensures folder_untold { (result ≡ OK) ⊎ (state.new ≡ state.old) }
    ensures runs_untold { (result ≡ OK) ⊎ (runs.new ≡ runs.old) }
{
    let Some(mut machine) = machine_of(state, runs) else {
        return NO_FOLDER;
    };
    machine.told_checkpoint(is_done);
    *state = State::of(machine.folder);
    *runs = RunState::of(machine);
    OK
}

/// Requests a list made of the logs before a number, and of some batches of the log of that number. It names the runs in `kept`, which are
/// among those of the newest list (`named`), and `count` new ones. Changes nothing unless the machine may begin.
#[unsafe(no_mangle)]
pub extern "C" fn ucstore_run_folder_ask_checkpoint(
    state: &State,
    runs: &mut RunState,
    number: u64,
    past: u64,
    kept: &[u64],
    named: &[u64],
    count: u64,
) -> i32
    ensures asked { IfRunFolder result state.now runs.old (λ m.
        runs.new ≡ run_state_of (asking m (may_write m number past kept.now named.now count) number past count)) }
    ensures untold { (result ≡ OK) ⊎ (runs.new ≡ runs.old) }
{
    let Some(mut machine) = machine_of(state, runs) else {
        return NO_FOLDER;
    };
    machine.ask_checkpoint(number, past, kept, named, count);
    *runs = RunState::of(machine);
    OK
}

/// Stores the operation that removes a run, where the newest list names the runs in `named`. There is nothing to do if the run must stay.
#[unsafe(no_mangle)]
pub extern "C" fn ucstore_run_folder_next_removal(
    state: &State,
    runs: &RunState,
    run: u64,
    named: &[u64],
    step: &mut Step,
) -> i32
    ensures told { IfRunFolder result state.now runs.now (λ m. step.new ≡ run_step_of (next_removal m run named.now)) }
    ensures untold { (result ≡ OK) ⊎ (step.new ≡ step.old) }
{
    let Some(machine) = machine_of(state, runs) else {
        return NO_FOLDER;
    };
    *step = run_step(machine.next_removal(run, named));
    OK
}
