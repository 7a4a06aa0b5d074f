//! Directories of databases, whose files C keeps: the files that opening reads, and the state machine that determines the next file
//! operation. C holds the machine as a [`State`] of numbers, executes each [`Step`], and reports whether it succeeded.
ghost use Rattle.std.specs.Prelude.{◌≡◌, ◌⊎◌};
ghost use Rattle.uc_folder.specs.States.{state_of, step_of};
ghost use Rattle.uc_folder.specs.Steps.{
  next_write,
  told_write,
  next_make,
  told_make,
  next_sync,
  told_sync,
  next_checkpoint,
  told_checkpoint,
  submitting,
  syncing,
  asking_next,
  switching,
  may_begin,
  checkpointing,
  opened,
};
ghost use Rattle.uc_c.specs.declared.status.TheConstants.{OK, LOG_MISSING};
ghost use Rattle.uc_c.specs.Folders.{FindsFiles, IfMachine};

use crate::status::{LOG_MISSING, NO_FOLDER, OK};
use uc_folder::{Base, Found, Listed, Machine, Missing, State, Step, found_in};

/// Stores the files that opening reads of a directory with these bases and logs, in any order. Logs in the order of their numbers
/// are each visited once. If a log is missing between the newest base and the last log, stores its number instead.
#[unsafe(no_mangle)]
pub extern "C" fn ucstore_folder_find(
    bases: &[Base],
    logs: &[Listed],
    found: &mut Found,
    missing: &mut u64,
) -> i32
    ensures finds { FindsFiles result bases.now logs.now found.new missing.new }
    ensures found_untold { (result ≡ OK) ⊎ (found.new ≡ found.old) }
    ensures missing_untold { (result ≡ LOG_MISSING) ⊎ (missing.new ≡ missing.old) }
{
    match found_in(bases, logs) {
        Ok(files) => {
            *found = files;
            OK
        }
        Err(Missing(number)) => {
            *missing = number;
            LOG_MISSING
        }
    }
}

/// Opens the machine of a directory in which opening found these files. It keeps `count` batches of the current log, and gives those
/// after them up. The log is sealed if all of it is kept and durable. A sealed log isn't copied.
#[unsafe(no_mangle)]
pub extern "C" fn ucstore_folder_open(
    found: &Found,
    count: u64,
    is_sealed: bool,
    state: &mut State,
) -> i32
    ensures opened { state.new ≡ state_of (opened found.now count is_sealed) }
    ensures ok { result ≡ OK }
{
    *state = State::of(Machine::open(*found, count, is_sealed));
    OK
}

/// Stores the writer's next operation.
#[unsafe(no_mangle)]
pub extern "C" fn ucstore_folder_next_write(state: &State, step: &mut Step) -> i32
    ensures told { IfMachine result state.now (λ m. step.new ≡ step_of (next_write m.writer m.log m.count m.synced)) }
    ensures untold { (result ≡ OK) ⊎ (step.new ≡ step.old) }
{
    let Some(machine) = state.machine() else {
        return NO_FOLDER;
    };
    *step = Step::of(machine.next_write());
    OK
}

/// Stores the operation that creates the next log, while batches are appended to this one.
#[unsafe(no_mangle)]
pub extern "C" fn ucstore_folder_next_make(state: &State, step: &mut Step) -> i32
    ensures told { IfMachine result state.now (λ m. step.new ≡ step_of (next_make m.next m.log)) }
    ensures untold { (result ≡ OK) ⊎ (step.new ≡ step.old) }
{
    let Some(machine) = state.machine() else {
        return NO_FOLDER;
    };
    *step = Step::of(machine.next_make());
    OK
}

/// Stores the sync of the log that is due. A batch may be appended while it runs.
#[unsafe(no_mangle)]
pub extern "C" fn ucstore_folder_next_sync(state: &State, step: &mut Step) -> i32
    ensures told { IfMachine result state.now (λ m. step.new ≡ step_of (next_sync m.writer m.log)) }
    ensures untold { (result ≡ OK) ⊎ (step.new ≡ step.old) }
{
    let Some(machine) = state.machine() else {
        return NO_FOLDER;
    };
    *step = Step::of(machine.next_sync());
    OK
}

/// Stores the checkpointer's next operation.
#[unsafe(no_mangle)]
pub extern "C" fn ucstore_folder_next_checkpoint(state: &State, step: &mut Step) -> i32
    ensures told { IfMachine result state.now (λ m. step.new ≡ step_of (next_checkpoint m.checkpointer)) }
    ensures untold { (result ≡ OK) ⊎ (step.new ≡ step.old) }
{
    let Some(machine) = state.machine() else {
        return NO_FOLDER;
    };
    *step = Step::of(machine.next_checkpoint());
    OK
}

/// Records whether the writer's operation succeeded.
#[unsafe(no_mangle)]
pub extern "C" fn ucstore_folder_told_write(state: &mut State, is_done: bool) -> i32
    ensures told { IfMachine result state.old (λ m. state.new ≡ state_of (told_write m is_done)) }
    ensures untold { (result ≡ OK) ⊎ (state.new ≡ state.old) }
{
    let Some(mut machine) = state.machine() else {
        return NO_FOLDER;
    };
    machine.told_write(is_done);
    *state = State::of(machine);
    OK
}

/// Records whether the creation of the next log succeeded.
#[unsafe(no_mangle)]
pub extern "C" fn ucstore_folder_told_make(state: &mut State, is_done: bool) -> i32
    ensures told { IfMachine result state.old (λ m. state.new ≡ state_of (told_make m is_done)) }
    ensures untold { (result ≡ OK) ⊎ (state.new ≡ state.old) }
{
    let Some(mut machine) = state.machine() else {
        return NO_FOLDER;
    };
    machine.told_make(is_done);
    *state = State::of(machine);
    OK
}

/// Records whether the sync of the log succeeded.
#[unsafe(no_mangle)]
pub extern "C" fn ucstore_folder_told_sync(state: &mut State, is_done: bool) -> i32
    ensures told { IfMachine result state.old (λ m. state.new ≡ state_of (told_sync m is_done)) }
    ensures untold { (result ≡ OK) ⊎ (state.new ≡ state.old) }
{
    let Some(mut machine) = state.machine() else {
        return NO_FOLDER;
    };
    machine.told_sync(is_done);
    *state = State::of(machine);
    OK
}

/// Records whether the checkpointer's operation succeeded.
#[unsafe(no_mangle)]
pub extern "C" fn ucstore_folder_told_checkpoint(state: &mut State, is_done: bool) -> i32
    ensures told { IfMachine result state.old (λ m. state.new ≡ state_of (told_checkpoint m is_done)) }
    ensures untold { (result ≡ OK) ⊎ (state.new ≡ state.old) }
{
    let Some(mut machine) = state.machine() else {
        return NO_FOLDER;
    };
    machine.told_checkpoint(is_done);
    *state = State::of(machine);
    OK
}

/// Submits a batch, which the writer appends next. Changes nothing unless the writer may take it.
#[unsafe(no_mangle)]
pub extern "C" fn ucstore_folder_submit(state: &mut State) -> i32
    ensures asked { IfMachine result state.old (λ m. state.new ≡ state_of (record m { writer = submitting m.writer })) }
    ensures untold { (result ≡ OK) ⊎ (state.new ≡ state.old) }
{
    let Some(mut machine) = state.machine() else {
        return NO_FOLDER;
    };
    machine.submit();
    *state = State::of(machine);
    OK
}

/// Submits a batch, as `ucstore_folder_submit` does, and stores the writer's next operation: the append of the batch, if the writer may
/// take it.
#[unsafe(no_mangle)]
pub extern "C" fn ucstore_folder_append(state: &mut State, step: &mut Step) -> i32
    ensures asked { IfMachine result state.old (λ m. (state.new ≡ state_of (record m { writer = submitting m.writer }))
        × (step.new ≡ step_of (next_write (submitting m.writer) m.log m.count m.synced))) }
    ensures untold { (result ≡ OK) ⊎ ((state.new ≡ state.old) × (step.new ≡ step.old)) }
{
    let Some(mut machine) = state.machine() else {
        return NO_FOLDER;
    };
    machine.submit();
    let next = machine.next_write();
    *step = Step::of(next);
    *state = State::of(machine);
    OK
}

/// Requests a sync of all that was appended. Changes nothing while a sync is running.
#[unsafe(no_mangle)]
pub extern "C" fn ucstore_folder_ask_sync(state: &mut State) -> i32
    ensures asked { IfMachine result state.old (λ m. state.new ≡ state_of (record m { writer = syncing m.writer m.count })) }
    ensures untold { (result ≡ OK) ⊎ (state.new ≡ state.old) }
{
    let Some(mut machine) = state.machine() else {
        return NO_FOLDER;
    };
    machine.ask_sync();
    *state = State::of(machine);
    OK
}

/// Requests the next log. Changes nothing unless the directory is open, and no next log is being created.
#[unsafe(no_mangle)]
pub extern "C" fn ucstore_folder_ask_next(state: &mut State) -> i32
    ensures asked { IfMachine result state.old (λ m. state.new ≡ state_of (record m { next = asking_next m.writer m.next })) }
    ensures untold { (result ≡ OK) ⊎ (state.new ≡ state.old) }
{
    let Some(mut machine) = state.machine() else {
        return NO_FOLDER;
    };
    machine.ask_next();
    *state = State::of(machine);
    OK
}

/// Requests the switch to the next log. Changes nothing unless it exists and the writer is ready.
#[unsafe(no_mangle)]
pub extern "C" fn ucstore_folder_ask_switch(state: &mut State) -> i32
    ensures asked { IfMachine result state.old (λ m. state.new ≡ state_of (record m { writer = switching m.writer m.next })) }
    ensures untold { (result ≡ OK) ⊎ (state.new ≡ state.old) }
{
    let Some(mut machine) = state.machine() else {
        return NO_FOLDER;
    };
    machine.ask_switch();
    *state = State::of(machine);
    OK
}

/// Requests a base made of the logs before a number, and of some batches of the log of that number. Changes nothing unless the
/// directory is open, no base is being written, none has as much, and all of it is in older logs.
#[unsafe(no_mangle)]
pub extern "C" fn ucstore_folder_ask_checkpoint(state: &mut State, number: u64, past: u64) -> i32
    ensures asked { IfMachine result state.old (λ m. state.new ≡ state_of (record m {
      checkpointer = checkpointing m.checkpointer (may_begin m number past) number past;
    })) }
    ensures untold { (result ≡ OK) ⊎ (state.new ≡ state.old) }
{
    let Some(mut machine) = state.machine() else {
        return NO_FOLDER;
    };
    machine.ask_checkpoint(number, past);
    *state = State::of(machine);
    OK
}
