//! One course of a folder with runs, and listings.
use crate::{Phase, RunAction, RunFault, RunFolder, RunState, is_orphan, run_step, runs_found_in};
use uc_folder::{Action, Found, Machine, Step};

/// A folder of two logs, of which the first one has all batches. It is open.
fn folder() -> Machine {
    let found = Found {
        base: 1,
        past: 0,
        least: 1,
        log: 2,
        is_there: true,
        top: 2,
    };
    let mut machine = Machine::open(found, 0, true);
    machine.told_write(true);
    machine.told_write(true);
    machine
}

/// The checkpointer's next operation, which is done.
fn done(machine: &mut RunFolder) -> RunAction {
    let action = machine.next_checkpoint();
    machine.told_checkpoint(true);
    action
}

/// Two runs are written.
fn write_runs(machine: &mut RunFolder) -> [RunAction; 5] {
    machine.ask_checkpoint(2, 0, &[], &[], 2);
    [
        done(machine),
        done(machine),
        done(machine),
        done(machine),
        done(machine),
    ]
}

/// Their list is made, and read back.
fn make_list(machine: &mut RunFolder) -> [RunAction; 5] {
    [
        done(machine),
        done(machine),
        done(machine),
        done(machine),
        done(machine),
    ]
}

/// Logs, lists and runs are removed that the list makes obsolete.
fn remove(machine: &mut RunFolder) -> [RunAction; 5] {
    [
        done(machine),
        done(machine),
        machine.next_checkpoint(),
        machine.next_removal(4, &[5, 6]),
        machine.next_removal(5, &[5, 6]),
    ]
}

#[test]
fn a_list_names_runs_that_are_there(rt: HostRuntime) {
    let mut machine = RunFolder::open(folder(), 5);
    let written = write_runs(&mut machine);
    assert_eq!(rt;
        written,
        [
            RunAction::WriteRun(5),
            RunAction::SyncRun(5),
            RunAction::WriteRun(6),
            RunAction::SyncRun(6),
            RunAction::NameRuns,
        ]
    );
    let listed = make_list(&mut machine);
    assert_eq!(rt;
        listed,
        [
            RunAction::OfFolder(Action::WriteBase(2, 0)),
            RunAction::OfFolder(Action::SyncBase),
            RunAction::OfFolder(Action::NameBase(2, 0)),
            RunAction::OfFolder(Action::SyncNames),
            RunAction::ReadBack,
        ]
    );
    let removed = remove(&mut machine);
    assert_eq!(rt;
        removed,
        [
            RunAction::OfFolder(Action::RemoveLog(1)),
            RunAction::OfFolder(Action::RemoveBase(1)),
            RunAction::OfFolder(Action::Nothing),
            RunAction::RemoveRun(4),
            RunAction::Wait,
        ]
    );
}

/// A run can't be written. Its number is spent, and the list isn't made.
fn fail(machine: &mut RunFolder) -> (RunAction, Phase, u64) {
    machine.ask_checkpoint(2, 0, &[], &[], 1);
    let action = machine.next_checkpoint();
    machine.told_checkpoint(false);
    (action, machine.phase, machine.next)
}

#[test]
fn the_number_of_a_failed_run_is_spent(rt: HostRuntime) {
    let mut machine = RunFolder::open(folder(), 5);
    let failed = fail(&mut machine);
    assert_eq!(rt; failed, (RunAction::WriteRun(5), Phase::Between, 6));
    let removal = machine.next_removal(5, &[]);
    assert_eq!(rt; removal, RunAction::RemoveRun(5));
}

/// A list can't be read back: nothing is removed, and no run of it is kept.
fn misread(machine: &mut RunFolder) -> (RunAction, RunAction, Phase) {
    let _ = write_runs(machine);
    let _ = [done(machine), done(machine), done(machine), done(machine)];
    machine.told_checkpoint(false);
    let next = machine.next_checkpoint();
    let removal = machine.next_removal(4, &[5, 6]);
    machine.ask_checkpoint(3, 0, &[5], &[5, 6], 1);
    (next, removal, machine.phase)
}

#[test]
fn nothing_goes_where_a_list_is_not_read_back(rt: HostRuntime) {
    let mut machine = RunFolder::open(folder(), 5);
    let misread = misread(&mut machine);
    assert_eq!(rt;
        misread,
        (
            RunAction::OfFolder(Action::Nothing),
            RunAction::Wait,
            Phase::Between
        )
    );
    assert!(rt; !machine.is_read);
}

#[test]
fn an_opening_finds_the_runs_that_are_named(rt: HostRuntime) {
    assert_eq!(rt; runs_found_in(&[3, 7], &[9, 7, 3]), Ok(10));
    assert_eq!(rt;
        runs_found_in(&[3, 8, 2], &[9, 7, 3]),
        Err(RunFault::Missing(8))
    );
    assert_eq!(rt; runs_found_in(&[], &[]), Ok(1));
    assert_eq!(rt;
        runs_found_in(&[], &[u64::MAX]),
        Err(RunFault::Spent(u64::MAX))
    );
    assert!(rt; is_orphan(9, &[3, 7]) && !is_orphan(7, &[3, 7]));
}

/// The numbers of a machine whose run is synced.
fn numbered() -> (Phase, RunState) {
    let mut machine = RunFolder::open(folder(), 5);
    machine.ask_checkpoint(2, 0, &[], &[], 2);
    machine.told_checkpoint(true);
    (machine.phase, RunState::of(machine))
}

#[test]
fn a_machine_comes_back_from_its_numbers(rt: HostRuntime) {
    let (phase, state) = numbered();
    assert_eq!(rt;
        (state.phase, state.number, state.run, state.last, state.next),
        (2, 2, 5, 6, 7)
    );
    let back = state.machine(folder()).map(|machine| machine.phase);
    assert_eq!(rt; back, Some(phase));
    let other = RunState { phase: 6, ..state };
    assert!(rt; other.machine(folder()).is_none());
    let step = run_step(RunAction::WriteRun(5));
    assert_eq!(rt;
        step,
        Step {
            number: 5,
            count: 0,
            kind: 15
        }
    );
}
