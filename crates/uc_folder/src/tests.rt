//! One history of a directory, and listings.
use crate::{Action, Base, Found, Listed, Machine, Missing, found_in};

/// Returns the writer's next operation, and reports success.
fn written(machine: &mut Machine) -> Action {
    if machine.log > 9 || machine.count > 9 {
        return Action::Nothing;
    }
    let action = machine.next_write();
    machine.told_write(true);
    action
}

/// Returns the requested sync, and reports success.
fn synced(machine: &mut Machine) -> Action {
    let action = machine.next_sync();
    machine.told_sync(true);
    action
}

/// Returns the checkpointer's next operation, and reports success.
fn checkpointed(machine: &mut Machine) -> Action {
    let action = machine.next_checkpoint();
    machine.told_checkpoint(true);
    action
}

/// Returns the operation that creates the next log, and reports success.
fn next_made(machine: &mut Machine) -> Action {
    if machine.log > 9 {
        return Action::Nothing;
    }
    let action = machine.next_make();
    machine.told_make(true);
    action
}

/// In a new directory, appends a batch during a sync of the previous one, and another while the next log is created. Then switches to the
/// next log.
fn grow(machine: &mut Machine) -> [Action; 8] {
    let made = written(machine);
    let named = written(machine);
    machine.submit();
    let first = written(machine);
    machine.ask_sync();
    machine.submit();
    machine.ask_next();
    let done = synced(machine);
    let next = next_made(machine);
    let second = written(machine);
    let recorded = next_made(machine);
    machine.ask_switch();
    [
        made,
        named,
        first,
        done,
        next,
        second,
        recorded,
        written(machine),
    ]
}

/// Makes a base of the log before the current one.
fn shrink(machine: &mut Machine) -> [Action; 7] {
    machine.ask_checkpoint(2, 0);
    [
        checkpointed(machine),
        checkpointed(machine),
        checkpointed(machine),
        checkpointed(machine),
        checkpointed(machine),
        checkpointed(machine),
        checkpointed(machine),
    ]
}

/// Returns the result of opening an empty directory.
fn empty() -> Found {
    Found {
        base: 1,
        past: 0,
        least: 1,
        log: 1,
        is_there: false,
        top: 1,
    }
}

#[test]
fn a_log_grows_and_a_base_lets_it_go(rt: HostRuntime) {
    let mut machine = Machine::open(empty(), 0, false);
    let grown = grow(&mut machine);
    assert_eq!(rt;
        grown,
        [
            Action::CreateLog(1),
            Action::SyncNames,
            Action::Append(1, 0),
            Action::SyncLog(1, 1),
            Action::CreateLog(2),
            Action::Append(1, 1),
            Action::SyncNames,
            Action::SyncLog(1, 2),
        ]
    );
    let shrunk = shrink(&mut machine);
    assert_eq!(rt;
        shrunk,
        [
            Action::WriteBase(2, 0),
            Action::SyncBase,
            Action::NameBase(2, 0),
            Action::SyncNames,
            Action::RemoveLog(1),
            Action::RemoveBase(1),
            Action::Nothing,
        ]
    );
    assert!(rt; machine.is_open());
}

/// Fails an append during a sync. Its remains are cut off when the sync ends.
fn spoil(machine: &mut Machine) -> [Action; 4] {
    machine.submit();
    machine.ask_sync();
    let append = refused(machine);
    let wait = written(machine);
    let sync = synced(machine);
    [append, wait, sync, written(machine)]
}

/// Returns the writer's next operation, and reports failure.
fn refused(machine: &mut Machine) -> Action {
    if machine.log > 9 || machine.count > 9 {
        return Action::Nothing;
    }
    let action = machine.next_write();
    machine.told_write(false);
    action
}

#[test]
fn a_sealed_log_is_not_copied_and_a_spoiled_one_is_mended(rt: HostRuntime) {
    let found = Found {
        top: 2,
        is_there: true,
        ..empty()
    };
    let mut machine = Machine::open(found, 5, true);
    let opened = [
        written(&mut machine),
        written(&mut machine),
        written(&mut machine),
    ];
    assert_eq!(rt;
        opened,
        [Action::SyncNames, Action::RemoveLog(2), Action::SyncNames]
    );
    let spoiled = spoil(&mut machine);
    assert_eq!(rt;
        spoiled,
        [
            Action::Append(1, 5),
            Action::Nothing,
            Action::SyncLog(1, 5),
            Action::CutLog(1, 5),
        ]
    );
    assert!(rt; machine.is_open());
}

/// Keeps three batches of a log, and removes the log after it.
fn renew(machine: &mut Machine) -> [Action; 7] {
    [
        written(machine),
        written(machine),
        written(machine),
        written(machine),
        written(machine),
        written(machine),
        written(machine),
    ]
}

#[test]
fn batches_that_are_kept_are_copied(rt: HostRuntime) {
    let found = Found {
        log: 2,
        top: 3,
        is_there: true,
        ..empty()
    };
    let mut machine = Machine::open(found, 3, false);
    let renewed = renew(&mut machine);
    assert_eq!(rt;
        renewed,
        [
            Action::SyncNames,
            Action::RemoveLog(3),
            Action::SetAside(2),
            Action::CopyLog(2, 3),
            Action::SyncCopy,
            Action::NameCopy(2),
            Action::SyncNames,
        ]
    );
    let is_open = machine.is_open();
    let synced = machine.synced;
    assert!(rt; is_open && synced == 3);
}

/// Returns the result of opening a directory with two bases of one number and three logs, the last of which has no batch.
fn listed(numbers: [u64; 3]) -> Result<Found, Missing> {
    let bases = [Base { number: 4, past: 7 }, Base { number: 4, past: 9 }];
    let [first, second, third] = numbers;
    let logs = [
        Listed {
            number: first,
            is_used: true,
        },
        Listed {
            number: third,
            is_used: false,
        },
        Listed {
            number: second,
            is_used: true,
        },
    ];
    found_in(&bases, &logs)
}

#[test]
fn an_opening_finds_the_newest_base_and_its_logs(rt: HostRuntime) {
    let found = Found {
        base: 4,
        past: 9,
        least: 4,
        log: 5,
        is_there: true,
        top: 6,
    };
    assert_eq!(rt; listed([4, 5, 6]), Ok(found));
    assert_eq!(rt; listed([4, 6, 7]), Err(Missing(5)));
}
