//! [`State`] and [`Step`]: a machine and an operation, encoded in numbers for C and Rust.
ghost use Rattle.std.specs.Prelude.{◌≡◌, ◌<◌, ◌^◌, Some, IfSome};
ghost use Rattle.uc_folder.specs.declared.machine.Machine.{Machine};
ghost use Rattle.uc_folder.specs.States as states;
ghost use Rattle.uc_folder.specs.States.{machine_of, state_of, step_of};

use crate::action::Action;
use crate::machine::Machine;
use crate::phases::{Checkpointer, NextLog, Writer};

/// A machine, encoded in numbers. Made by [`State::of`]. A caller that keeps one must not change it.
#[repr(C)]
#[derive(Debug, Clone, Copy, PartialEq, Eq)]
pub struct State {
    /// Number of the current log.
    pub log: u64,
    /// Number of batches in the current log.
    pub count: u64,
    /// Number of batches of the current log that may be acknowledged as synced. All batches of older logs may be.
    pub synced: u64,
    /// Number of the newest base whose name is durable.
    pub base: u64,
    /// No log or base has a number below this one.
    pub least: u64,
    /// Number of the newest base that may have its name.
    pub tried: u64,
    /// Number of batches of the log `tried` that this base contains.
    pub past: u64,
    /// Number in the writer's phase: of a log or of records. 0 if the phase has none.
    pub at: u64,
    /// During an opening, the greatest number of a log.
    pub top: u64,
    /// Number of the checkpointer's log or base. 0 while it is idle.
    pub number: u64,
    /// Number of batches of the log `number` that the checkpointer's base contains.
    pub part: u64,
    /// Code of the writer's phase.
    pub writer: u32,
    /// Code of the next log's state.
    pub next: u32,
    /// Code of the checkpointer's phase.
    pub checkpointer: u32,
    /// During an opening, true if the current log is sealed.
    pub is_sealed: bool,
}

/// An operation, encoded in numbers.
#[repr(C)]
#[derive(Debug, Clone, Copy, PartialEq, Eq)]
pub struct Step {
    /// Number of its log or base, or 0.
    pub number: u64,
    /// Number of batches or records, or 0.
    pub count: u64,
    /// Kind of the operation: the index of [`Action`]'s variant.
    pub kind: u32,
}

/// Returns the writer's phase that has these numbers, if there is one.
fn writer_of(code: u32, at: u64, top: u64, is_sealed: bool) -> Option<Writer>
    ensures { result ≡ states.writer_of code at top is_sealed }
{
    match code {
        0 => Some(Writer::Making),
        1 => Some(Writer::Founding),
        2 => Some(Writer::Naming(top, is_sealed)),
        3 => Some(Writer::Clearing(at, top, is_sealed)),
        4 => Some(Writer::SettingAside),
        5 => Some(Writer::Copying),
        6 => Some(Writer::SealingCopy),
        7 => Some(Writer::Replacing),
        8 => Some(Writer::Settling),
        9 => Some(Writer::Ready),
        10 => Some(Writer::Appending),
        11 => Some(Writer::Mending),
        12 => Some(Writer::Syncing(at)),
        13 => Some(Writer::Both(at)),
        14 => Some(Writer::Spoiled(at)),
        15 => Some(Writer::Closing),
        16 => Some(Writer::Failed),
        _ => None,
    }
}

/// Returns the state of the next log that has this code, if there is one.
fn next_of(code: u32) -> Option<NextLog>
    ensures { result ≡ states.next_of code }
{
    match code {
        0 => Some(NextLog::Absent),
        1 => Some(NextLog::Creating),
        2 => Some(NextLog::Recording),
        3 => Some(NextLog::Waiting),
        _ => None,
    }
}

/// Returns the checkpointer's phase that has these numbers, if there is one.
fn checkpointer_of(code: u32, number: u64, part: u64) -> Option<Checkpointer>
    ensures { result ≡ states.checkpointer_of code number part }
{
    match code {
        0 => Some(Checkpointer::Idle),
        1 => Some(Checkpointer::Writing(number, part)),
        2 => Some(Checkpointer::Sealing(number, part)),
        3 => Some(Checkpointer::Renaming(number, part)),
        4 => Some(Checkpointer::Fixing(number, part)),
        5 => Some(Checkpointer::RemovingLog(number)),
        6 => Some(Checkpointer::RemovingBase(number)),
        _ => None,
    }
}

/// Returns the code of a writer's phase.
fn writer_code(writer: Writer) -> u32
    ensures { result ≡ states.writer_code writer }
{
    match writer {
        Writer::Making => 0,
        Writer::Founding => 1,
        Writer::Naming(_, _) => 2,
        Writer::Clearing(_, _, _) => 3,
        Writer::SettingAside => 4,
        Writer::Copying => 5,
        Writer::SealingCopy => 6,
        Writer::Replacing => 7,
        Writer::Settling => 8,
        Writer::Ready => 9,
        Writer::Appending => 10,
        Writer::Mending => 11,
        Writer::Syncing(_) => 12,
        Writer::Both(_) => 13,
        Writer::Spoiled(_) => 14,
        Writer::Closing => 15,
        Writer::Failed => 16,
    }
}

/// Returns the number in a writer's phase, or 0.
fn writer_at(writer: Writer) -> u64
    ensures { result ≡ states.writer_at writer }
{
    match writer {
        Writer::Clearing(number, _, _) => number,
        Writer::Syncing(count) | Writer::Both(count) | Writer::Spoiled(count) => count,
        _ => 0,
    }
}

/// Returns the greatest number of a log during an opening, or 0.
fn writer_top(writer: Writer) -> u64
    ensures { result ≡ states.writer_top writer }
{
    match writer {
        Writer::Naming(top, _) | Writer::Clearing(_, top, _) => top,
        _ => 0,
    }
}

/// Returns true during an opening whose current log is sealed.
fn writer_sealed(writer: Writer) -> bool
    ensures { result ≡ states.writer_sealed writer }
{
    match writer {
        Writer::Naming(_, is_sealed) | Writer::Clearing(_, _, is_sealed) => is_sealed,
        _ => false,
    }
}

/// Returns the code of a next log's state.
fn next_code(next: NextLog) -> u32
    ensures { result ≡ states.next_code next }
{
    match next {
        NextLog::Absent => 0,
        NextLog::Creating => 1,
        NextLog::Recording => 2,
        NextLog::Waiting => 3,
    }
}

/// Returns the code of a checkpointer's phase.
fn checkpointer_code(checkpointer: Checkpointer) -> u32
    ensures { result ≡ states.checkpointer_code checkpointer }
{
    match checkpointer {
        Checkpointer::Idle => 0,
        Checkpointer::Writing(_, _) => 1,
        Checkpointer::Sealing(_, _) => 2,
        Checkpointer::Renaming(_, _) => 3,
        Checkpointer::Fixing(_, _) => 4,
        Checkpointer::RemovingLog(_) => 5,
        Checkpointer::RemovingBase(_) => 6,
    }
}

/// Returns the number of the log or base in a checkpointer's phase, or 0.
fn checkpointer_number(checkpointer: Checkpointer) -> u64
    ensures { result ≡ states.checkpointer_number checkpointer }
{
    match checkpointer {
        Checkpointer::Idle => 0,
        Checkpointer::Writing(number, _)
        | Checkpointer::Sealing(number, _)
        | Checkpointer::Renaming(number, _)
        | Checkpointer::Fixing(number, _)
        | Checkpointer::RemovingLog(number)
        | Checkpointer::RemovingBase(number) => number,
    }
}

/// Returns the number of batches in a checkpointer's phase, or 0.
fn checkpointer_part(checkpointer: Checkpointer) -> u64
    ensures { result ≡ states.checkpointer_part checkpointer }
{
    match checkpointer {
        Checkpointer::Writing(_, part)
        | Checkpointer::Sealing(_, part)
        | Checkpointer::Renaming(_, part)
        | Checkpointer::Fixing(_, part) => part,
        _ => 0,
    }
}

impl State {
    /// Returns the numbers of a machine.
    pub fn of(machine: Machine) -> State
        ensures { result ≡ state_of machine }
    {
        State {
            log: machine.log,
            count: machine.count,
            synced: machine.synced,
            base: machine.base,
            least: machine.least,
            tried: machine.tried,
            past: machine.past,
            at: writer_at(machine.writer),
            top: writer_top(machine.writer),
            number: checkpointer_number(machine.checkpointer),
            part: checkpointer_part(machine.checkpointer),
            writer: writer_code(machine.writer),
            next: next_code(machine.next),
            checkpointer: checkpointer_code(machine.checkpointer),
            is_sealed: writer_sealed(machine.writer),
        }
    }

    /// Returns the machine with these numbers. Returns `None` if there is none, or if `log` or `count` isn't below 2^63.
    pub fn machine(&self) -> Option<Machine>
        ensures value { result ≡ machine_of self.now }
        ensures small { IfSome result (λ m. (m.log < 2 ^ 63) × (m.count < 2 ^ 63)) }
    {
        let state = *self;
        if state.log >= 1 << 63 || state.count >= 1 << 63 {
            return None;
        }
        let writer = writer_of(state.writer, state.at, state.top, state.is_sealed);
        let next = next_of(state.next);
        let checkpointer = checkpointer_of(state.checkpointer, state.number, state.part);
        match (writer, next, checkpointer) {
            (Some(writer), Some(next), Some(checkpointer)) => Some(Machine {
                log: state.log,
                count: state.count,
                synced: state.synced,
                base: state.base,
                least: state.least,
                tried: state.tried,
                past: state.past,
                writer,
                next,
                checkpointer,
            }),
            _ => None,
        }
    }
}

impl Step {
    /// Returns the numbers of an operation.
    pub fn of(action: Action) -> Step
        ensures { result ≡ step_of action }
    {
        let (kind, number, count) = match action {
            Action::Nothing => (0, 0, 0),
            Action::CreateLog(number) => (1, number, 0),
            Action::Append(number, mark) => (2, number, mark),
            Action::SyncLog(number, count) => (3, number, count),
            Action::CutLog(number, count) => (4, number, count),
            Action::SyncNames => (5, 0, 0),
            Action::SetAside(number) => (6, number, 0),
            Action::CopyLog(number, count) => (7, number, count),
            Action::SyncCopy => (8, 0, 0),
            Action::NameCopy(number) => (9, number, 0),
            Action::WriteBase(number, past) => (10, number, past),
            Action::SyncBase => (11, 0, 0),
            Action::NameBase(number, past) => (12, number, past),
            Action::RemoveLog(number) => (13, number, 0),
            Action::RemoveBase(number) => (14, number, 0),
        };
        Step {
            number,
            count,
            kind,
        }
    }
}

/// Different machines have different numbers, if the numbers of their logs and of these logs' batches are below 2^63.
///
/// Proof step: does nothing when it runs.
pub fn machines_have_numbers()
    ensures { (m : Machine) → m.log < 2 ^ 63 → m.count < 2 ^ 63 → machine_of (state_of m) ≡ Some m }
{}
