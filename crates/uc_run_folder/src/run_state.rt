//! [`RunState`]: the numbers of a checkpoint, as a caller holds them who has no types of this library; and [`run_step`], an operation in
//! numbers.
ghost use Rattle.std.specs.Prelude.{◌≡◌, Some};
ghost use Rattle.uc_run_folder.specs.declared.run_folder.RunFolder.{RunFolder};
ghost use Rattle.uc_run_folder.specs.RunStates as states;
ghost use Rattle.uc_run_folder.specs.RunStates.{run_folder_of, run_state_of, run_step_of};

use crate::phases::Phase;
use crate::run_action::RunAction;
use crate::run_folder::RunFolder;
use uc_folder::{Machine, Step};

/// The numbers that a machine has beside those of its folder. [`RunState::of`] makes them, and who holds them changes none.
#[repr(C)]
#[derive(Debug, Clone, Copy, PartialEq, Eq)]
pub struct RunState {
    /// The number of the next run.
    pub next: u64,
    /// The number of the list that is made.
    pub number: u64,
    /// The number of batches that it has of the log of that number.
    pub past: u64,
    /// The number of the run that is written or synced.
    pub run: u64,
    /// The number of the last run that is written for the list.
    pub last: u64,
    /// The phase of the checkpointer.
    pub phase: u32,
    /// Whether the newest list was read back.
    pub is_read: bool,
}

/// The phase of some numbers.
fn phase_of(code: u32, number: u64, past: u64, run: u64, last: u64) -> Option<Phase>
    ensures { result ≡ states.phase_of code number past run last }
{
    match code {
        0 => Some(Phase::Between),
        1 => Some(Phase::WritingRun(number, past, run, last)),
        2 => Some(Phase::SyncingRun(number, past, run, last)),
        3 => Some(Phase::NamingRuns(number, past)),
        4 => Some(Phase::Listing),
        5 => Some(Phase::ReadingBack),
        _ => None,
    }
}

impl RunState {
    /// The numbers of a machine.
    pub fn of(machine: RunFolder) -> RunState
        ensures { result ≡ run_state_of machine }
    {
        let (phase, number, past, run, last) = match machine.phase {
            Phase::Between => (0, 0, 0, 0, 0),
            Phase::WritingRun(number, past, run, last) => (1, number, past, run, last),
            Phase::SyncingRun(number, past, run, last) => (2, number, past, run, last),
            Phase::NamingRuns(number, past) => (3, number, past, 0, 0),
            Phase::Listing => (4, 0, 0, 0, 0),
            Phase::ReadingBack => (5, 0, 0, 0, 0),
        };
        RunState {
            next: machine.next,
            number,
            past,
            run,
            last,
            phase,
            is_read: machine.is_read,
        }
    }

    /// The machine of these numbers and a folder's machine; none if the phase is no machine's.
    pub fn machine(&self, folder: Machine) -> Option<RunFolder>
        ensures { result ≡ run_folder_of self.now folder }
    {
        let state = *self;
        match phase_of(state.phase, state.number, state.past, state.run, state.last) {
            Some(phase) => Some(RunFolder {
                folder,
                phase,
                next: state.next,
                is_read: state.is_read,
            }),
            None => None,
        }
    }
}

/// The numbers of an operation: those of the folder's one, or of a kind after all of the folder's.
pub fn run_step(action: RunAction) -> Step
    ensures { result ≡ run_step_of action }
{
    let (kind, number) = match action {
        RunAction::OfFolder(action) => return Step::of(action),
        RunAction::Wait => (0, 0),
        RunAction::NameRuns => (5, 0),
        RunAction::WriteRun(run) => (15, run),
        RunAction::SyncRun(run) => (16, run),
        RunAction::ReadBack => (17, 0),
        RunAction::RemoveRun(run) => (18, run),
    };
    Step {
        number,
        count: 0,
        kind,
    }
}

/// The numbers of a machine are those of no other one.
///
/// Proof step: it does nothing when it runs.
pub fn run_folders_have_numbers()
    ensures { (m : RunFolder) → run_folder_of (run_state_of m) m.folder ≡ Some m }
{}
