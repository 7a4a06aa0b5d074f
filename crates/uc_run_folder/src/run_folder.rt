//! [`RunFolder`]: the machine of a folder whose checkpoints are lists of run files.
ghost use Rattle.std.specs.Prelude.{◌≡◌, ◌<◌, ◌+◌, ◌^◌, true};
ghost use Rattle.uc_run_folder.specs.Steps as steps;

use crate::phases::Phase;
use crate::run_action::RunAction;
use uc_folder::{Checkpointer, Machine};

/// The first number that no file may have: a number below it can be counted up.
const END: u64 = 1 << 63;

/// The state of a folder that is open. Its writer is asked through `folder`, and its checkpointer through this machine alone.
#[derive(Debug, Clone, Copy, PartialEq, Eq)]
pub struct RunFolder {
    /// The machine of the logs, and of the lists as its bases.
    pub folder: Machine,
    /// The phase of the checkpointer.
    pub phase: Phase,
    /// The number of the next run. No run has this number or a greater one.
    pub next: u64,
    /// Whether the newest list was read back with its runs, by an opening or after it was made.
    pub is_read: bool,
}

impl RunFolder {
    /// The machine of a folder that an opening has read: `next` is a number above those of all runs that are there.
    pub fn open(folder: Machine, next: u64) -> RunFolder
        ensures { result ≡ steps.opened folder next }
    {
        RunFolder {
            folder,
            phase: Phase::Between,
            next,
            is_read: true,
        }
    }

    /// The checkpointer's next operation.
    pub fn next_checkpoint(&self) -> RunAction
        ensures { result ≡ steps.next_checkpoint self.now.phase self.now.folder.checkpointer }
    {
        match self.phase {
            Phase::Between | Phase::Listing => RunAction::OfFolder(self.folder.next_checkpoint()),
            Phase::WritingRun(_, _, run, _) => RunAction::WriteRun(run),
            Phase::SyncingRun(_, _, run, _) => RunAction::SyncRun(run),
            Phase::NamingRuns(_, _) => RunAction::NameRuns,
            Phase::ReadingBack => RunAction::ReadBack,
        }
    }

    /// Learns how the checkpointer's operation went. A run that failed isn't tried again: its number is spent.
    pub fn told_checkpoint(&mut self, is_done: bool)
        ensures { self.new ≡ steps.told_checkpoint self.old is_done }
    {
        self.is_read = read_after(self.phase, self.folder.checkpointer, is_done, self.is_read);
        let folder = folder_after(self.phase, self.folder, is_done);
        let (old, new) = (self.folder.checkpointer, folder.checkpointer);
        self.phase = phase_after(self.phase, old, new, is_done);
        self.folder = folder;
    }

    /// A list is to be made of the logs before a number, and of some batches of the log of that number. It names the runs in `kept`, each
    /// of which the newest list has (`named`), and `count` new ones, whose numbers are those from `next` on.
    ///
    /// Nothing changes unless the folder is open, no checkpoint is under way, all of it is in older logs, and the number is a later one
    /// than that of each list. Runs may be kept only of a list that was read back.
    pub fn ask_checkpoint(
        &mut self,
        number: u64,
        past: u64,
        kept: &[u64],
        named: &[u64],
        count: u64,
    )
        ensures { self.new ≡ steps.asking self.old (steps.may_write self.old number past kept.now named.now count) number past count }
    {
        if may_write(*self, number, past, kept, named, count) {
            self.phase = begun(number, past, self.next, count);
            self.next += count;
        }
    }

    /// The operation that removes the run of a number, where the newest list names the runs in `named`. There is nothing to do unless
    /// the folder is open, no checkpoint is under way, that list is the only one that can be read, and it was read back.
    pub fn next_removal(&self, run: u64, named: &[u64]) -> RunAction
        ensures { result ≡ steps.next_removal self.now run named.now }
    {
        if may_remove(*self, run, named) {
            RunAction::RemoveRun(run)
        } else {
            RunAction::Wait
        }
    }
}

/// The folder's machine after an operation of the checkpointer. It makes the list once the names of all runs are synced. If the new list
/// can't be read back, nothing is removed.
fn folder_after(phase: Phase, folder: Machine, is_done: bool) -> Machine
    ensures { result ≡ steps.folder_after phase folder is_done }
{
    let mut folder = folder;
    match (phase, is_done) {
        (Phase::NamingRuns(number, past), true) => folder.ask_checkpoint(number, past),
        (Phase::Between | Phase::Listing, _) => folder.told_checkpoint(is_done),
        (Phase::ReadingBack, false) => folder.told_checkpoint(false),
        _ => {}
    }
    folder
}

/// The phase after an operation of the checkpointer, by the phases of the folder's one before and after it.
fn phase_after(phase: Phase, old: Checkpointer, new: Checkpointer, is_done: bool) -> Phase
    ensures { result ≡ steps.phase_after phase old new is_done }
{
    match (phase, is_done) {
        (Phase::WritingRun(number, past, run, last), true) => {
            Phase::SyncingRun(number, past, run, last)
        }
        (Phase::SyncingRun(number, past, run, last), true) => run_after(number, past, run, last),
        (Phase::NamingRuns(_, _), true) => listing_in(new),
        (Phase::Listing, _) => listed_after(old, is_done),
        _ => Phase::Between,
    }
}

/// The phase after a run was synced, up to the last one of the list.
fn run_after(number: u64, past: u64, run: u64, last: u64) -> Phase
    ensures { result ≡ steps.run_after number past run last }
{
    if run < last {
        Phase::WritingRun(number, past, run + 1, last)
    } else {
        Phase::NamingRuns(number, past)
    }
}

/// The phase in which runs are written from a number on, as many as given: none, if all are there.
fn begun(number: u64, past: u64, run: u64, count: u64) -> Phase
    requires { run + count < 2 ^ 63 }
    ensures { result ≡ steps.begun number past run count }
{
    if count == 0 {
        Phase::NamingRuns(number, past)
    } else {
        Phase::WritingRun(number, past, run, run + (count - 1))
    }
}

/// The phase after the list was asked for, by that of the folder's checkpointer.
fn listing_in(checkpointer: Checkpointer) -> Phase
    ensures { result ≡ steps.listing_in checkpointer }
{
    match checkpointer {
        Checkpointer::Writing(_, _) => Phase::Listing,
        _ => Phase::Between,
    }
}

/// The phase after an operation that makes the list, by the phase in which the folder's checkpointer was.
fn listed_after(checkpointer: Checkpointer, is_done: bool) -> Phase
    ensures { result ≡ steps.listed_after checkpointer is_done }
{
    match (checkpointer, is_done) {
        (
            Checkpointer::Writing(_, _)
            | Checkpointer::Sealing(_, _)
            | Checkpointer::Renaming(_, _),
            true,
        ) => { Phase::Listing }
        (Checkpointer::Fixing(_, _), true) => Phase::ReadingBack,
        _ => Phase::Between,
    }
}

/// Whether the newest list was read back, after an operation of the checkpointer.
fn read_after(phase: Phase, checkpointer: Checkpointer, is_done: bool, is_read: bool) -> bool
    ensures { result ≡ steps.read_after phase checkpointer is_done is_read }
{
    match (phase, checkpointer, is_done) {
        (Phase::Listing, Checkpointer::Fixing(_, _), true) => false,
        (Phase::ReadingBack, _, true) => true,
        _ => is_read,
    }
}

/// Whether a checkpoint may begin.
fn may_write(
    machine: RunFolder,
    number: u64,
    past: u64,
    kept: &[u64],
    named: &[u64],
    count: u64,
) -> bool
    ensures value { result ≡ steps.may_write machine number past kept.now named.now count }
    ensures fits { result ≡ true → machine.next + count < 2 ^ 63 }
{
    if machine.next >= END || count >= END - machine.next {
        return false;
    }
    is_free(machine)
        && is_sought(machine.folder, number, past)
        && (machine.is_read || kept.is_empty())
        && are_among(kept, named)
}

/// Whether the folder is open, no checkpoint is under way, and nothing is removed.
fn is_free(machine: RunFolder) -> bool
    ensures { result ≡ steps.is_free machine }
{
    let is_open = machine.folder.is_open();
    match (machine.phase, machine.folder.checkpointer) {
        (Phase::Between, Checkpointer::Idle) => is_open,
        _ => false,
    }
}

/// Whether a list of a number is later than all, and all of it is in older logs.
fn is_sought(folder: Machine, number: u64, past: u64) -> bool
    ensures { result ≡ steps.is_sought folder number past }
{
    folder.tried < number && (number < folder.log || number == folder.log && past == 0)
}

/// Whether a run may be removed.
fn may_remove(machine: RunFolder, run: u64, named: &[u64]) -> bool
    ensures { result ≡ steps.may_remove machine run named.now }
{
    is_free(machine)
        && machine.is_read
        && machine.folder.base == machine.folder.tried
        && run < machine.next
        && !has_run(run, named)
}

/// Whether each of some runs is among others.
fn are_among(kept: &[u64], named: &[u64]) -> bool
    ensures { result ≡ steps.are_among kept.now named.now }
{
    kept.iter().all(|run| has_run(*run, named))
}

/// Whether a list names a run.
pub(crate) fn has_run(run: u64, named: &[u64]) -> bool
    ensures { result ≡ steps.has_run run named.now }
{
    named.iter().any(|number| *number == run)
}
