//! [`Machine`]: the order of file operations, and the state after each.
ghost use Rattle.std.specs.Prelude.{◌≡◌, ◌<◌, ◌^◌};
ghost use Rattle.uc_folder.specs.Steps.{
  next_write,
  told_write,
  next_make,
  told_make,
  next_sync,
  told_sync,
  next_checkpoint,
  told_checkpoint,
  submitting,
  syncing,
  asking_next,
  switching,
  may_begin,
  checkpointing,
  opened,
  is_open,
  clearing_after,
  removing_from,
};

use crate::action::Action;
use crate::listing::Found;
use crate::phases::{Checkpointer, NextLog, Writer};

/// The state of an open directory.
#[derive(Debug, Clone, Copy, PartialEq, Eq)]
pub struct Machine {
    /// Number of the current log.
    pub log: u64,
    /// Number of batches in the current log. During an opening, number of those that are kept.
    pub count: u64,
    /// Number of batches of the current log that may be acknowledged as synced. All batches of older logs may be.
    pub synced: u64,
    /// Number of the newest base whose name is durable, or of the first log if there is none.
    pub base: u64,
    /// No log or base has a number below this one.
    pub least: u64,
    /// Number of the newest base that may have its name.
    pub tried: u64,
    /// Number of batches of the log `tried` that this base contains.
    pub past: u64,
    /// Phase of the writer.
    pub writer: Writer,
    /// State of the log after the current one.
    pub next: NextLog,
    /// Phase of the checkpointer.
    pub checkpointer: Checkpointer,
}

impl Machine {
    /// Returns the machine of a directory. `found` has the files that the opening found. `count` is the number of batches of the
    /// current log that are kept. The batches after them are given up, and the newest base must contain none of these. `is_sealed` is
    /// true only if all of the log is kept and is durable, as the end of a closed log shows. A sealed log isn't copied.
    pub fn open(found: Found, count: u64, is_sealed: bool) -> Machine
        ensures { result ≡ opened found count is_sealed }
    {
        Machine {
            log: found.log,
            count,
            synced: 0,
            base: found.base,
            least: found.least,
            tried: found.base,
            past: found.past,
            writer: if found.is_there {
                Writer::Naming(found.top, is_sealed)
            } else {
                Writer::Making
            },
            next: NextLog::Absent,
            checkpointer: Checkpointer::Idle,
        }
    }

    /// Returns the writer's next operation.
    pub fn next_write(&self) -> Action
        ensures { result ≡ next_write self.now.writer self.now.log self.now.count self.now.synced }
    {
        match self.writer {
            Writer::Making => Action::CreateLog(self.log),
            Writer::Founding | Writer::Naming(_, _) | Writer::Settling => Action::SyncNames,
            Writer::Clearing(number, _, _) => Action::RemoveLog(number),
            Writer::SettingAside => Action::SetAside(self.log),
            Writer::Copying => Action::CopyLog(self.log, self.count),
            Writer::SealingCopy => Action::SyncCopy,
            Writer::Replacing => Action::NameCopy(self.log),
            Writer::Appending | Writer::Both(_) => Action::Append(self.log, self.synced),
            Writer::Mending => Action::CutLog(self.log, self.count),
            Writer::Closing => Action::SyncLog(self.log, self.count),
            Writer::Ready | Writer::Syncing(_) | Writer::Spoiled(_) | Writer::Failed =>
                Action::Nothing,
        }
    }

    /// Takes the result of the writer's operation: `is_done` is false if it failed in any way.
    pub fn told_write(&mut self, is_done: bool)
        requires log_small { self.old.log < 2 ^ 63 }
        requires count_small { self.old.count < 2 ^ 63 }
        ensures { self.new ≡ told_write self.old is_done }
    {
        match (self.writer, is_done) {
            (Writer::Making, true) => self.writer = Writer::Founding,
            (Writer::Founding, true) => self.writer = Writer::Ready,
            (Writer::Naming(top, is_sealed), true) => {
                self.writer = clearing_after(self.log, top, is_sealed);
                self.checkpointer = removing_from(self.least, self.base);
            }
            (Writer::Clearing(number, top, is_sealed), true) => {
                self.writer = clearing_after(number, top, is_sealed);
            }
            (Writer::SettingAside, true) => self.writer = Writer::Copying,
            (Writer::Copying, true) => self.writer = Writer::SealingCopy,
            (Writer::SealingCopy, true) => self.writer = Writer::Replacing,
            (Writer::Replacing, true) => self.writer = Writer::Settling,
            (Writer::Settling, true) => {
                self.writer = Writer::Ready;
                self.synced = self.count;
            }
            (Writer::Ready | Writer::Syncing(_) | Writer::Spoiled(_), _) => {}
            (Writer::Appending, true) => {
                self.writer = Writer::Ready;
                self.count += 1;
            }
            (Writer::Appending, false) => self.writer = Writer::Mending,
            (Writer::Mending, true) => self.writer = Writer::Ready,
            (Writer::Both(synced), true) => {
                self.writer = Writer::Syncing(synced);
                self.count += 1;
            }
            (Writer::Both(synced), false) => self.writer = Writer::Spoiled(synced),
            (Writer::Closing, true) => {
                self.writer = Writer::Ready;
                self.log += 1;
                self.count = 0;
                self.synced = 0;
                self.next = NextLog::Absent;
            }
            _ => self.writer = Writer::Failed,
        }
    }

    /// Returns the next operation that creates the next log. Batches can be appended to the current log meanwhile.
    pub fn next_make(&self) -> Action
        requires { self.now.log < 2 ^ 63 }
        ensures { result ≡ next_make self.now.next self.now.log }
    {
        match self.next {
            NextLog::Creating => Action::CreateLog(self.log + 1),
            NextLog::Recording => Action::SyncNames,
            NextLog::Absent | NextLog::Waiting => Action::Nothing,
        }
    }

    /// Takes the result of that operation. After a failure the next log can be requested again.
    pub fn told_make(&mut self, is_done: bool)
        ensures { self.new ≡ told_make self.old is_done }
    {
        self.next = match (self.next, is_done) {
            (NextLog::Creating, true) => NextLog::Recording,
            (NextLog::Recording, true) | (NextLog::Waiting, _) => NextLog::Waiting,
            _ => NextLog::Absent,
        };
    }

    /// Returns the requested sync of the log. A batch can be appended during it.
    pub fn next_sync(&self) -> Action
        ensures { result ≡ next_sync self.now.writer self.now.log }
    {
        match self.writer {
            Writer::Syncing(count) | Writer::Both(count) | Writer::Spoiled(count) =>
                Action::SyncLog(self.log, count),
            _ => Action::Nothing,
        }
    }

    /// Takes the result of that sync.
    pub fn told_sync(&mut self, is_done: bool)
        ensures { self.new ≡ told_sync self.old is_done }
    {
        match (self.writer, is_done) {
            (Writer::Syncing(count), true) => {
                self.writer = Writer::Ready;
                self.synced = count;
            }
            (Writer::Both(count), true) => {
                self.writer = Writer::Appending;
                self.synced = count;
            }
            (Writer::Spoiled(count), true) => {
                self.writer = Writer::Mending;
                self.synced = count;
            }
            (Writer::Syncing(_) | Writer::Both(_) | Writer::Spoiled(_), false) => {
                self.writer = Writer::Failed;
            }
            _ => {}
        }
    }

    /// Returns the checkpointer's next operation.
    pub fn next_checkpoint(&self) -> Action
        ensures { result ≡ next_checkpoint self.now.checkpointer }
    {
        match self.checkpointer {
            Checkpointer::Idle => Action::Nothing,
            Checkpointer::Writing(number, past) => Action::WriteBase(number, past),
            Checkpointer::Sealing(_, _) => Action::SyncBase,
            Checkpointer::Renaming(number, past) => Action::NameBase(number, past),
            Checkpointer::Fixing(_, _) => Action::SyncNames,
            Checkpointer::RemovingLog(number) => Action::RemoveLog(number),
            Checkpointer::RemovingBase(number) => Action::RemoveBase(number),
        }
    }

    /// Takes the result of the checkpointer's operation.
    pub fn told_checkpoint(&mut self, is_done: bool)
        ensures { self.new ≡ told_checkpoint self.old is_done }
    {
        if let Checkpointer::Renaming(number, past) = self.checkpointer {
            self.tried = number;
            self.past = past;
        }
        match (self.checkpointer, is_done) {
            (Checkpointer::Writing(number, past), true) => {
                self.checkpointer = Checkpointer::Sealing(number, past);
            }
            (Checkpointer::Sealing(number, past), true) => {
                self.checkpointer = Checkpointer::Renaming(number, past);
            }
            (Checkpointer::Renaming(number, past), true) => {
                self.checkpointer = Checkpointer::Fixing(number, past);
            }
            (Checkpointer::Fixing(number, _), true) => {
                self.base = number;
                self.checkpointer = removing_from(self.least, number);
            }
            (Checkpointer::RemovingLog(number), true) => {
                self.checkpointer = Checkpointer::RemovingBase(number);
            }
            (Checkpointer::RemovingBase(number), true) => {
                self.checkpointer = Checkpointer::Idle;
                if number < self.base {
                    self.least = number + 1;
                    self.checkpointer = removing_from(number + 1, self.base);
                }
            }
            _ => self.checkpointer = Checkpointer::Idle,
        }
    }

    /// Submits a batch, which the writer appends next. Changes nothing unless the writer can take it.
    pub fn submit(&mut self)
        ensures { self.new ≡ record self.old { writer = submitting self.old.writer } }
    {
        match self.writer {
            Writer::Ready => self.writer = Writer::Appending,
            Writer::Syncing(count) => self.writer = Writer::Both(count),
            _ => {}
        }
    }

    /// Requests a sync of all that was appended. Changes nothing during a sync.
    pub fn ask_sync(&mut self)
        ensures { self.new ≡ record self.old { writer = syncing self.old.writer self.old.count } }
    {
        match self.writer {
            Writer::Ready => self.writer = Writer::Syncing(self.count),
            Writer::Appending => self.writer = Writer::Both(self.count),
            _ => {}
        }
    }

    /// Requests the next log. Changes nothing unless the directory is open and there is no next log.
    pub fn ask_next(&mut self)
        ensures { self.new ≡ record self.old { next = asking_next self.old.writer self.old.next } }
    {
        let is_open = self.is_open();
        if let (NextLog::Absent, true) = (self.next, is_open) {
            self.next = NextLog::Creating;
        }
    }

    /// Requests the switch to the next log. Changes nothing unless the next log exists and the writer is ready.
    pub fn ask_switch(&mut self)
        ensures { self.new ≡ record self.old { writer = switching self.old.writer self.old.next } }
    {
        if let (Writer::Ready, NextLog::Waiting) = (self.writer, self.next) {
            self.writer = Writer::Closing;
        }
    }

    /// Requests a base of all logs below `number`, and of the first `past` batches of the log `number`, which must have as many.
    /// Changes nothing unless the directory is open, the checkpointer is idle, no base contains as much, and all these batches are in
    /// logs before the current one.
    pub fn ask_checkpoint(&mut self, number: u64, past: u64)
        ensures { self.new ≡ record self.old {
          checkpointer = checkpointing self.old.checkpointer (may_begin self.old number past) number past;
        } }
    {
        let may_begin = self.is_open()
            && (self.tried < number || self.tried == number && self.past < past)
            && self.base <= number
            && (number < self.log || number == self.log && past == 0);
        if let (Checkpointer::Idle, true) = (self.checkpointer, may_begin) {
            self.checkpointer = Checkpointer::Writing(number, past);
        }
    }

    /// Returns true if batches can be submitted, now or after an operation in progress.
    pub fn is_open(&self) -> bool
        ensures { result ≡ is_open self.now.writer }
    {
        matches!(
            self.writer,
            Writer::Ready | Writer::Appending | Writer::Syncing(_) | Writer::Both(_)
        )
    }
}

/// Returns the writer's phase after the log `number` was removed, or no log yet. Logs up to `top` are still to be removed.
fn clearing_after(number: u64, top: u64, is_sealed: bool) -> Writer
    ensures { result ≡ clearing_after number top is_sealed }
{
    if number < top {
        Writer::Clearing(number + 1, top, is_sealed)
    } else if is_sealed {
        Writer::Settling
    } else {
        Writer::SettingAside
    }
}

/// Returns the checkpointer's phase if logs and bases from `number` on, and below `base`, are still to be removed.
fn removing_from(number: u64, base: u64) -> Checkpointer
    ensures { result ≡ removing_from number base }
{
    if number < base {
        Checkpointer::RemovingLog(number)
    } else {
        Checkpointer::Idle
    }
}
