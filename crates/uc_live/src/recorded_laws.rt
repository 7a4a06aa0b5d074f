//! Laws about logs in which a store's batches are recorded.
ghost use Rattle.std.specs.Prelude.{◌≡◌, ◌≤◌, ℕ, List, [], ◌++◌, Ok};
ghost use Rattle.uc_bytes.specs.declared.write.Write.{Write};
ghost use Rattle.uc_logrec.specs.Position.{LiesIn};
ghost use Rattle.uc_batch.specs.Batch.{batch_of};
ghost use Rattle.uc_batch.specs.Rising.{last_of};
ghost use Rattle.uc_live.specs.Recording.{HasBatches, IsRecorded, IsRecovered};

use uc_logrec::{log_goes_on, walk_goes_on};

/// Each log begins with no batches. If it begins with some that end at an offset, and a payload there is a batch that
/// comes after their last sequence, it begins with that one too.
pub fn batches_are_walked()
    ensures none { (log : List ℕ) → HasBatches log 0 [] }
    ensures more { (log : List ℕ) (offset behind : ℕ) (writes more : List Write) (payload : List ℕ) → HasBatches log offset writes →
        LiesIn payload log offset behind → batch_of (last_of 0 writes) payload ≡ Ok more → HasBatches log behind (writes ++ more) }
{}

/// A batch that comes next after a sequence comes after each lesser one too, with the same writes.
pub fn later_batches_come_after_less()
    ensures { (less last : ℕ) (bytes : List ℕ) (writes : List Write) → less ≤ last → batch_of last bytes ≡ Ok writes →
        batch_of less bytes ≡ Ok writes }
{}

/// A log begins with batches that end at an offset. Cut there, and continued by the record of a batch, it has the writes of all of
/// these, and ends clean. It then continues in the same way after the record. The store in which the batch was prepared has the
/// last sequence number of the log or a later one, as after a checkpoint, whose rows are numbered anew.
pub fn recorded_batch_is_recovered()
    ensures { (log : List ℕ) (offset last : ℕ) (writes : List Write) (batch bytes : List ℕ) → HasBatches log offset writes →
        last_of 0 writes ≤ last → (recorded : IsRecorded last offset batch bytes) →
        IsRecovered log offset bytes writes recorded.read.writes }
{
    log_goes_on();
    walk_goes_on();
}
