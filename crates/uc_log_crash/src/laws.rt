//! Laws about what a crash leaves of a log.
ghost use Rattle.std.specs.Prelude.{◌≡◌, ℕ, ◌≤◌, ◌<◌, ◌++◌, List, Option, Some, None, length};
ghost use Rattle.uc_folder.specs.Device.{File, Keep, first_whole, content, crashed_name};
ghost use Rattle.uc_logrec.specs.Walk.{Walks, BeginsWith};
ghost use Rattle.uc_log_crash.specs.Folders.{AreBytesOf};
ghost use Rattle.uc_log_crash.specs.Shown.{Shows, IsUnforged, ReadsOn};
ghost use Rattle.uc_log_crash.specs.Marks.{AreTrue, AreOwn, mark_of, with_mark};
ghost use Rattle.uc_log_crash.specs.Places.{all_places, IsFirst};

use uc_logrec::{walk_begins_log, walk_is_kept};

/// The batches before the synced offset are read again, whatever the device shows after it.
pub fn synced_batches_are_read()
    ensures { (written shown : List ℕ) (synced : ℕ) (before : List (List ℕ)) → Walks written before synced →
        Shows written synced shown → Walks shown before synced }
{
    walk_is_kept();
}

/// The batches that are read after the synced ones are those that were written next: all that is read is a beginning of the log. So a
/// batch that isn't whole ends it, whatever is shown after that.
pub fn batches_that_are_read_were_written()
    ensures walk { (written shown : List ℕ) (synced : ℕ) (before found : List (List ℕ)) (end : ℕ) → Walks written before synced →
        IsUnforged written synced shown → ReadsOn shown before synced found end → Walks written (before ++ found) end }
    ensures beginning { (written shown : List ℕ) (synced : ℕ) (before found : List (List ℕ)) (end : ℕ) → Walks written before synced →
        IsUnforged written synced shown → ReadsOn shown before synced found end → BeginsWith written (before ++ found) end }
{
    walk_begins_log();
}

/// The bytes that a device shows of a log after a crash are records that a crash of `uc_folder` may leave. So all that is proved
/// there of every crash holds of these bytes, and reading them returns the batches that this crash leaves.
pub fn a_shown_log_is_a_crashed_one()
    ensures { (f : File) (written shown : List ℕ) (synced : ℕ) (found : List (List ℕ)) (end : ℕ) → AreBytesOf f written synced →
        IsUnforged written synced shown → ReadsOn shown (first_whole f.kept) synced found end →
        (keep : Keep) × (content (crashed_name keep (Some f)) ≡ first_whole f.kept ++ found) }
{
    batches_that_are_read_were_written();
}

/// A crash leaves no log in which [`first_told`](crate::first_told) finds a batch, if its whole batches end where the synced bytes do, or
/// after these.
pub fn crash_is_no_damage()
    ensures { (written shown : List ℕ) (synced last end : ℕ) (found : Option ℕ) → AreTrue written synced → AreOwn written synced last shown →
        synced ≤ end → IsFirst shown end last (all_places shown end) found → found ≡ None }
{}

/// A mark that is put after the header of a batch is read there again.
pub fn written_marks_are_read()
    ensures { (batch : List ℕ) (unsynced : ℕ) → 12 ≤ length batch → unsynced < 9223372036854775808 →
        mark_of (with_mark batch unsynced) ≡ Some unsynced }
{}
