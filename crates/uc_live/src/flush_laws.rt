//! Laws about flushes that are done away from their store.
ghost use Rattle.std.specs.Prelude.{◌≡◌, ◌≢◌, ◌⊎◌, ℕ, List, Option, Some, None, Contains};
ghost use Rattle.uc_bytes.specs.declared.write.Write.{Write};
ghost use Rattle.uc_batch.specs.Rising.{IsRising};
ghost use Rattle.uc_version.specs.declared.job_end.JobEnd.{JobEnd};
ghost use Rattle.uc_version.specs.Jobs.{Task};
ghost use Rattle.uc_version.specs.Owners.{IsOwner};
ghost use Rattle.uc_live.specs.declared.flush_end.FlushEnd.{FlushEnd};
ghost use Rattle.uc_live.specs.Coming.{HasTaken};
ghost use Rattle.uc_live.specs.Going.{GoesOn};
ghost use Rattle.uc_live.specs.LiveFlushes as flushes;
ghost use Rattle.uc_live.specs.LiveFlushes.{EndsFlush, FlushTask, IsFlushOut, IsFlushSpent, IsOwnFlush, StartsFlush, wants_flush};
ghost use Rattle.uc_live.specs.LiveJobs.{EndsJob, IsOut, StartsJob};
ghost use Rattle.uc_live.specs.Lives.{Live, committed, owner_in, unprepared};
ghost use Rattle.uc_live.specs.Snapshots.{TakesSnapshot, without_snapshot};

use uc_oper::Operator;
use uc_version::claims_keep_their_runs;
use uc_version_state::no_refusal_is_leave_to_feed;

/// A flush job that was started is pending until it is ended, whatever is written, committed, compacted or released since, and
/// whatever jobs are started or ended: its writes stay the oldest ones in memtables. Or the store flushed them itself, and then the
/// job is spent. No other flush job is pending with it.
pub fn flushes_go_in<O: Operator>()
    ensures started { (old new : Live) (job : FlushTask) → StartsFlush (wants_flush old) (Some job) old new → IsFlushOut job new }
    ensures alone { (old new : Live) (job : FlushTask) → StartsFlush (wants_flush old) (Some job) old new → old.leaving ≡ None }
    ensures run { (l : Live) (job : FlushTask) → IsFlushOut job l → IsFlushOut (flushes.run job) l }
    ensures goes_on { (old new : Live) (ws : List Write) (job : FlushTask) → IsFlushOut job old → GoesOn O.meaning old new ws →
        IsFlushOut job new ⊎ IsFlushSpent job new }
    ensures snapshot { (old new : Live) (seq : ℕ) (job : FlushTask) → IsFlushOut job old → TakesSnapshot O.meaning old new seq →
        IsFlushOut job new ⊎ IsFlushSpent job new }
    ensures release { (l : Live) (seq : ℕ) (job : FlushTask) → IsFlushOut job l → IsFlushOut job (without_snapshot seq l) }
    ensures committed { (l : Live) (job : FlushTask) → IsFlushOut job l → IsFlushOut job (committed l) }
    ensures given_up { (l : Live) (job : FlushTask) → IsFlushOut job l → IsFlushOut job (unprepared l) }
    ensures beside_a_start { (old new : Live) (job : FlushTask) (other : Option Task) → IsFlushOut job old →
        StartsJob other old new → IsFlushOut job new }
    ensures beside_an_end { (old new : Live) (job : FlushTask) (other : Task) (end : JobEnd) → IsFlushOut job old →
        EndsJob O.meaning other old new end → IsFlushOut job new }
    ensures beside_a_flush { (old new : Live) (job : FlushTask) (other : Option FlushTask) → IsFlushOut job old →
        StartsFlush (wants_flush old) other old new → (other ≡ None) × IsFlushOut job new }
    ensures past_a_flush { (old new : Live) (job other : FlushTask) (end : FlushEnd) → IsFlushOut job old →
        other.number ≢ job.number → EndsFlush other old new end → IsFlushOut job new }
    ensures own { (l : Live) (job : FlushTask) → IsFlushOut job l → IsOwnFlush l job }
{}

/// A flush job whose writes the store flushed itself is spent for good, whatever happens to the store: no end of it changes
/// anything, so the store takes it back.
pub fn spent_flushes_stay_spent<O: Operator>()
    ensures run { (l : Live) (job : FlushTask) → IsFlushSpent job l → IsFlushSpent (flushes.run job) l }
    ensures goes_on { (old new : Live) (ws : List Write) (job : FlushTask) → IsFlushSpent job old → GoesOn O.meaning old new ws →
        IsFlushSpent job new }
    ensures snapshot { (old new : Live) (seq : ℕ) (job : FlushTask) → IsFlushSpent job old → TakesSnapshot O.meaning old new seq →
        IsFlushSpent job new }
    ensures release { (l : Live) (seq : ℕ) (job : FlushTask) → IsFlushSpent job l → IsFlushSpent job (without_snapshot seq l) }
    ensures committed { (l : Live) (job : FlushTask) → IsFlushSpent job l → IsFlushSpent job (committed l) }
    ensures given_up { (l : Live) (job : FlushTask) → IsFlushSpent job l → IsFlushSpent job (unprepared l) }
    ensures beside_a_start { (old new : Live) (job : FlushTask) (other : Option Task) → IsFlushSpent job old →
        StartsJob other old new → IsFlushSpent job new }
    ensures beside_an_end { (old new : Live) (job : FlushTask) (other : Task) (end : JobEnd) → IsFlushSpent job old →
        EndsJob O.meaning other old new end → IsFlushSpent job new }
    ensures beside_a_flush { (old new : Live) (job : FlushTask) (other : Option FlushTask) → IsFlushSpent job old →
        StartsFlush (wants_flush old) other old new → IsFlushSpent job new }
    ensures past_a_flush { (old new : Live) (job other : FlushTask) (end : FlushEnd) → IsFlushSpent job old →
        EndsFlush other old new end → IsFlushSpent job new }
    ensures own { (l : Live) (job : FlushTask) → IsFlushSpent job l → IsOwnFlush l job }
    ensures ended { (old new : Live) (job : FlushTask) (end : FlushEnd) → IsFlushSpent job old → EndsFlush job old new end → new ≡ old }
{}

/// Neither the start of a flush job nor its end brings a write, so no read changes.
pub fn flushes_bring_no_write<O: Operator>()
    ensures started { (old new : Live) (before : List Write) (job : Option FlushTask) → HasTaken O.meaning old before →
        StartsFlush (wants_flush old) job old new → HasTaken O.meaning new before }
    ensures ended { (old new : Live) (before : List Write) (job : FlushTask) (end : FlushEnd) → HasTaken O.meaning old before →
        IsRising old.version.last old.gathered → IsOwnFlush old job → EndsFlush job old new end → HasTaken O.meaning new before }
{
    no_refusal_is_leave_to_feed();
}

/// A compaction job that is out stays out when a flush job is started or ended.
pub fn jobs_stay_out_beside_flushes<O: Operator>()
    ensures started { (old new : Live) (job : Task) (other : Option FlushTask) → IsOut O.meaning job old →
        StartsFlush (wants_flush old) other old new → IsOut O.meaning job new }
    ensures ended { (old new : Live) (job : Task) (other : FlushTask) (end : FlushEnd) → IsOwner (owner_in old) → IsOut O.meaning job old →
        IsRising old.version.last old.gathered → IsOwnFlush old other → EndsFlush other old new end → IsOut O.meaning job new }
{
    no_refusal_is_leave_to_feed();
    claims_keep_their_runs::<O>();
}
