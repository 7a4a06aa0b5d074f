//! Laws about live stores, whatever happened to them.
ghost use Rattle.std.specs.Prelude.{◌≡◌, ◌≢◌, ◌++◌, ℕ, true, List, [], Option, Some, Contains};
ghost use Rattle.uc_bytes.specs.declared.write.Write.{Write};
ghost use Rattle.uc_batch.specs.Rising.{IsRising, last_of};
ghost use Rattle.uc_model.specs.Meaning.{value_of};
ghost use Rattle.uc_query_read.specs.Answers.{answer_of, first_rows, named_keys};
ghost use Rattle.uc_query_read.specs.declared.query.Query.{Query};
ghost use Rattle.uc_version_state.specs.Installs.{IdLeft};
ghost use Rattle.uc_version_compact.specs.declared.install_error.InstallError.{InstallError as ErrorOf};
ghost use Rattle.uc_version_compact.specs.declared.install_error.InstallError.TheVariants.{IdsSpent};
ghost use Rattle.uc_version.specs.declared.job_end.JobEnd.{JobEnd};
ghost use Rattle.uc_version.specs.Owners.{IsOwner};
ghost use Rattle.uc_version.specs.Installing.{IsRefused, stretch_of};
ghost use Rattle.uc_version.specs.Jobs.{IsOwn, Task, run};
ghost use Rattle.uc_live.specs.declared.live_options.LiveOptions.{LiveOptions as OptionsOf};
ghost use Rattle.uc_live.specs.LiveOptions.{are_good};
ghost use Rattle.uc_live.specs.Lives as lives;
ghost use Rattle.uc_live.specs.Lives.{Live, committed, created, owner_in, unprepared};
ghost use Rattle.uc_live.specs.LiveJobs.{EndsJob, IsOut, StartsJob};
ghost use Rattle.uc_live.specs.Going.{GoesOn};
ghost use Rattle.uc_live.specs.Writing.{Prepares};
ghost use Rattle.uc_live.specs.Snapshots.{TakesSnapshot, without_snapshot};
ghost use Rattle.uc_live.specs.Coming.{HasTaken};
ghost use Rattle.uc_live.specs.Views as views;
ghost use Rattle.uc_live.specs.Views.{seen_in};

use uc_model::effect_continues_value;
use uc_oper::Operator;
use uc_query_read::equal_values_give_equal_answers;
use uc_version::{
    claims_are_held, claims_can_be_compacted, claims_keep_their_runs, installs_are_events,
    own_compactions_are_refused_for_ids_alone, owners_stay_owners,
};
use uc_version_state::{histories_keep_what_is_read, histories_say_writes_and_keeps};

/// A store begins without a write.
pub fn created_stores_have_taken_nothing<O: Operator>()
    ensures { (options : OptionsOf) → are_good options ≡ true → HasTaken O.meaning (created options) [] }
{}

/// A later store has taken the writes from before and those that it took since. A commit brings the writes that were prepared. A
/// snapshot that is taken or released brings none, nor does a job that is started or ended, nor a discarded batch.
pub fn taken_writes_add_up<O: Operator>()
    ensures goes_on { (old new : Live) (before ws : List Write) → HasTaken O.meaning old before → GoesOn O.meaning old new ws →
        HasTaken O.meaning new (before ++ ws) }
    ensures snapshot { (old new : Live) (before : List Write) (seq : ℕ) → HasTaken O.meaning old before →
        TakesSnapshot O.meaning old new seq → HasTaken O.meaning new before }
    ensures release { (l : Live) (before : List Write) (seq : ℕ) → HasTaken O.meaning l before → Contains l.version.keeps seq →
        HasTaken O.meaning (without_snapshot seq l) before }
    ensures started { (old new : Live) (before : List Write) (job : Option Task) → HasTaken O.meaning old before →
        StartsJob job old new → HasTaken O.meaning new before }
    ensures ended { (old new : Live) (before : List Write) (job : Task) (end : JobEnd) → HasTaken O.meaning old before →
        IsOwner (owner_in old) → IsOut O.meaning job old → EndsJob O.meaning job old new end → HasTaken O.meaning new before }
    ensures committed { (l : Live) (before : List Write) → HasTaken O.meaning l before →
        HasTaken O.meaning (committed l) (before ++ l.prepared) }
    ensures given_up { (l : Live) (before : List Write) → HasTaken O.meaning l before → HasTaken O.meaning (unprepared l) before }
{
    claims_can_be_compacted();
    installs_are_events::<O>();
}

/// A job that was started is pending until it is ended, whatever is written, committed, flushed, compacted, taken as a snapshot or
/// released since, and whatever other jobs are started or ended. While it is pending, its store takes it back, and its run can't be
/// installed only if run IDs are exhausted.
pub fn jobs_go_in<O: Operator>()
    ensures started { (old new : Live) (job : Task) → IsOwner (owner_in old) → StartsJob (Some job) old new →
        IsOut O.meaning job new }
    ensures run { (l : Live) (job : Task) → IsOut O.meaning job l → IsOut O.meaning (run job) l }
    ensures goes_on { (old new : Live) (ws : List Write) (job : Task) → IsOut O.meaning job old → GoesOn O.meaning old new ws →
        IsOut O.meaning job new }
    ensures snapshot { (old new : Live) (seq : ℕ) (job : Task) → IsOut O.meaning job old → TakesSnapshot O.meaning old new seq →
        IsOut O.meaning job new }
    ensures release { (l : Live) (seq : ℕ) (job : Task) → IsOut O.meaning job l → Contains l.version.keeps seq →
        IsOut O.meaning job (without_snapshot seq l) }
    ensures committed { (l : Live) (job : Task) → IsOut O.meaning job l → IsOut O.meaning job (committed l) }
    ensures given_up { (l : Live) (job : Task) → IsOut O.meaning job l → IsOut O.meaning job (unprepared l) }
    ensures beside_a_start { (old new : Live) (job : Task) (other : Option Task) → IsOwner (owner_in old) →
        IsOut O.meaning job old → StartsJob other old new → IsOut O.meaning job new }
    ensures apart { (old new : Live) (job other : Task) → IsOwner (owner_in old) → IsOut O.meaning job old →
        StartsJob (Some other) old new → other.claim.number ≢ job.claim.number }
    ensures beside_an_end { (old new : Live) (job other : Task) (end : JobEnd) → IsOwner (owner_in old) →
        IsOut O.meaning job old → IsOut O.meaning other old → other.claim.number ≢ job.claim.number →
        EndsJob O.meaning other old new end → IsOut O.meaning job new }
    ensures own { (l : Live) (job : Task) → IsOut O.meaning job l → IsOwn (owner_in l) job }
    ensures refused { (l : Live) (job : Task) (error : ErrorOf) → IsOwner (owner_in l) → IsOut O.meaning job l →
        IsRefused l.version (stretch_of (owner_in l) job.claim) job.compaction error → (error ≡ IdsSpent) × ¬ IdLeft l.version }
{
    claims_are_held();
    claims_can_be_compacted();
    claims_keep_their_runs::<O>();
    installs_are_events::<O>();
    owners_stay_owners::<O>();
    own_compactions_are_refused_for_ids_alone::<O>();
}

/// A commit continues a store as any write does, and so does discarding a batch. So the laws of continued stores hold of them.
pub fn commits_go_on<O: Operator>()
    ensures committed { (l : Live) → GoesOn O.meaning l (committed l) l.prepared }
    ensures given_up { (l : Live) → GoesOn O.meaning l (unprepared l) [] }
    ensures prepared { (old mid : Live) (ws : List Write) → Prepares O.meaning old mid ws → GoesOn O.meaning old (committed mid) ws }
{}

/// Whatever a store flushed and compacted, it answers as one thread that folds all writes it has taken: at the last
/// sequence, and at each snapshot.
pub fn stores_answer_as_their_writes<O: Operator>()
    ensures last { (l : Live) (ws : List Write) → HasTaken O.meaning l ws → lives.last l ≡ last_of 0 ws }
    ensures value { (l : Live) (ws : List Write) (key : List ℕ) → HasTaken O.meaning l ws → IsRising l.version.last l.gathered →
        value_of O.meaning (lives.writes_of l) key (lives.last l) ≡ value_of O.meaning ws key (last_of 0 ws) }
    ensures rows { (l : Live) (ws : List Write) (low : List ℕ) (high : Option (List ℕ)) (limit : ℕ) → HasTaken O.meaning l ws →
        IsRising l.version.last l.gathered →
        first_rows O.meaning (lives.writes_of l) (lives.last l) limit (named_keys (lives.writes_of l) low high) ≡
        first_rows O.meaning ws (last_of 0 ws) limit (named_keys ws low high) }
    ensures answer { (l : Live) (ws : List Write) (query : Query) → HasTaken O.meaning l ws → IsRising l.version.last l.gathered →
        answer_of O.meaning (lives.writes_of l) l.version.keeps query ≡ answer_of O.meaning ws l.version.keeps query }
{
    histories_keep_what_is_read::<O>();
    histories_say_writes_and_keeps::<O>();
    effect_continues_value::<O>();
    equal_values_give_equal_answers::<O>();
}

/// A view answers as one thread that folds all writes that its store had taken when it was made: at their last
/// sequence, and at each snapshot that was there then.
pub fn views_answer_as_their_writes<O: Operator>()
    ensures last { (l : Live) (ws : List Write) → HasTaken O.meaning l ws → views.last (seen_in l) ≡ last_of 0 ws }
    ensures value { (l : Live) (ws : List Write) (key : List ℕ) → HasTaken O.meaning l ws →
        IsRising l.version.last l.gathered →
        value_of O.meaning (views.writes_of (seen_in l)) key (views.last (seen_in l)) ≡
        value_of O.meaning ws key (last_of 0 ws) }
    ensures rows { (l : Live) (ws : List Write) (low : List ℕ) (high : Option (List ℕ)) (limit : ℕ) →
        HasTaken O.meaning l ws → IsRising l.version.last l.gathered →
        first_rows O.meaning (views.writes_of (seen_in l)) (views.last (seen_in l)) limit
        (named_keys (views.writes_of (seen_in l)) low high) ≡
        first_rows O.meaning ws (last_of 0 ws) limit (named_keys ws low high) }
    ensures answer { (l : Live) (ws : List Write) (query : Query) → HasTaken O.meaning l ws →
        IsRising l.version.last l.gathered →
        answer_of O.meaning (views.writes_of (seen_in l)) (seen_in l).version.keeps query ≡
        answer_of O.meaning ws l.version.keeps query }
{
    stores_answer_as_their_writes::<O>();
}
