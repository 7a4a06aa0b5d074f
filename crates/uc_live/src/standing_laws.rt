//! Laws about stores that are opened from the runs of a view.
ghost use Rattle.std.specs.Prelude.{◌≡◌, ◌+◌, ◌++◌, ◌∷◌, length, ℕ, List, [], Option, Contains};
ghost use Rattle.uc_bytes.specs.declared.write.Write.{Write};
ghost use Rattle.uc_batch.specs.Rising.{IsRising, last_of};
ghost use Rattle.uc_model.specs.Meaning.{value_of};
ghost use Rattle.uc_run_entry.specs.Run.{Contents};
ghost use Rattle.uc_query_read.specs.Answers.{first_rows, named_keys};
ghost use Rattle.uc_version_state.specs.Versions.{IsVersion, Stored, contents_of};
ghost use Rattle.uc_live.specs.Lives as lives;
ghost use Rattle.uc_live.specs.Lives.{Live};
ghost use Rattle.uc_live.specs.Going.{GoesOn};
ghost use Rattle.uc_live.specs.Snapshots.{TakesSnapshot, without_snapshot};
ghost use Rattle.uc_live.specs.Coming.{HasTaken};
ghost use Rattle.uc_live.specs.Adding.{with_run};
ghost use Rattle.uc_live.specs.Standing.{StandsFor};

use uc_model::effect_continues_value;
use uc_oper::Operator;
use uc_query_read::equal_values_give_equal_answers;
use uc_run::{flush_keeps_every_effect, flushed_writes_are_a_run};
use uc_version_state::{histories_keep_what_is_read, histories_say_writes_and_keeps};

/// A store stands for the writes that it has taken.
pub fn stores_stand_for_their_writes<O: Operator>()
    ensures { (l : Live) (ws : List Write) → HasTaken O.meaning l ws → StandsFor O.meaning l ws }
{
    histories_keep_what_is_read::<O>();
    histories_say_writes_and_keeps::<O>();
}

/// A run that is added comes first. A store without snapshots that has the runs of another one, and its last sequence number, stands for
/// the same writes, if neither has any in memtables.
pub fn runs_carry_what_is_read<O: Operator>()
    ensures first { (l : Live) (run : Contents) → contents_of (with_run run l).version.runs ≡ run ∷ contents_of l.version.runs }
    ensures opened { (l new : Live) (ws : List Write) → StandsFor O.meaning l ws → l.gathered ≡ [] →
        IsVersion new.version → new.version.keeps ≡ [] → new.gathered ≡ [] →
        contents_of new.version.runs ≡ contents_of l.version.runs → new.version.last ≡ l.version.last → StandsFor O.meaning new ws }
{}

/// The runs of a store stand for its older writes: those that are in no memtable. So a store that has the runs of a view, and takes the writes
/// that the view has in memtables, stands for all writes of the view.
pub fn runs_stand_for_older_writes<O: Operator>()
    ensures { (l new : Live) (ws : List Write) (stands : StandsFor O.meaning l ws) → IsVersion new.version → new.version.keeps ≡ [] →
        new.gathered ≡ [] → contents_of new.version.runs ≡ contents_of l.version.runs → new.version.last ≡ l.version.last →
        StandsFor O.meaning new stands.older }
{}

/// The newest run ends at the last sequence number that is in runs, if as many writes are in memtables as there are sequence numbers above
/// that run's.
pub fn newest_run_ends_below_memtables()
    ensures { (v : Stored) (newest : Contents) (older : List Contents) (gathered : List Write) → IsVersion v → IsRising v.last gathered →
        contents_of v.runs ≡ newest ∷ older → newest.high + length gathered ≡ last_of v.last gathered → newest.high ≡ v.last }
{}

/// A store that stands for writes stands for those that it takes since too, whatever it flushes and compacts. A snapshot that is taken or
/// released changes nothing.
pub fn standing_stores_go_on<O: Operator>()
    ensures goes_on { (old new : Live) (before ws : List Write) → StandsFor O.meaning old before → GoesOn O.meaning old new ws →
        StandsFor O.meaning new (before ++ ws) }
    ensures snapshot { (old new : Live) (before : List Write) (seq : ℕ) → StandsFor O.meaning old before →
        TakesSnapshot O.meaning old new seq → StandsFor O.meaning new before }
    ensures release { (l : Live) (before : List Write) (seq : ℕ) → StandsFor O.meaning l before → Contains l.version.keeps seq →
        StandsFor O.meaning (without_snapshot seq l) before }
{
    flushed_writes_are_a_run();
    flush_keeps_every_effect::<O>();
}

/// A store answers at its last sequence number as the writes do for which it stands.
pub fn standing_stores_answer_as_their_writes<O: Operator>()
    ensures last { (l : Live) (ws : List Write) → StandsFor O.meaning l ws → lives.last l ≡ last_of 0 ws }
    ensures value { (l : Live) (ws : List Write) (key : List ℕ) → StandsFor O.meaning l ws → IsRising l.version.last l.gathered →
        value_of O.meaning (lives.writes_of l) key (lives.last l) ≡ value_of O.meaning ws key (last_of 0 ws) }
    ensures rows { (l : Live) (ws : List Write) (low : List ℕ) (high : Option (List ℕ)) (limit : ℕ) → StandsFor O.meaning l ws →
        IsRising l.version.last l.gathered →
        first_rows O.meaning (lives.writes_of l) (lives.last l) limit (named_keys (lives.writes_of l) low high) ≡
        first_rows O.meaning ws (last_of 0 ws) limit (named_keys ws low high) }
{
    effect_continues_value::<O>();
    equal_values_give_equal_answers::<O>();
}
