//! Laws about runs, and about the run that rising writes are flushed to.
ghost use Rattle.std.specs.Prelude.{◌≡◌, ◌≢◌, ℕ, Bool, false, List, [], Option, Some};
ghost use Rattle.uc_bytes.specs.declared.write.Write.{Write};
ghost use Rattle.uc_batch.specs.Rising.{IsRising};
ghost use Rattle.uc_oper.specs.declared.effect.Effect.TheVariants.{Keep};
ghost use Rattle.uc_model.specs.Meaning.{effect_on};
ghost use Rattle.uc_run_entry.specs.Run.{Contents, IsRun};
ghost use Rattle.uc_run_entry.specs.PlainList.{plain_list};
ghost use Rattle.uc_run_entry.specs.Seek.{seek_place};
ghost use Rattle.uc_run.specs.Flush.{flushed};
ghost use Rattle.uc_run.specs.Heads.{next_key};
ghost use Rattle.uc_run.specs.NextKey.{IsNextKey};

use uc_oper::Operator;

/// Writes with rising sequences are flushed to a run, if there are any.
pub fn flushed_writes_are_a_run()
    ensures { (writes : List Write) → IsRising 0 writes → writes ≢ [] →
        IsRun (flushed writes).low (flushed writes).high (flushed writes).points (flushed writes).fragments }
{}

/// The plain list of the flushed run does to a key at a sequence what the writes do: the flush changes no answer.
pub fn flush_keeps_every_effect<O: Operator>()
    ensures { (writes : List Write) (key : List ℕ) (at : ℕ) → IsRising 0 writes → writes ≢ [] →
        effect_on O.meaning (plain_list (flushed writes)) key at ≡ effect_on O.meaning writes key at }
{}

/// The key at the place of a search is the least one that the search finds.
pub fn keys_at_places_are_next()
    ensures { (run : Contents) (low : List ℕ) (strict : Bool) →
        IsRun run.low run.high run.points run.fragments → IsNextKey run.points low strict
        (next_key (record { run = run; place = seek_place run.points low strict })) }
{}

/// A run without range deletions does nothing to a key if the least of its keys at or above that one is another.
pub fn other_keys_are_kept<O: Operator>()
    ensures { (run : Contents) (key : List ℕ) (next : Option (List ℕ)) (at : ℕ) →
        IsRun run.low run.high run.points run.fragments →
        IsNextKey run.points key false next → next ≢ Some key →
        run.fragments ≡ [] →
        effect_on O.meaning (plain_list run) key at ≡ Keep }
{}
