//! Laws about the plain list of a run, under every operator.
ghost use Rattle.std.specs.Prelude.{◌≡◌, ℕ, ◌&&◌, List, nat_lt, nat_le};
ghost use Rattle.std.specs.List.Sorted.{IsPermutation, IsNonDecreasingBy};
ghost use Rattle.uc_bytes.specs.declared.write.Write.{Write};
ghost use Rattle.uc_model.specs.Meaning.{effect_on, effect_within};
ghost use Rattle.uc_run_entry.specs.Run.{Contents, IsRun};
ghost use Rattle.uc_run_entry.specs.PlainList.{writes_of, plain_list};
ghost use Rattle.uc_run_entry.specs.Lookup.{effect_found, passing_effect};

use uc_oper::Operator;

/// The plain list has the writes of the points and fragments, each once, and their sequences don't fall.
pub fn plain_list_is_in_order()
    ensures same { (run : Contents) → IsPermutation (writes_of run) (plain_list run) }
    ensures ascends { (run : Contents) → IsNonDecreasingBy (λ (w : Write). w.seq) (plain_list run) }
{}

/// A lookup finds the effect of a run's plain list on a key at a sequence. The lookup takes the points above
/// the newest range deletion over the key, applied to no value if there is such a deletion.
pub fn plain_list_does_what_is_found<O: Operator>()
    ensures { (run : Contents) (key : List ℕ) (at : ℕ) → IsRun run.low run.high run.points run.fragments →
        effect_on O.meaning (plain_list run) key at ≡ effect_found O.meaning run key at }
{}

/// The same within a stripe: the points and range deletions above `low`, at or below `high`.
pub fn stripes_of_plain_list_do_what_is_found<O: Operator>()
    ensures { (run : Contents) (key : List ℕ) (low high : ℕ) → IsRun run.low run.high run.points run.fragments →
        effect_within O.meaning (plain_list run) key low high ≡
        passing_effect O.meaning run key (λ seq. nat_lt low seq && nat_le seq high) }
{}
