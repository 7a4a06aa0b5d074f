//! Laws about the value of a key, by where a lookup of it is answered.
ghost use Rattle.std.specs.Prelude.{◌≡◌, ◌≢◌, ◌≤◌, ◌++◌, ℕ, List, []};
ghost use Rattle.std.specs.List.{AllByRecursion};
ghost use Rattle.uc_bytes.specs.declared.write.Write.{Write};
ghost use Rattle.uc_model.specs.Meaning.{touching, value_of};
ghost use Rattle.uc_version_state.specs.Versions.{contents_of, writes_in};
ghost use Rattle.uc_live.specs.declared.lookup_source.LookupSource.TheVariants.{Memtable, Filters, Runs};
ghost use Rattle.uc_live.specs.Sources.{source_of};
ghost use Rattle.uc_live.specs.Views as views;
ghost use Rattle.uc_live.specs.Views.{Seen};

use uc_model::{effect_continues_value, effect_gives_value, keys_are_touched_by_name_or_range};
use uc_oper::Operator;
use uc_run::plain_list_is_in_order;

/// If the memtables answer, the value is that of their writes, whatever is before them. If the filters answer, it is that too, and
/// no run has a point of the key. If the runs answer, a lookup sees a write of theirs.
pub fn sources_tell_what_values_come_of<O: Operator>()
    ensures memtable { (s : Seen) (key : List ℕ) (before : List Write) → source_of s key ≡ Memtable →
        value_of O.meaning (before ++ s.gathered) key (views.last s) ≡ value_of O.meaning s.gathered key (views.last s) }
    ensures filters { (s : Seen) (key : List ℕ) → source_of s key ≡ Filters →
        value_of O.meaning (views.writes_of s) key (views.last s) ≡ value_of O.meaning s.gathered key (views.last s) }
    ensures no_point { (s : Seen) (key : List ℕ) → source_of s key ≡ Filters →
        AllByRecursion (λ run. AllByRecursion (λ p. p.seq ≤ views.last s → p.key ≢ key) run.points)
        (contents_of s.version.runs) }
    ensures runs { (s : Seen) (key : List ℕ) → source_of s key ≡ Runs →
        touching (writes_in s.version) key (views.last s) ≢ [] }
{
    effect_continues_value::<O>();
    effect_gives_value::<O>();
    plain_list_is_in_order();
    keys_are_touched_by_name_or_range();
}
