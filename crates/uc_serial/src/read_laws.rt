//! Laws of read sets.
ghost use Rattle.std.specs.Prelude.{◌≡◌, ◌<◌, ℕ, List, Option, IsTrue, length};
ghost use Rattle.std.specs.List.{AllByRecursion};
ghost use Rattle.uc_bytes.specs.declared.write.Write.{Write};
ghost use Rattle.uc_model.specs.Meaning.{value_of};
ghost use Rattle.uc_query_read.specs.Answers.{first_rows, is_in_range, named_keys};
ghost use Rattle.uc_serial.specs.ReadSets.{IsFirstChanged, IsUnchanged, query_at, seen_at};
ghost use Rattle.uc_serial.specs.Transactions.{MayCommit, Transaction};
ghost use Rattle.uc_serial.specs.declared.read.Read.{Read as ReadOf};
ghost use Rattle.uc_batch.specs.Rising.{last_of};

use uc_model::value_is_given;
use uc_oper::Operator;
use uc_query_read::{scan_rows_are_determined, scan_rows_are_first};

/// All rows of a range are those of another store if and only if each key of the range has the same value in both. The stores may have
/// different operators.
pub fn rows_say_values<O: Operator, P: Operator>()
    ensures values { (log others : List Write) (low : List ℕ) (high : Option (List ℕ)) (at since limit : ℕ) →
        first_rows O.meaning log at limit (named_keys log low high) ≡
        first_rows P.meaning others since limit (named_keys others low high) →
        length (first_rows O.meaning log at limit (named_keys log low high)) < limit →
        (key : List ℕ) → IsTrue (is_in_range low high key) →
        value_of O.meaning log key at ≡ value_of P.meaning others key since }
    ensures rows { (log others : List Write) (low : List ℕ) (high : Option (List ℕ)) (at since limit : ℕ) →
        ((key : List ℕ) → IsTrue (is_in_range low high key) →
        value_of O.meaning log key at ≡ value_of P.meaning others key since) →
        first_rows O.meaning log at limit (named_keys log low high) ≡
        first_rows P.meaning others since limit (named_keys others low high) }
{
    value_is_given::<O>();
    value_is_given::<P>();
    scan_rows_are_first::<O>();
    scan_rows_are_first::<P>();
    scan_rows_are_determined::<P>();
}

/// A transaction may commit if none of its reads at a sequence is changed at the end of the log.
pub fn reads_of_equal_values_are_current<O: Operator>()
    ensures { (log writes : List Write) (at : ℕ) (reads : List ReadOf) →
        IsFirstChanged (λ key. value_of O.meaning log key at) (λ key. value_of O.meaning log key (last_of 0 log)) reads None →
        MayCommit O.meaning log (record { reads = seen_at O.meaning log at reads; writes = writes }) }
{}
