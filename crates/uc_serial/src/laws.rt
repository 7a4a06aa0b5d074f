//! The laws.
ghost use Rattle.std.specs.Prelude.{◌≡◌, ◌<◌, ◌≤◌, ◌++◌, ◌↔◌, true, ℕ, List, Option, IsTrue};
ghost use Rattle.std.specs.List.{AllByRecursion};
ghost use Rattle.uc_bytes.specs.declared.write.Write.{Write};
ghost use Rattle.uc_query_read.specs.declared.query.Query.{Query};
ghost use Rattle.uc_query_read.specs.Answers.{is_in_range, reading};
ghost use Rattle.uc_query_read.specs.Query.{at_of};
ghost use Rattle.uc_serial.specs.Transactions.{AreCommitted, AreSerial, IsCurrent, IsUntouched, Transaction, at_sequence, is_written_in, is_written_since};

use uc_model::later_writes_change_nothing;
use uc_oper::Operator;
use uc_query_read::{equal_values_give_equal_answers, scan_keys_are_named};

/// Writes above the sequence of a query don't change its answer: a transaction that reads later reads the same.
pub fn what_was_read_stays<O: Operator>()
    ensures { (log later : List Write) (query : Query) → AllByRecursion (λ w. at_of query < w.seq) later →
        reading O.meaning (log ++ later) query ≡ reading O.meaning log query }
{
    equal_values_give_equal_answers::<O>();
    later_writes_change_nothing::<O>();
}

/// If no key that a query reads was written above its sequence, each has the same value at any sequence above.
pub fn untouched_reads_are_current<O: Operator>()
    ensures { (log : List Write) (query : Query) (at : ℕ) → at_of query ≤ at → IsUntouched log query →
        IsCurrent O.meaning log at query }
{}

/// If each key that a query reads has the same value at another sequence, the query has the same answer there: a scan shows no other rows.
pub fn current_reads_have_one_answer<O: Operator>()
    ensures { (log : List Write) (query : Query) (at : ℕ) → IsCurrent O.meaning log at query →
        reading O.meaning log (at_sequence at query) ≡ reading O.meaning log query }
{
    scan_keys_are_named();
}

/// Transactions that may commit, one after the other, are serial: each one read the state right before its own writes.
pub fn committed_transactions_are_serial<O: Operator>()
    ensures { (log : List Write) (transactions : List Transaction) → AreCommitted O.meaning log transactions →
        AreSerial O.meaning log transactions }
{
    scan_keys_are_named();
}

/// A read at a snapshot sees the state after the writes at or below it. So a transaction without writes has a place among the others,
/// whatever was written since, and needs no test.
pub fn readers_are_serial_at_their_snapshots<O: Operator>()
    ensures { (before since : List Write) (query : Query) (at : ℕ) → at_of query ≤ at →
        AllByRecursion (λ w. w.seq ≤ at_of query) before → AllByRecursion (λ w. at_of query < w.seq) since →
        reading O.meaning (before ++ since) query ≡ reading O.meaning before (at_sequence at query) }
{
    what_was_read_stays::<O>();
    untouched_reads_are_current::<O>();
    current_reads_have_one_answer::<O>();
}

/// A range was written since a sequence if and only if one of its keys was.
pub fn written_ranges_have_written_keys()
    ensures { (log : List Write) (low : List ℕ) (high : Option (List ℕ)) (since : ℕ) →
        IsTrue (is_written_in log low high since) ↔
        ((key : List ℕ) × IsTrue (is_in_range low high key) × IsTrue (is_written_since log key since)) }
{}
