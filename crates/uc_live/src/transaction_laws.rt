//! Laws of transactions: what makes them serial.
ghost use Rattle.std.specs.Prelude.{◌≡◌, ◌++◌, ℕ, List, None};
ghost use Rattle.uc_bytes.specs.declared.write.Write.{Write};
ghost use Rattle.uc_batch.specs.Rising.{IsRising, last_of};
ghost use Rattle.uc_live.specs.Coming.{HasTaken};
ghost use Rattle.uc_live.specs.Judging.{value_before, value_now};
ghost use Rattle.uc_live.specs.Lives.{Live};
ghost use Rattle.uc_live.specs.Views.{seen_in};
ghost use Rattle.uc_serial.specs.ReadSets.{IsFirstChanged, seen_at};
ghost use Rattle.uc_serial.specs.Transactions.{MayCommit};
ghost use Rattle.uc_serial.specs.declared.read.Read.{Read as ReadOf};

use crate::laws::{stores_answer_as_their_writes, views_answer_as_their_writes};
use uc_model::later_writes_change_nothing;
use uc_oper::Operator;
use uc_serial::reads_of_equal_values_are_current;
use uc_version_state::histories_say_writes_and_keeps;

/// A transaction that read in a view of a store may commit later if none of its reads is changed, whatever the store took, flushed and
/// compacted meanwhile. So [`prepare_if`](crate::LiveStore::prepare_if) prepares transactions that are serial, in the order of their
/// commits, by [`committed_transactions_are_serial`](uc_serial::committed_transactions_are_serial).
pub fn unchanged_transactions_may_commit<O: Operator>()
    ensures { (old new : Live) (before since writes : List Write) (reads : List ReadOf) →
        HasTaken O.meaning old before → IsRising old.version.last old.gathered →
        HasTaken O.meaning new (before ++ since) → IsRising new.version.last new.gathered →
        IsFirstChanged (value_before O.meaning (seen_in old)) (value_now O.meaning new) reads None →
        MayCommit O.meaning (before ++ since)
        (record { reads = seen_at O.meaning (before ++ since) (last_of 0 before) reads; writes = writes }) }
{
    views_answer_as_their_writes::<O>();
    stores_answer_as_their_writes::<O>();
    later_writes_change_nothing::<O>();
    histories_say_writes_and_keeps::<O>();
    reads_of_equal_values_are_current::<O>();
}
