//! Laws about the logs of checkpoints.
ghost use Rattle.std.specs.Prelude.{◌≡◌, ◌≤◌, ℕ, List, [], ◌++◌, Some, length, take};
ghost use Rattle.uc_bytes.specs.declared.write.Write.{Write};
ghost use Rattle.uc_batch.specs.declared.ended.Ended.TheVariants.{Clean};
ghost use Rattle.uc_batch.specs.Log.{log_writes};
ghost use Rattle.uc_batch.specs.Rising.{IsRising};
ghost use Rattle.uc_live.specs.Coming.{HasTaken};
ghost use Rattle.uc_live.specs.Lives as lives;
ghost use Rattle.uc_live.specs.Lives.{Live};
ghost use Rattle.uc_live.specs.Views.{Seen, seen_in};
ghost use Rattle.uc_checkpoint.specs.Checkpoints.{Progress, IsLaidOut, IsPiece, LaysInto, all_rows, rows_left, writes_that_put};

use uc_batch::gathered_batch_is_read;
use uc_live::{batches_are_walked, recorded_batch_is_recovered, views_answer_as_their_writes};
use uc_logrec::written_log_is_read;
use uc_oper::Operator;
use uc_version_state::histories_say_writes_and_keeps;

/// A log without bytes has none of a view's rows. A piece after a log of those that are laid out has the next ones too. If none is
/// left, the log is read back as puts of exactly the rows of the view, numbered from 1, and ends clean.
pub fn pieces_are_read_back<O: Operator>()
    ensures begins { (s : Seen) → IsLaidOut O.meaning s [] (record { seen = s; rows = 0 }) }
    ensures goes_on { (s : Seen) (log bytes : List ℕ) (old new : Progress) → IsLaidOut O.meaning s log old →
        IsPiece O.meaning (length log) bytes old new → IsLaidOut O.meaning s (log ++ bytes) new }
    ensures ends { (s : Seen) (log : List ℕ) (p : Progress) → IsLaidOut O.meaning s log p → rows_left O.meaning p ≡ [] →
        log_writes log ≡ record { list = writes_that_put (all_rows O.meaning s); ended = Clean } }
{
    written_log_is_read();
    batches_are_walked();
    recorded_batch_is_recovered();
    gathered_batch_is_read();
}

/// A piece that is in the buffer continues a log of the rows before it. So pieces that were encoded into buffers are read back too.
pub fn pieces_in_rooms_are_read_back<O: Operator>()
    ensures { (s : Seen) (log room room' : List ℕ) (most size : ℕ) (old new : Progress) → IsLaidOut O.meaning s log old →
        LaysInto O.meaning (length log) most (Some size) room room' old new → size ≤ length room →
        IsLaidOut O.meaning s (log ++ take size room') new }
{
    pieces_are_read_back::<O>();
}

/// A view of a store has at most as many rows as the store has taken writes, and so as its last sequence says.
pub fn rows_are_at_most_the_writes<O: Operator>()
    ensures { (l : Live) (writes : List Write) → HasTaken O.meaning l writes → IsRising l.version.last l.gathered →
        length (all_rows O.meaning (seen_in l)) ≤ lives.last l }
{
    histories_say_writes_and_keeps::<O>();
    views_answer_as_their_writes::<O>();
}
