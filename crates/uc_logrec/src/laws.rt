//! Laws about the definitions alone.
ghost use Rattle.std.specs.Prelude.{ℕ, ◌+◌, List, [], ◌∷◌, ◌++◌, length};
ghost use Rattle.uc_logrec.specs.Log.{IsReadAgain, payloads_of, ending_of, payload_text};
ghost use Rattle.uc_logrec.specs.Grammar.{AreBytes, IsMeaning};
ghost use Rattle.uc_logrec.specs.Layout.{IsLaidOut};
ghost use Rattle.uc_logrec.specs.Walk.{Walks, BeginsWith, cut_and_added, GoesOn};

/// Reading the log of payloads returns these payloads, and the log ends clean.
pub fn written_log_is_read()
    ensures { (payloads : List (List ℕ)) → IsReadAgain payloads }
{}

/// The reader returns what the bytes hold by the grammar of `log_format.md`, and the bytes hold nothing else.
pub fn log_is_read_by_grammar()
    ensures { (bytes : List ℕ) → AreBytes bytes → IsMeaning bytes (payloads_of bytes) (ending_of bytes) }
{}

/// The log of payloads is their records one after the other, and each but a payload's last fills its block. Only an
/// empty payload's last record has no data.
pub fn written_records_fill_blocks()
    ensures { (payloads : List (List ℕ)) → IsLaidOut payloads }
{}

/// A walk of [`next_payload`](crate::next_payload) gives the first payloads of the log. The others and the ending are
/// what is ahead of it.
pub fn walk_begins_log()
    ensures { (log : List ℕ) (payloads : List (List ℕ)) (offset : ℕ) →
        Walks log payloads offset → BeginsWith log payloads offset }
{}

/// Whatever stands after a walk, the walk stays the same. So an append that is cut off takes no earlier payload away.
pub fn walk_is_kept()
    ensures { (log : List ℕ) (payloads : List (List ℕ)) (offset : ℕ) →
        Walks log payloads offset → (rest : List ℕ) → Walks (cut_and_added log offset rest) payloads offset }
{}

/// A log continues at the position of a walk: cut there and followed by more payloads, it is read as the walk's and these. So a log
/// that is torn or faulty after the offset can be repaired.
pub fn log_goes_on()
    ensures { (log : List ℕ) (payloads : List (List ℕ)) (offset : ℕ) →
        Walks log payloads offset → (more : List (List ℕ)) → GoesOn log payloads offset more }
{}

/// So does the walk: over the log that is cut there, and has the bytes of one payload more, it leads after them.
pub fn walk_goes_on()
    ensures { (log : List ℕ) (payloads : List (List ℕ)) (offset : ℕ) →
        Walks log payloads offset → (payload : List ℕ) →
        Walks (cut_and_added log offset (payload_text offset payload)) (payloads ++ payload ∷ [])
        (offset + length (payload_text offset payload)) }
{}
