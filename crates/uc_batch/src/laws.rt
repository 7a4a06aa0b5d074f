//! Laws about the definitions alone.
ghost use Rattle.std.specs.Prelude.{◌≡◌, ℕ, ◌+◌, ◌^◌, ◌<◌, ◌≤◌, List, length, Ok, Err};
ghost use Rattle.uc_bytes.specs.declared.op.Op.{Op as Operation};
ghost use Rattle.uc_bytes.specs.declared.write.Write.{Write as Written};
ghost use Rattle.uc_batch.specs.Batch.{numbered, batch_of};
ghost use Rattle.uc_logrec.specs.Grammar.{AreBytes};
ghost use Rattle.uc_batch.specs.declared.error.BatchError.{BatchError as Fault};
ghost use Rattle.uc_batch.specs.declared.error.BatchError.TheVariants.{SequenceTooLarge};
ghost use Rattle.uc_batch.specs.Gathering.{FitTogether, numbered_text};
ghost use Rattle.uc_batch.specs.Grammar.{IsBatch};
ghost use Rattle.uc_batch.specs.Refusal.{IsRefused};
ghost use Rattle.uc_batch.specs.Spelling.{batch_text, FitsBatch};

/// Reading what the writer wrote returns the same operations, after every sequence below the batch's own.
pub fn written_batch_is_read()
    ensures { (last seq : ℕ) (ops : List Operation) → FitsBatch seq ops → (0 < length ops → last < seq) →
        batch_of last (batch_text seq ops) ≡ Ok (numbered seq ops) }
{}

/// The bytes that the writer writes for operations are a batch of them by the grammar.
pub fn written_batch_is_spelled()
    ensures { (seq : ℕ) (ops : List Operation) → FitsBatch seq ops → IsBatch (batch_text seq ops) seq (length ops) ops }
{}

/// A rejected batch has the fault that is returned. It is in the sequence number, or in the first faulty record from the left; if
/// all records are right, in their number.
pub fn refusal_stands_in_batch()
    ensures { (last : ℕ) (bytes : List ℕ) (fault : Fault) → AreBytes bytes →
        batch_of last bytes ≡ Err fault → IsRefused last bytes fault }
{}

/// Operations that were encoded as a batch without a sequence number are read with the numbers after the last one, if enough are
/// left. Otherwise the batch is rejected for that.
pub fn gathered_batch_is_read()
    ensures text { (seq : ℕ) (ops : List Operation) → numbered_text seq ops ≡ batch_text seq ops }
    ensures read { (last : ℕ) (ops : List Operation) → FitTogether ops → last + length ops < 2 ^ 56 →
        batch_of last (numbered_text (last + 1) ops) ≡ Ok (numbered (last + 1) ops) }
    ensures refused { (last : ℕ) (ops : List Operation) → FitTogether ops → last < 2 ^ 56 → 2 ^ 56 ≤ last + length ops →
        batch_of last (numbered_text (last + 1) ops) ≡ Err SequenceTooLarge }
    // Whatever the last one is.
    ensures only { (last : ℕ) (ops : List Operation) (writes : List Written) → FitTogether ops →
        batch_of last (numbered_text (last + 1) ops) ≡ Ok writes →
        (writes ≡ numbered (last + 1) ops) × (0 < length ops → last + length ops < 2 ^ 56) }
{}
