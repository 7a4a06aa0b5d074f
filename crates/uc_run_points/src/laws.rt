//! Laws about the encoding.
ghost use Rattle.std.specs.Prelude.{◌≡◌, ℕ, ◌^◌, ◌<◌, List, ◌++◌};
ghost use Rattle.std.specs.List.{AllByRecursion};
ghost use Rattle.uc_run_entry.specs.declared.entry.Entry.{Entry as EntryOf};
ghost use Rattle.uc_run_points.specs.Faults.{IsFaultAt};
ghost use Rattle.uc_run_points.specs.Numbers.{number_text};
ghost use Rattle.uc_run_points.specs.Spelling.{Fits, entries_text};

/// Two lists of entries that fit have different encodings.
pub fn spelling_is_unique()
    ensures { (entries others : List EntryOf) → AllByRecursion Fits entries → AllByRecursion Fits others →
        entries_text entries ≡ entries_text others → entries ≡ others }
{}

/// Bytes with a fault encode no list of entries that fit.
pub fn fault_is_no_spelling()
    ensures { (bytes : List ℕ) (offset : ℕ) (entries : List EntryOf) → IsFaultAt bytes offset →
        AllByRecursion Fits entries → bytes ≡ entries_text entries → ⊥ }
{}

/// The encoding of a number is no prefix of another's.
pub fn numbers_differ()
    ensures { (number other : ℕ) (rest others : List ℕ) → number < 2 ^ 64 → other < 2 ^ 64 →
        number_text number ++ rest ≡ number_text other ++ others → (number ≡ other) × (rest ≡ others) }
{}
