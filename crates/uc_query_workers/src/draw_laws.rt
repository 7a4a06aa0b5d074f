//! The meaning of the counter's rule, as a law that the check proves.
ghost use Rattle.std.specs.Prelude.{◌≡◌, ℕ, ◌+◌, ◌≤◌, List, nat_lt, slice_index, if◌then◌else◌};
ghost use Rattle.uc_query_workers.specs.declared.rule.Drawer.{Drawer};
ghost use Rattle.uc_query_workers.specs.declared.rule.Shares.{Shares};
ghost use Rattle.uc_query_workers.specs.Draws.{Draws, times_in_all};

/// No number is taken twice, and the word never wraps: wherever the rule holds, which is between any two steps of any number of
/// threads, each number below the word stands once in the seats' lists together, no other does, and the word is at most the number
/// of pieces and of workers together.
///
/// It does nothing: it stands for its contract, which speaks of the rule alone.
pub fn numbers_are_drawn_once()
    ensures once { (shares : Shares) (words : List ℕ) (seats : List Drawer) (number : ℕ) → Draws shares words seats →
        times_in_all number seats ≡ (if nat_lt number (slice_index words 0) then 1 else 0) }
    ensures bound { (shares : Shares) (words : List ℕ) (seats : List Drawer) → Draws shares words seats →
        slice_index words 0 ≤ shares.pieces + shares.workers }
{}
