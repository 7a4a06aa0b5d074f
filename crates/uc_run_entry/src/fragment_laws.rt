//! Laws about the fragments of ranges.
ghost use Rattle.std.specs.Prelude.{◌≡◌, ◌≢◌, ℕ, List, [], filter, map};
ghost use Rattle.std.specs.List.{AllByRecursion, flat_map};
ghost use Rattle.uc_run_entry.specs.Order.{IsFalling, AreInOrder};
ghost use Rattle.uc_run_entry.specs.Run.{covers};
ghost use Rattle.uc_run_entry.specs.Cutting.{RangeOf, range_covers, falling, fragments_of};

/// The fragments of any ranges have keys, are in order and don't overlap. Each has sequences, which fall.
pub fn fragments_are_in_order()
    ensures order { (ranges : List RangeOf) → AreInOrder (fragments_of ranges) }
    ensures some { (ranges : List RangeOf) → AllByRecursion (λ f. f.seqs ≢ []) (fragments_of ranges) }
    ensures falling { (ranges : List RangeOf) → AllByRecursion (λ f. IsFalling f.seqs) (fragments_of ranges) }
{}

/// For every key, the sequences of the fragments that cover it are those of the ranges that cover it, the greatest
/// first and each once. So no deletion is lost and none is added.
pub fn fragments_cover_what_ranges_cover()
    ensures { (ranges : List RangeOf) (key : List ℕ) →
        flat_map (λ f. f.seqs) (filter (λ f. covers f key) (fragments_of ranges)) ≡
        falling (map (λ r. r.seq) (filter (λ r. range_covers r key) ranges)) }
{}
