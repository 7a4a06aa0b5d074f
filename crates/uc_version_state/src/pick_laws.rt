//! Laws about a pick.
ghost use Rattle.std.specs.Prelude.{◌≡◌, ◌≤◌, ◌<◌, ◌+◌, ◌-◌, ◌*◌, ℕ, List, Some, None, min, true, length};
ghost use Rattle.std.specs.Prelude.{take, drop, slice_index_or, is_some};
ghost use Rattle.uc_version_state.specs.declared.options.Options.{Options};
ghost use Rattle.uc_version_state.specs.declared.stretch.Stretch.{Stretch};
ghost use Rattle.uc_version_state.specs.declared.candidate.Candidate.{Candidate};
ghost use Rattle.uc_version_state.specs.Options.{are_good};
ghost use Rattle.uc_version_state.specs.Picks.{total, newer, oldest, are_unclaimed, collected, size_ratio};
ghost use Rattle.uc_version_state.specs.Picks.{unclaimed, number_of_runs, picked};
ghost use Rattle.uc_version_state.specs.Collecting.{MayBeCollected};

/// Nothing is picked if there are fewer runs than the trigger.
pub fn nothing_is_picked_below_the_trigger()
    ensures { (o : Options) (runs : List Candidate) → length runs < o.trigger → picked o runs ≡ None }
{}

/// A pick lies within the runs, and none of it is claimed. With good options it has two runs or more.
pub fn picks_are_unclaimed_runs()
    ensures there { (o : Options) (runs : List Candidate) (s : Stretch) → picked o runs ≡ Some s →
        s.first + s.count ≤ length runs }
    ensures unclaimed { (o : Options) (runs : List Candidate) (s : Stretch) → picked o runs ≡ Some s →
        are_unclaimed (take s.count (drop s.first runs)) ≡ true }
    ensures two { (o : Options) (runs : List Candidate) (s : Stretch) → are_good o ≡ true →
        picked o runs ≡ Some s → 2 ≤ s.count }
{}

/// From the trigger on, all runs are picked if there are two or more, none is claimed, and those but the oldest are
/// together above `percent` percent of the oldest one's size.
pub fn amplified_runs_are_all_picked()
    ensures { (o : Options) (runs : List Candidate) → o.trigger ≤ length runs → 2 ≤ length runs → are_unclaimed runs ≡ true →
        o.percent * total (oldest runs) < 100 * total (newer runs) →
        picked o runs ≡ Some (record { first = 0; count = length runs }) }
{}

/// The number of collected runs is the greatest number, from the first run on, that may be collected.
pub fn collected_is_the_greatest_number()
    ensures may_be { (o : Options) (runs : List Candidate) → MayBeCollected o runs (collected o runs) }
    ensures greatest { (o : Options) (runs : List Candidate) (n : ℕ) → MayBeCollected o runs n → n ≤ collected o runs }
{}

/// The size ratio picks the runs collected from the first place on where at least `least` are: no more than `greatest`.
/// If it picks none, no place has as many.
pub fn size_ratio_picks_the_first_that_collects_enough()
    ensures there { (o : Options) (runs : List Candidate) (s : Stretch) →
        size_ratio o runs ≡ Some s → s.first < length runs }
    ensures count { (o : Options) (runs : List Candidate) (s : Stretch) → size_ratio o runs ≡ Some s →
        s.count ≡ collected o (drop s.first runs) }
    ensures least { (o : Options) (runs : List Candidate) (s : Stretch) →
        size_ratio o runs ≡ Some s → o.least ≤ s.count }
    ensures greatest { (o : Options) (runs : List Candidate) (s : Stretch) → are_good o ≡ true → size_ratio o runs ≡ Some s →
        s.count ≤ o.greatest }
    ensures first { (o : Options) (runs : List Candidate) (s : Stretch) → are_good o ≡ true → size_ratio o runs ≡ Some s →
        (k : ℕ) → k < s.first → collected o (drop k runs) < o.least }
    ensures none { (o : Options) (runs : List Candidate) → are_good o ≡ true → size_ratio o runs ≡ None →
        (k : ℕ) → k < length runs → collected o (drop k runs) < o.least }
{}

/// By the number of runs, the pick comes from the first stretch of two or more unclaimed neighbours: a claimed run or
/// none comes before it. It takes as many of the stretch's newest runs as bring the number of runs down to the trigger,
/// and no more than `greatest`. If there are more runs than the trigger and none is picked, no two unclaimed ones are
/// neighbours.
pub fn number_of_runs_picks_from_the_first_stretch()
    ensures many { (o : Options) (runs : List Candidate) (s : Stretch) →
        number_of_runs o runs ≡ Some s → o.trigger < length runs }
    ensures count { (o : Options) (runs : List Candidate) (s : Stretch) → number_of_runs o runs ≡ Some s →
        s.count ≡ min (unclaimed (drop s.first runs)) (min (length runs - o.trigger + 1) o.greatest) }
    ensures two { (o : Options) (runs : List Candidate) (s : Stretch) → number_of_runs o runs ≡ Some s →
        2 ≤ unclaimed (drop s.first runs) }
    ensures front { (o : Options) (runs : List Candidate) (s : Stretch) → are_good o ≡ true →
        number_of_runs o runs ≡ Some s →
        (k : ℕ) (d : Candidate) → k + 1 ≡ s.first → (slice_index_or runs k d).claimed ≡ true }
    ensures first { (o : Options) (runs : List Candidate) (s : Stretch) → are_good o ≡ true →
        number_of_runs o runs ≡ Some s →
        (k : ℕ) → k < s.first → unclaimed (drop k runs) < 2 }
    ensures none { (o : Options) (runs : List Candidate) → are_good o ≡ true → o.trigger < length runs →
        number_of_runs o runs ≡ None → (k : ℕ) → k < length runs → unclaimed (drop k runs) < 2 }
{}

/// If there are more runs than the trigger, and two unclaimed neighbours among them, something is picked.
pub fn something_is_picked_above_the_trigger()
    ensures { (o : Options) (runs : List Candidate) (k : ℕ) → are_good o ≡ true → o.trigger < length runs →
        2 ≤ unclaimed (drop k runs) → is_some (picked o runs) ≡ true }
{}
