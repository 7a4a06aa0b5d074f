//! [`pick_among`]: which runs are compacted next.
ghost use Rattle.std.specs.Prelude.{◌≡◌, ◌≤◌, ◌^◌, length};
ghost use Rattle.uc_version_state.specs.Picks as picks;
ghost use Rattle.uc_version_state.specs.Picks.{picked, first_picked};

use crate::candidate::Candidate;
use crate::options::Options;
use crate::stretch::Stretch;

/// The size of some runs together, in bytes.
fn total(candidates: &[Candidate]) -> u128
    requires few { length candidates.now ≤ 65536 }
    ensures value { result ≡ picks.total candidates.now }
    ensures fits { result ≤ 2 ^ 80 }
{
    let mut all = 0;
    for candidate in candidates {
        all += u128::from(candidate.size);
    }
    all
}

/// Whether the newer runs are above `max_size_amplification_percent` of the oldest one's size.
fn is_amplified(options: &Options, candidates: &[Candidate]) -> bool
    requires few { length candidates.now ≤ 65536 }
    ensures { result ≡ picks.is_amplified options.now candidates.now }
{
    let percent = options.percent;
    let (newer, oldest) = candidates.split_at(candidates.len().saturating_sub(1));
    u128::from(percent) * total(oldest) < 100 * total(newer)
}

/// Whether no run is claimed.
fn are_unclaimed(candidates: &[Candidate]) -> bool
    ensures { result ≡ picks.are_unclaimed candidates.now }
{
    candidates.iter().all(|candidate| !candidate.claimed)
}

/// Space amplification: all runs, if there are two or more, none is claimed, and the newer ones are too large.
fn space_amplification(options: &Options, candidates: &[Candidate]) -> Option<Stretch>
    requires few { length candidates.now ≤ 65536 }
    ensures { result ≡ picks.space_amplification options.now candidates.now }
{
    if 2 <= candidates.len() && are_unclaimed(candidates) && is_amplified(options, candidates) {
        Some(Stretch {
            first: 0,
            count: candidates.len(),
        })
    } else {
        None
    }
}

/// Whether a size isn't above a sum of sizes by more than `ratio` percent.
fn is_within_ratio(ratio: u32, sum: u128, size: u64) -> bool
    requires { sum ≤ 2 ^ 80 }
    ensures { result ≡ picks.is_within_ratio ratio sum size }
{
    100 * u128::from(size) <= (100 + u128::from(ratio)) * sum
}

/// Whether a run is collected after `count` others of this sum.
fn is_collected(options: &Options, count: usize, sum: u128, candidate: &Candidate) -> bool
    requires { sum ≤ 2 ^ 80 }
    ensures { result ≡ picks.is_collected options.now count sum candidate.now }
{
    let has_room = count < options.greatest as usize;
    !candidate.claimed
        && (count == 0 || has_room && is_within_ratio(options.ratio, sum, candidate.size))
}

/// The number of runs that are collected from the first on: a run is, while it is unclaimed and within the ratio of the sum of
/// those before it, up to `max_merge_width` of them.
fn collected(options: &Options, candidates: &[Candidate]) -> usize
    requires few { length candidates.now ≤ 65536 }
    ensures { result ≡ picks.collected options.now candidates.now }
{
    let mut sum = 0;
    let mut count = 0;
    for candidate in candidates {
        if !is_collected(options, count, sum, candidate) {
            return count;
        }
        sum += u128::from(candidate.size);
        count += 1;
    }
    count
}

/// The number of runs that the size ratio picks from the first on: 0 if fewer than `min_merge_width` are collected.
fn collected_enough(options: &Options, candidates: &[Candidate]) -> usize
    requires few { length candidates.now ≤ 65536 }
    ensures { result ≡ picks.collected_enough options.now candidates.now }
{
    let least = options.least as usize;
    // Too few are left, so their sizes needn't be looked at: among many runs that saves half of a search.
    if candidates.len() < least {
        return 0;
    }
    let count = collected(options, candidates);
    if least <= count { count } else { 0 }
}

/// Size ratio: the first place from which enough runs are collected, and these.
fn size_ratio(options: &Options, candidates: &[Candidate]) -> Option<Stretch>
    requires few { length candidates.now ≤ 65536 }
    ensures { result ≡ picks.size_ratio options.now candidates.now }
{
    for first in 0..candidates.len() {
        let count = collected_enough(options, &candidates[first..]);
        if 0 < count {
            return Some(Stretch { first, count });
        }
    }
    None
}

/// The number of unclaimed runs at the head of some.
fn unclaimed(candidates: &[Candidate]) -> usize
    ensures { result ≡ picks.unclaimed candidates.now }
{
    let mut count = 0;
    for candidate in candidates {
        if candidate.claimed {
            return count;
        }
        count += 1;
    }
    count
}

/// The number of runs that the number of runs picks from the first on: 0 if fewer than two unclaimed ones are there.
fn unclaimed_at_most(most: usize, candidates: &[Candidate]) -> usize
    ensures { result ≡ picks.unclaimed_at_most most candidates.now }
{
    let count = unclaimed(candidates);
    if 2 <= count { count.min(most) } else { 0 }
}

/// The first place with two unclaimed neighbours, and at most `most` unclaimed runs from there on.
fn first_unclaimed(most: usize, candidates: &[Candidate]) -> Option<Stretch>
    ensures { result ≡ first_picked (picks.unclaimed_at_most most) 0 candidates.now }
{
    for first in 0..candidates.len() {
        let count = unclaimed_at_most(most, &candidates[first..]);
        if 0 < count {
            return Some(Stretch { first, count });
        }
    }
    None
}

/// Number of runs: if there are more than the trigger, the first unclaimed neighbours. They are as many as bring the
/// number of runs down to the trigger, and at most `max_merge_width`.
fn number_of_runs(options: &Options, candidates: &[Candidate]) -> Option<Stretch>
    requires few { length candidates.now ≤ 65536 }
    ensures { result ≡ picks.number_of_runs options.now candidates.now }
{
    let trigger = options.trigger as usize;
    if candidates.len() <= trigger {
        return None;
    }
    let most = candidates.len() - trigger + 1;
    first_unclaimed(most.min(options.greatest as usize), candidates)
}

/// The neighbouring runs that are compacted next, of runs that come newest first (RocksDB wiki, "Universal Compaction"),
/// or `None`. Runs below are the candidates, and n is their number. If n is below `trigger` nothing is picked.
/// Otherwise the first of these rules that picks any decides:
///
/// 1. Space amplification: all runs, if there are two or more, none is claimed, and those but the oldest are together
///    above `percent` percent of the oldest one's size. It ignores `least` and `greatest`.
/// 2. Size ratio: from a start, a run is collected after those before it while it is unclaimed, they are fewer than
///    `greatest`, and its size isn't above their sum by more than `ratio` percent. The first start from which at least
///    `least` runs are collected is picked, with these.
/// 3. Number of runs: if n is above `trigger`, the first unclaimed neighbours: as many as bring n down to `trigger` when
///    they become one, and at most `greatest`. It ignores `least`.
///
/// It doesn't allocate, and takes at most n^2 steps. There are at most 65,536 candidates, so every sum and product of
/// sizes is exact. With good options a pick has two runs or more, all of them unclaimed (`picks_are_unclaimed_runs`).
pub fn pick_among(options: &Options, candidates: &[Candidate]) -> Option<Stretch>
    requires few { length candidates.now ≤ 65536 }
    ensures { result ≡ picked options.now candidates.now }
{
    if candidates.len() < options.trigger as usize {
        return None;
    }
    if let Some(whole) = space_amplification(options, candidates) {
        return Some(whole);
    }
    if let Some(stretch) = size_ratio(options, candidates) {
        return Some(stretch);
    }
    number_of_runs(options, candidates)
}
