//! The points and fragments that make a run.
ghost use Rattle.std.specs.Prelude.{◌≡◌, ◌≤◌, ◌&&◌, [], ◌∷◌, filter, IfSome, IfNone, MatchOption, if◌then◌else◌};
ghost use Rattle.std.specs.Prelude.{◌↔◌, true, Contains, IsTrue};
ghost use Rattle.std.specs.List.{AllByRecursion};
ghost use Rattle.std.specs.List.Sorted.{IsStrictlySortedBy};
ghost use Rattle.std.specs.Ordering.{is_lt, is_le};
ghost use Rattle.uc_bytes.specs.Bytes.{bytes_cmp};
ghost use Rattle.uc_run_entry.specs.Order.{entry_cmp, IsFalling, AreInOrder, FirstHasKeys};
ghost use Rattle.uc_run_entry.specs.Run as run;
ghost use Rattle.uc_run_entry.specs.Run.{IsWithin, IsWhole, IsApart, IsRun};

use crate::Seqs;
use crate::entry::Entry;
use crate::fragment::Fragment;
use std::cmp::Ordering;
use uc_bytes::MAX_SEQUENCE;

/// Whether a sequence lies in a range of sequences.
fn is_within(low: u64, high: u64, seq: u64) -> bool
    ensures { IsTrue result ↔ IsWithin low high seq }
{
    low <= seq && seq <= high
}

/// Whether a point comes before another: its key is less, or equal and the point newer.
fn is_before(point: &Entry, other: &Entry) -> bool
    ensures { result ≡ is_lt (entry_cmp point.now other.now) }
{
    match point.key.cmp(&other.key) {
        Ordering::Less => true,
        Ordering::Equal => other.seq < point.seq,
        Ordering::Greater => false,
    }
}

/// Whether points are in order of key, and those of one key have falling sequences.
fn are_sorted(points: &[Entry]) -> bool
    ensures { IsTrue result ↔ IsStrictlySortedBy entry_cmp points.now }
{
    points.is_sorted_by(is_before)
}

/// Whether a fragment has keys.
fn has_keys(fragment: &Fragment) -> bool
    ensures { result ≡ is_lt (bytes_cmp fragment.now.begin fragment.now.end) }
{
    fragment.begin().cmp(&fragment.end()).is_lt()
}

/// Whether a fragment ends at or before the begin of another, which has keys.
fn is_followed_by(fragment: &Fragment, next: &Fragment) -> bool
    ensures { result ≡
        (is_le (bytes_cmp fragment.now.end next.now.begin) && is_lt
        (bytes_cmp next.now.begin next.now.end)) }
{
    fragment.end().cmp(&next.begin()).is_le() && has_keys(next)
}

/// Whether the first fragment, if there is one, has keys.
fn first_has_keys(fragments: &[Fragment]) -> bool
    ensures { IsTrue result ↔ FirstHasKeys fragments.now }
{
    match fragments {
        [] => true,
        [first, ..] => has_keys(first),
    }
}

/// Whether fragments have keys, are in order and don't overlap.
fn are_in_order(fragments: &[Fragment]) -> bool
    ensures { IsTrue result ↔ AreInOrder fragments.now }
{
    first_has_keys(fragments) && fragments.is_sorted_by(is_followed_by)
}

/// Whether all of falling sequences are at or below a number: the newest is.
fn are_upto(high: u64, seqs: &Seqs) -> bool
    requires { IsFalling seqs.now }
    ensures { IsTrue result ↔ AllByRecursion (λ n. n ≤ high) seqs.now }
{
    match seqs.newest() {
        None => true,
        Some(newest) => newest <= high,
    }
}

/// Whether all of falling sequences are at or above a number: none is below it.
fn are_from(low: u64, seqs: &Seqs) -> bool
    requires { IsFalling seqs.now }
    ensures { IsTrue result ↔ AllByRecursion (λ n. low ≤ n) seqs.now }
{
    low == 0 || seqs.newest_at_or_below(low - 1).is_none()
}

/// Whether all of falling sequences lie in a range.
fn are_within(low: u64, high: u64, seqs: &Seqs) -> bool
    requires { IsFalling seqs.now }
    ensures { IsTrue result ↔ AllByRecursion (IsWithin low high) seqs.now }
{
    are_upto(high, seqs) && are_from(low, seqs)
}

/// Whether a fragment has sequences, which fall and lie in a range.
fn is_whole(low: u64, high: u64, fragment: &Fragment) -> bool
    ensures { IsTrue result ↔ IsWhole low high fragment.now }
{
    let seqs = fragment.seqs();
    !seqs.is_empty() && seqs.are_falling() && are_within(low, high, seqs)
}

/// Whether the fragment covers a key: from its begin to below its end.
fn covers(fragment: &Fragment, key: &[u8]) -> bool
    ensures { result ≡ run.covers fragment.now key.now }
{
    fragment.begin().cmp(&key).is_le() && key.cmp(&fragment.end()).is_lt()
}

/// Whether the fragment ends at or before a key.
fn ends_by(fragment: &Fragment, key: &[u8]) -> bool
    ensures { result ≡ is_le (bytes_cmp fragment.now.end key.now) }
{
    fragment.end().cmp(&key).is_le()
}

/// The first fragment that ends above a key, if one does: no other can cover the key.
fn first_above<'a>(fragments: &'a [Fragment], key: &[u8]) -> Option<&'a Fragment>
    requires { AreInOrder fragments.now }
    ensures { MatchOption result (filter (λ g. run.covers g key.now) fragments.now ≡ [])
        (λ f. filter (λ g. run.covers g key.now) fragments.now ≡ (if run.covers f.now key.now then f.now ∷ [] else [])) }
{
    let place = fragments.partition_point(|fragment| ends_by(fragment, key));
    fragments.get(place)
}

/// The fragment that covers a key, if one does. Fragments in order don't overlap, so there is no other.
///
/// It is a binary search.
pub fn covering_fragment<'a>(fragments: &'a [Fragment], key: &[u8]) -> Option<&'a Fragment>
    requires { AreInOrder fragments.now }
    ensures some { IfSome result (λ f. filter (λ g. run.covers g key.now) fragments.now ≡ f.now ∷ []) }
    ensures none { IfNone result (filter (λ g. run.covers g key.now) fragments.now ≡ []) }
{
    match first_above(fragments, key) {
        None => None,
        Some(fragment) => {
            if covers(fragment, key) {
                Some(fragment)
            } else {
                None
            }
        }
    }
}

/// Whether a sequence is among some that fall.
fn has_seq(seqs: &Seqs, seq: u64) -> bool
    requires { IsFalling seqs.now }
    ensures { IsTrue result ↔ Contains seqs.now seq }
{
    match seqs.newest_at_or_below(seq) {
        None => false,
        Some(newest) => newest == seq,
    }
}

/// Whether no fragment that covers a point's key has its sequence.
fn is_apart(point: &Entry, fragments: &[Fragment]) -> bool
    requires order { AreInOrder fragments.now }
    requires falling { AllByRecursion (λ f. IsFalling f.seqs) fragments.now }
    ensures { IsTrue result ↔ IsApart fragments.now point.now }
{
    match covering_fragment(fragments, point.key.as_slice()) {
        None => true,
        Some(fragment) => !has_seq(fragment.seqs(), point.seq),
    }
}

/// Whether each fragment has sequences, which fall and lie in a range.
fn are_whole(low: u64, high: u64, fragments: &[Fragment]) -> bool
    ensures { IsTrue result ↔ AllByRecursion (IsWhole low high) fragments.now }
{
    fragments
        .iter()
        .all(|fragment| is_whole(low, high, fragment))
}

/// Whether each point's sequence lies in a range.
fn are_points_within(low: u64, high: u64, points: &[Entry]) -> bool
    ensures { IsTrue result ↔ AllByRecursion (λ p. IsWithin low high p.seq) points.now }
{
    points.iter().all(|point| is_within(low, high, point.seq))
}

/// Whether no point has a sequence of a fragment that covers its key.
fn are_apart(points: &[Entry], fragments: &[Fragment]) -> bool
    requires order { AreInOrder fragments.now }
    requires falling { AllByRecursion (λ f. IsFalling f.seqs) fragments.now }
    ensures { IsTrue result ↔ AllByRecursion (IsApart fragments.now) points.now }
{
    points.iter().all(|point| is_apart(point, fragments))
}

/// Whether these sequences, points and fragments make a run. Sequences are from 1 to 2^56 - 1, all between `low` and
/// `high`. Points are in order of key, the newest of a key first. Fragments are in order, don't overlap, and have
/// falling sequences. No point has a sequence of a fragment that covers its key.
///
/// It goes over the points and the fragments once, and finds the fragment over a point by a binary search.
pub fn is_run(low: u64, high: u64, points: &[Entry], fragments: &[Fragment]) -> bool
    ensures { IsTrue result ↔ IsRun low high points.now fragments.now }
{
    1 <= low
        && low <= high
        && high <= MAX_SEQUENCE
        && are_in_order(fragments)
        && are_whole(low, high, fragments)
        && are_sorted(points)
        && are_points_within(low, high, points)
        && are_apart(points, fragments)
}
