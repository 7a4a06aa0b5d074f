//! The fragment over a key, searched from a place on.
ghost use Rattle.std.specs.Prelude.{◌≡◌, ◌≤◌, filter, nat_le, option_map};
ghost use Rattle.std.specs.List.{AllByRecursion, find, list_any};
ghost use Rattle.uc_run_entry.specs.Order.{IsFalling, AreInOrder};
ghost use Rattle.uc_run_entry.specs.Run.{covers};
ghost use Rattle.uc_run.specs.Cursors as cursors;
ghost use Rattle.uc_run.specs.Hiding.{hides};

use crate::texts::text_order;
use uc_run_entry::{Fragment, Seqs, covering_fragment};

/// Whether a fragment ends at or before a key.
#[inline]
fn ends_by(fragment: &Fragment, key: &[u8]) -> bool
    ensures { result ≡ cursors.ends_by key.now fragment.now }
{
    text_order(fragment.end(), key).is_le()
}

/// The fragments from a place on, if those before it end by the key; otherwise all.
#[inline]
fn from_place<'a>(fragments: &'a [Fragment], place: usize, key: &[u8]) -> &'a [Fragment]
    requires order { AreInOrder fragments.now }
    requires falling { AllByRecursion (λ f. IsFalling f.seqs) fragments.now }
    ensures covering { filter (λ f. covers f key.now) result.now ≡ filter (λ f. covers f key.now) fragments.now }
    ensures order { AreInOrder result.now }
    ensures falling { AllByRecursion (λ f. IsFalling f.seqs) result.now }
{
    if place > 0 && place <= fragments.len() && ends_by(&fragments[place - 1], key) {
        &fragments[place..]
    } else {
        fragments
    }
}

/// The first of the fragments alone, if it ends above the key; otherwise all.
#[inline]
fn first_or_all<'a>(fragments: &'a [Fragment], key: &[u8]) -> &'a [Fragment]
    requires order { AreInOrder fragments.now }
    requires falling { AllByRecursion (λ f. IsFalling f.seqs) fragments.now }
    ensures covering { filter (λ f. covers f key.now) result.now ≡ filter (λ f. covers f key.now) fragments.now }
    ensures order { AreInOrder result.now }
    ensures falling { AllByRecursion (λ f. IsFalling f.seqs) result.now }
{
    if fragments.is_empty() {
        return fragments;
    }
    if ends_by(&fragments[0], key) {
        fragments
    } else {
        &fragments[..1]
    }
}

/// Some of the fragments, among them the one that covers the key, if one does: only the one at the place if that is
/// enough.
#[inline]
pub(crate) fn fragments_near<'a>(
    fragments: &'a [Fragment],
    place: usize,
    key: &[u8],
) -> &'a [Fragment]
    requires order { AreInOrder fragments.now }
    requires falling { AllByRecursion (λ f. IsFalling f.seqs) fragments.now }
    ensures covering { filter (λ f. covers f key.now) result.now ≡ filter (λ f. covers f key.now) fragments.now }
    ensures order { AreInOrder result.now }
    ensures falling { AllByRecursion (λ f. IsFalling f.seqs) result.now }
{
    first_or_all(from_place(fragments, place, key), key)
}

/// A place among the fragments, moved forward past those that end by the key.
#[inline]
pub(crate) fn fragments_ended(fragments: &[Fragment], place: usize, key: &[u8]) -> usize
    ensures { place ≤ result }
{
    if place < fragments.len() && ends_by(&fragments[place], key) {
        place + fragments[place..].partition_point(|fragment| ends_by(fragment, key))
    } else {
        place
    }
}

/// Whether one of falling sequences is at or below a sequence.
fn is_any_by(seqs: &Seqs, at: u64) -> bool
    requires { IsFalling seqs.now }
    ensures { result ≡ list_any (λ seq. nat_le seq at) seqs.now }
{
    seqs.newest_at_or_below(at).is_some()
}

/// The fragment over the key, if that has a range deletion at or below the sequence.
fn hiding_fragment<'a>(fragments: &'a [Fragment], key: &[u8], at: u64) -> Option<&'a Fragment>
    requires order { AreInOrder fragments.now }
    requires falling { AllByRecursion (λ f. IsFalling f.seqs) fragments.now }
    ensures { option_map (λ f. f.now) result ≡ find (hides at key.now) fragments.now }
{
    let fragment = covering_fragment(fragments, key)?;
    if is_any_by(fragment.seqs(), at) {
        Some(fragment)
    } else {
        None
    }
}

/// The end of the fragment over the key, if that has a range deletion at or below the sequence.
pub(crate) fn end_of_hiding<'a>(fragments: &'a [Fragment], key: &[u8], at: u64) -> Option<&'a [u8]>
    requires order { AreInOrder fragments.now }
    requires falling { AllByRecursion (λ f. IsFalling f.seqs) fragments.now }
    ensures { option_map (λ end. end.now) result ≡ option_map (λ f. f.end) (find (hides at key.now) fragments.now) }
{
    let fragment = hiding_fragment(fragments, key, at)?;
    Some(fragment.end())
}

/// The beginning of the fragment over the key, if that has a range deletion at or below the sequence.
pub(crate) fn begin_of_hiding<'a>(
    fragments: &'a [Fragment],
    key: &[u8],
    at: u64,
) -> Option<&'a [u8]>
    requires order { AreInOrder fragments.now }
    requires falling { AllByRecursion (λ f. IsFalling f.seqs) fragments.now }
    ensures { option_map (λ begin. begin.now) result ≡ option_map (λ f. f.begin) (find (hides at key.now) fragments.now) }
{
    let fragment = hiding_fragment(fragments, key, at)?;
    Some(fragment.begin())
}
