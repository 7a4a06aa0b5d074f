//! [`Front`]: how far a walk has come in a run's fragments.
ghost use Rattle.std.specs.Prelude.{◌≡◌, ◌≤◌, [], ◌∷◌, length, filter, IfSome, IfNone};
ghost use Rattle.std.specs.Option.{option_copied};
ghost use Rattle.std.specs.Ordering.{is_le};
ghost use Rattle.uc_bytes.specs.Bytes.{bytes_cmp};
ghost use Rattle.uc_run_entry.specs.Order.{AreInOrder};
ghost use Rattle.uc_run_entry.specs.Run as run;
ghost use Rattle.uc_run_entry.specs.Run.{IsRun};
ghost use Rattle.uc_compact.specs.Fronts.{EndBy, IsFirstAbove};
ghost use Rattle.uc_compact.specs.NextCut.{ends_of, least_above};

use std::marker::Model;
use uc_run::{Run, text_order};
use uc_run_entry::Fragment;

/// The number of fragments that are looked at one by one before a search among all.
const NEAR: usize = 8;

/// A run, and the place among its fragments that a walk over rising keys has come to. A contract sees only the run: the
/// place changes no result and only saves time.
#[derive(Drop)]
pub(crate) struct Front<'a> {
    run: &'a Run,
    place: usize,
}

impl<'a> Model for Front<'a> {
    ghost use Rattle.uc_run_entry.specs.Run.{Contents};

    ghost Value = { Contents };

    ghost view = { λ f. f.run.now };
}

/// The least key of a fragment.
fn begin_of(fragment: &Fragment) -> &[u8]
    ensures { result.now ≡ fragment.now.begin }
{
    fragment.begin()
}

/// The least key after those of a fragment.
fn end_of(fragment: &Fragment) -> &[u8]
    ensures { result.now ≡ fragment.now.end }
{
    fragment.end()
}

/// Whether a fragment begins at or before a key.
fn begins_by(fragment: &Fragment, key: &[u8]) -> bool
    ensures { result ≡ is_le (bytes_cmp fragment.now.begin key.now) }
{
    text_order(begin_of(fragment), key).is_le()
}

/// Whether a fragment ends at or before a key.
fn ends_by(fragment: &Fragment, key: &[u8]) -> bool
    ensures { result ≡ is_le (bytes_cmp fragment.now.end key.now) }
{
    text_order(end_of(fragment), key).is_le()
}

/// A place before which each fragment ends at or before a key: `from` if the fragment before it shows that, otherwise
/// 0.
fn start_at(fragments: &[Fragment], from: usize, key: &[u8]) -> usize
    requires { AreInOrder fragments.now }
    ensures bound { result ≤ length fragments.now }
    ensures before { EndBy key.now fragments.now result }
{
    if 0 < from && from <= fragments.len() && ends_by(&fragments[from - 1], key) {
        from
    } else {
        0
    }
}

/// The place of the first fragment that ends above a key, if it is one of the next from `from` on.
fn near_above(fragments: &[Fragment], from: usize, key: &[u8]) -> Option<usize>
    requires { AreInOrder fragments.now }
    ensures { IfSome result (IsFirstAbove key.now fragments.now) }
{
    let start = start_at(fragments, from, key);
    for place in start..start.saturating_add(NEAR) {
        if place == fragments.len() {
            return Some(place);
        }
        if !ends_by(&fragments[place], key) {
            return Some(place);
        }
    }
    None
}

/// The place of the first fragment that ends above a key, by a binary search.
fn search_above(fragments: &[Fragment], key: &[u8]) -> usize
    requires { AreInOrder fragments.now }
    ensures { IsFirstAbove key.now fragments.now result }
{
    fragments.partition_point(|fragment| ends_by(fragment, key))
}

/// The place of the first fragment that ends above a key, sought from `from` on.
fn first_above(fragments: &[Fragment], from: usize, key: &[u8]) -> usize
    requires { AreInOrder fragments.now }
    ensures { IsFirstAbove key.now fragments.now result }
{
    match near_above(fragments, from, key) {
        Some(place) => place,
        None => search_above(fragments, key),
    }
}

/// The fragment at the place of the first that ends above a key, if it covers the key: no other can.
fn covering_at<'a>(fragments: &'a [Fragment], place: usize, key: &[u8]) -> Option<&'a Fragment>
    requires order { AreInOrder fragments.now }
    requires first { IsFirstAbove key.now fragments.now place }
    ensures some { IfSome result (λ f. filter (λ g. run.covers g key.now) fragments.now ≡ f.now ∷ []) }
    ensures none { IfNone result (filter (λ g. run.covers g key.now) fragments.now ≡ []) }
{
    match fragments.get(place) {
        None => None,
        Some(fragment) => {
            if begins_by(fragment, key) {
                Some(fragment)
            } else {
                None
            }
        }
    }
}

/// The least end above a key, from the place of the first fragment that ends above it.
fn next_cut_at<'a>(fragments: &'a [Fragment], place: usize, key: &[u8]) -> Option<&'a [u8]>
    requires order { AreInOrder fragments.now }
    requires first { IsFirstAbove key.now fragments.now place }
    ensures { option_copied result ≡ least_above key.now (ends_of fragments.now) }
{
    match fragments.get(place) {
        None => None,
        Some(fragment) => {
            if begins_by(fragment, key) {
                Some(end_of(fragment))
            } else {
                Some(begin_of(fragment))
            }
        }
    }
}

impl<'a> Front<'a> {
    /// Before the first fragment of a run.
    pub(crate) fn new(run: &'a Run) -> Front<'a>
        ensures { result ≡ run.now }
    {
        Front { run, place: 0 }
    }

    /// The fragment that covers a key, if one does.
    ///
    /// If no key is below the one before it, all calls together look at each fragment at most once, and at a few more for
    /// each key.
    pub(crate) fn covering(&mut self, key: &[u8]) -> Option<&'a Fragment>
        ensures same { self.new ≡ self.old }
        ensures recall { IsRun self.old.low self.old.high self.old.points self.old.fragments }
        ensures some { IfSome result (λ f. filter (λ g. run.covers g key.now) self.old.fragments ≡ f.now ∷ []) }
        ensures none { IfNone result (filter (λ g. run.covers g key.now) self.old.fragments ≡ []) }
    {
        self.run.recall();
        let fragments = self.run.fragments();
        self.place = first_above(fragments, self.place, key);
        covering_at(fragments, self.place, key)
    }

    /// The least key above a key at which a fragment begins or ends, if there is one. It takes as long as
    /// [`Front::covering`].
    pub(crate) fn next_cut(&mut self, key: &[u8]) -> Option<&'a [u8]>
        ensures same { self.new ≡ self.old }
        ensures least { option_copied result ≡ least_above key.now (ends_of self.old.fragments) }
    {
        self.run.recall();
        let fragments = self.run.fragments();
        self.place = first_above(fragments, self.place, key);
        next_cut_at(fragments, self.place, key)
    }
}
