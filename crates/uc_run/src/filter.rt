//! [`Filter`]: which keys a run may have points of.
ghost use Rattle.std.specs.Prelude.{◌≡◌, ◌≤◌, ◌<◌, ◌↔◌, ◌-◌, ℕ, List, IsTrue, IfOk, length, take, drop};
ghost use Rattle.std.specs.Thread.{IsSync};
ghost use Rattle.uc_run.specs.Filters.{HasBits, Admits, AdmitsAll};

use crate::filter_bits::{BLOCK_WORDS, admit, is_admitted, touch_words};
use crate::sought_key::SoughtKey;
use crate::texts::same_text;
use std::alloc::{AllocError, Global};
use std::marker::{Model, Sync};
use std::thread::{Threads, join};
use uc_run_points::{PointSlice, Points, PointsAhead, make_small};

/// The number of keys that share a block: ten bits for each, of which six are set. Of other keys about 1.1 % are admitted.
const BLOCK_KEYS: usize = 51;

/// Into how many parts points are cut whose filter is made in threads.
const PARTS: usize = 4;

/// A Bloom filter (Bloom, 1970) in blocks of a cache line (RocksDB wiki, "RocksDB Bloom Filter"): a look at it touches
/// one line. A contract sees it as its words. One without words admits no key.
pub(crate) struct Filter {
    words: Vec<u64>,
}

impl Model for Filter {
    ghost use Rattle.std.specs.Prelude.{List, ℕ};

    ghost Value = { List ℕ };

    ghost view = { λ f. f.words.items };
}

impl Drop for Filter {
    fn drop(mut self) {
        make_small(&mut self.words, size_of::<u64>());
        let Filter { words: _ } = self;
    }
}

impl Filter {
    /// Whether it admits a key. It admits each key that was added, and few others.
    #[inline]
    pub(crate) fn admits(&self, key: &SoughtKey<'_>) -> bool
        ensures { IsTrue result ↔ Admits self.now key.now }
    {
        is_admitted(&self.words, key)
    }

    /// Reads a word that [`admits`](Filter::admits) will read. The result has no meaning; the caller must use it, so that the read
    /// isn't removed.
    #[inline]
    pub(crate) fn touch(&self, key: &SoughtKey<'_>) -> u8 {
        touch_words(&self.words, key)
    }
}

/// The number of words in a filter for a number of keys.
fn count_words(keys: usize) -> usize
    ensures { 0 < keys → BLOCK_WORDS ≤ result }
{
    keys.div_ceil(BLOCK_KEYS) * BLOCK_WORDS
}

/// The number of keys that some points have, from a key on, that one among them.
fn count_keys_from(first: &[u8], mut ahead: PointsAhead<'_>) -> usize
    ensures { 0 < result }
{
    let (mut count, mut last) = (1_usize, first);
    while let Some(point) = ahead.next() {
        if !same_text(point.key(), last) {
            count = count.saturating_add(1);
        }
        last = point.key();
    }
    count
}

/// The number of keys that the points have, where those of a key are neighbours.
fn count_keys(points: &Points) -> usize
    ensures { 0 < length points.now → 0 < result }
{
    let mut ahead = points.ahead();
    match ahead.next() {
        None => 0,
        Some(first) => count_keys_from(first.key(), ahead),
    }
}

/// Makes the words admit the key of each point.
fn admit_all(words: &mut [u64], points: &PointSlice<'_>)
    requires { 0 < length points.now → BLOCK_WORDS ≤ length words.old }
    ensures { AdmitsAll words.new points.now }
{
    let mut ahead = points.ahead();
    while let Some(point) = ahead.next() {
        admit(words, point.key());
    }
}

/// This many words that admit the keys of the points.
fn words_of(alloc: Global, count: usize, points: &PointSlice<'_>) -> Result<Vec<u64>, AllocError>
    requires { 0 < length points.now → BLOCK_WORDS ≤ count }
    ensures count { IfOk result (λ words. length words.items ≡ count) }
    ensures admitted { IfOk result (λ words. AdmitsAll words.items points.now) }
{
    let mut words = Vec::from_elem(alloc, 0, count)?;
    admit_all(&mut words, points);
    Ok(words)
}

/// A filter that admits the keys of the points. It is as large as their keys need.
pub(crate) fn filter_of(alloc: Global, points: &Points) -> Result<Filter, AllocError>
    ensures { IfOk result (λ filter. AdmitsAll filter points.now) }
{
    let count = count_words(count_keys(points));
    let words = words_of(alloc, count, &points.as_slice())?;
    Ok(Filter { words })
}

/// Sets the bits of other words too.
fn add_bits(words: &mut [u64], other: &[u64])
    requires { length words.old ≡ length other.now }
    ensures count { length words.new ≡ length words.old }
    ensures kept { (place bits : ℕ) → HasBits words.old place bits → HasBits words.new place bits }
    ensures added { (place bits : ℕ) → HasBits other.now place bits → HasBits words.new place bits }
{
    for place in 0..words.len() {
        words[place] |= other[place];
    }
}

/// This many words that admit the keys of the points between two places, which are cut into parts. Those of each part are
/// made by a thread of its own, or by the one that would wait for it, if none can be had.
#[cycle(side_by_side)]
fn words_by_parts<R: Threads + Sync>(
    rt: &R,
    alloc: Global,
    count: usize,
    points: &Points,
    begin: usize,
    end: usize,
    parts: usize,
) -> Result<Vec<u64>, AllocError>
    requires some { begin < end → BLOCK_WORDS ≤ count }
    requires order { begin ≤ end }
    requires within { end ≤ length points.now }
    ensures count { IfOk result (λ words. length words.items ≡ count) }
    ensures admitted { IfOk result (λ words. AdmitsAll words.items (take (end - begin) (drop begin points.now))) }
{
    if parts <= 1 {
        return words_of(alloc, count, &points.as_slice().slice(begin, end));
    }
    let middle = begin + (end - begin) / 2;
    let (front, back) = join(
        rt,
        || -> Result<Vec<u64>, AllocError>
            requires { IsSync R.row × (begin < middle → BLOCK_WORDS ≤ count) × (begin ≤ middle) × (middle ≤ length points.now) }
            ensures { IfOk result (λ words. (length words.items ≡ count) × AdmitsAll words.items (take (middle - begin) (drop begin points.entry.now))) }
        { words_by_parts(rt, alloc, count, points, begin, middle, parts / 2) },
        || -> Result<Vec<u64>, AllocError>
            requires { IsSync R.row × (middle < end → BLOCK_WORDS ≤ count) × (middle ≤ end) × (end ≤ length points.now) }
            ensures { IfOk result (λ words. (length words.items ≡ count) × AdmitsAll words.items (take (end - middle) (drop middle points.entry.now))) }
        { words_by_parts(rt, alloc, count, points, middle, end, parts / 2) },
    );
    let mut words = front?;
    add_bits(&mut words, &back?);
    Ok(words)
}

/// As [`filter_of`], made of four parts of the points side by side, in threads. It is as large as if each point had a key of its own,
/// as most have after a compaction.
pub(crate) fn filter_in_threads<R: Threads + Sync>(
    rt: &R,
    alloc: Global,
    points: &Points,
) -> Result<Filter, AllocError>
    ensures { IfOk result (λ filter. AdmitsAll filter points.now) }
{
    let words = words_by_parts(
        rt,
        alloc,
        count_words(points.len()),
        points,
        0,
        points.len(),
        PARTS,
    )?;
    Ok(Filter { words })
}
