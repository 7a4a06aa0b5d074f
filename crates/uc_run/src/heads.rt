//! [`Heads`]: the next keys of several walks; and [`Head`], one of them.
ghost use Rattle.std.specs.Prelude.{◌≡◌, ◌≢◌, ℕ, ◌+◌, ◌<◌, ◌≤◌, ◌↔◌, List, [], Some, IsTrue, IfOk, IfSome, length, map, option_map, unwrap_or};
ghost use Rattle.std.specs.List.{AllWithin, HoldsAt, slice_get, slice_set};
ghost use Rattle.uc_run.specs.Heads as heads;
ghost use Rattle.uc_run.specs.Heads.{AreNumbered, IsLeast};
ghost use Rattle.uc_run.specs.NumberBlocks.{IsLeastNumber};
ghost use Rattle.uc_run.specs.Prefixes.{AreBytes};

use crate::common_front::{front_of_cursors, front_of_runs};
use crate::cursor::Cursor;
use crate::number_blocks::NumberBlocks;
use crate::prefixes::prefix_of;
use crate::texts::{same_text, text_order};
use std::alloc::{AllocError, Global};
use std::marker::Model;
use uc_run_points::PointSlice;

/// A next key, and the number by which [`Heads::is_at`] finds it.
#[derive(Clone, Copy)]
pub struct Head<'a> {
    /// The key.
    pub key: &'a [u8],
    /// A number that doesn't fall as keys rise.
    pub number: u64,
}

/// The next key of each of several cursors, in order of key, or none where a cursor is at its end. A contract sees these keys, and
/// a front with which most of them begin.
#[derive(Drop)]
pub struct Heads<'a> {
    front: &'a [u8],
    keys: Vec<Option<&'a [u8]>>,
    /// The number of each key, as [`Head`] has it: keys are compared only where numbers are equal.
    numbers: NumberBlocks,
}

impl<'a> Model for Heads<'a> {
    ghost use Rattle.uc_run.specs.Heads.{NextKeys};
    ghost use Rattle.uc_run.specs.HeldHeads.{next_keys, IsNumbered};

    ghost Value = { NextKeys };

    ghost view = { next_keys };

    ghost invariant = { IsNumbered };
}

/// The next key of each walk.
fn keys_of<'a>(alloc: Global, cursors: &[Cursor<'a>]) -> Result<Vec<Option<&'a [u8]>>, AllocError>
    ensures { IfOk result (λ keys.
        map (option_map (λ key. key.now)) keys.items ≡ map heads.next_key cursors.now) }
{
    let mut keys = Vec::with_capacity(alloc, cursors.len())?;
    for cursor in cursors {
        keys.push(cursor.key())?;
    }
    Ok(keys)
}

/// The key of the first point.
fn first_key<'a>(points: &PointSlice<'a>) -> Option<&'a [u8]>
    ensures { option_map (λ key. key.now) result ≡ heads.first_key points.now }
{
    match points.first() {
        None => None,
        Some(point) => Some(point.key()),
    }
}

/// The key of the first point of each run.
fn first_keys<'a>(
    alloc: Global,
    runs: &[PointSlice<'a>],
) -> Result<Vec<Option<&'a [u8]>>, AllocError>
    ensures { IfOk result (λ keys. map (option_map (λ key. key.now)) keys.items ≡ map heads.first_key runs.now) }
{
    let mut keys = Vec::with_capacity(alloc, runs.len())?;
    for points in runs {
        keys.push(first_key(points))?;
    }
    Ok(keys)
}

/// A number that doesn't fall as keys rise: of the eight bytes after the front, if the key begins with it.
#[inline]
fn number_of(front: &[u8], key: &[u8]) -> u64
    ensures number { result ≡ heads.number_of front.now key.now }
    ensures bytes { AreBytes key.now }
{
    let (begin, rest) = key.split_at(front.len().min(key.len()));
    if same_text(begin, front) {
        prefix_of(rest)
    } else if text_order(key, front).is_lt() {
        0
    } else {
        u64::MAX
    }
}

/// The number of the next key, or one that none is above if there is no next key.
#[inline]
fn next_number(front: &[u8], key: Option<&[u8]>) -> u64
    ensures number { result ≡ heads.next_number front.now (option_map (λ k. k.now) key.entry) }
    ensures bytes { AreBytes (unwrap_or (option_map (λ k. k.now) key.entry) []) }
{
    match key {
        Some(key) => number_of(front, key),
        None => u64::MAX,
    }
}

/// The number of each key.
fn numbers_of(
    alloc: Global,
    front: &[u8],
    keys: &[Option<&[u8]>],
) -> Result<NumberBlocks, AllocError>
    ensures { IfOk result (λ numbers.
        AreNumbered front.now (map (option_map (λ key. key.now)) keys.now) numbers) }
{
    let mut numbers = Vec::with_capacity(alloc, keys.len())?;
    for key in keys {
        numbers.push(next_number(front, *key))?;
    }
    NumberBlocks::of(alloc, numbers)
}

/// The lesser of two keys, if there are two; else the one there is.
#[inline]
pub fn lesser<'a>(key: Option<&'a [u8]>, other: Option<&'a [u8]>) -> Option<&'a [u8]>
    ensures { option_map (λ k. k.now) result ≡
        heads.lesser_of (option_map (λ k. k.now) key.entry) (option_map (λ k. k.now) other.entry) }
{
    match (key, other) {
        (Some(key), Some(other)) => {
            if text_order(other, key).is_lt() {
                Some(other)
            } else {
                Some(key)
            }
        }
        (Some(key), None) => Some(key),
        (None, other) => other,
    }
}

/// Whether the next key, if there is one, is this one.
#[inline]
fn is_key(next: Option<&[u8]>, key: &[u8]) -> bool
    ensures { IsTrue result ↔ (option_map (λ k. k.now) next.entry ≡ Some key.now) }
{
    match next {
        Some(next) => same_text(next, key),
        None => false,
    }
}

/// The least of some keys: one of those with the least number.
fn least_of<'a>(keys: &[Option<&'a [u8]>], numbers: &NumberBlocks, low: u64) -> Option<&'a [u8]>
    requires numbered { (front : List ℕ) × AreNumbered front (map (option_map (λ key. key.now)) keys.now) numbers.now }
    requires low { IsLeastNumber numbers.now low }
    ensures least { IsLeast (map (option_map (λ key. key.now)) keys.now) (option_map (λ key. key.now) result) }
    ensures number { (front : List ℕ) → AreNumbered front (map (option_map (λ key. key.now)) keys.now) numbers.now →
        IfSome (option_map (λ key. key.now) result) (λ key. heads.number_of front key ≡ low) }
{
    let mut least = None;
    let mut walk = numbers.next(0, low);
    while walk < keys.len() {
        least = lesser(least, keys[walk]);
        walk = numbers.next(walk + 1, low);
    }
    least
}

/// The first walk from one on whose key is the head's, or how many walks there are if none's is.
fn next_of(keys: &[Option<&[u8]>], numbers: &NumberBlocks, from: usize, head: Head<'_>) -> usize
    requires numbered { (front : List ℕ)
        × AreNumbered front (map (option_map (λ key. key.now)) keys.now) numbers.now
        × (head.number ≡ heads.number_of front head.key.now) }
    requires within { from ≤ length keys.now }
    ensures bound { (from ≤ result) × (result ≤ length keys.now) }
    ensures before { AllWithin (λ key. key ≢ Some head.entry.key.now)
        (map (option_map (λ key. key.now)) keys.now) from result }
    ensures there { result < length keys.now →
        HoldsAt (λ key. key ≡ Some head.entry.key.now) (map (option_map (λ key. key.now)) keys.now) result }
{
    let mut walk = numbers.next(from, head.number);
    while walk < keys.len() && !is_key(keys[walk], head.key) {
        walk = numbers.next(walk + 1, head.number);
    }
    walk
}

impl<'a> Heads<'a> {
    /// The next keys of walks through runs. It costs a look at each run's first fence and at
    /// each next key.
    pub fn of_cursors(alloc: Global, cursors: &[Cursor<'a>]) -> Result<Heads<'a>, AllocError>
        ensures { IfOk result (λ made. made.keys ≡ map heads.next_key cursors.now) }
    {
        let front = front_of_cursors(cursors);
        let keys = keys_of(alloc, cursors)?;
        let numbers = numbers_of(alloc, front, &keys)?;
        Ok(Heads {
            front,
            keys,
            numbers,
        })
    }

    /// The keys of the first points of runs. It costs a look at each run's first and last key.
    pub fn of_runs(alloc: Global, runs: &[PointSlice<'a>]) -> Result<Heads<'a>, AllocError>
        ensures { IfOk result (λ made. made.keys ≡ map heads.first_key runs.now) }
    {
        let front = front_of_runs(runs);
        let keys = first_keys(alloc, runs)?;
        let numbers = numbers_of(alloc, front, &keys)?;
        Ok(Heads {
            front,
            keys,
            numbers,
        })
    }

    /// The least of the keys. It costs two steps for each 16 cursors, and a comparison of keys for each cursor whose number equals
    /// the least one's.
    pub fn least(&self) -> Option<Head<'a>>
        ensures least { IsLeast self.now.keys (option_map (λ head. head.key.now) result) }
        ensures number { IfSome result (λ head. head.number ≡ heads.number_of self.now.front head.key.now) }
    {
        let number = self.numbers.least();
        let key = least_of(&self.keys, &self.numbers, number)?;
        Some(Head { key, number })
    }

    /// Whether a key is the next one of the walk with an index. It mostly costs a comparison of numbers.
    #[inline]
    pub fn is_at(&self, walk: usize, head: Head<'_>) -> bool
        requires within { walk < length self.now.keys }
        requires number { head.number ≡ heads.number_of self.now.front head.key.now }
        ensures { IsTrue result ↔ (slice_get self.now.keys walk ≡ Some (Some head.entry.key.now)) }
    {
        self.numbers.at(walk) == head.number && is_key(self.keys[walk], head.key)
    }

    /// The first walk from one on whose next key is the head's, or how many walks there are if none's is. It costs a
    /// step for each 16 walks, and a look at each 16 that may have the key.
    pub fn next_at(&self, from: usize, head: Head<'_>) -> usize
        requires within { from ≤ length self.now.keys }
        requires number { head.number ≡ heads.number_of self.now.front head.key.now }
        ensures bound { (from ≤ result) × (result ≤ length self.now.keys) }
        ensures before { AllWithin (λ key. key ≢ Some head.entry.key.now) self.now.keys from result }
        ensures there { result < length self.now.keys →
            HoldsAt (λ key. key ≡ Some head.entry.key.now) self.now.keys result }
    {
        next_of(&self.keys, &self.numbers, from, head)
    }

    /// Puts another next key in place of a walk's. It costs a look at the numbers of 16 walks.
    #[inline]
    pub fn set(&mut self, walk: usize, key: Option<&'a [u8]>)
        requires { walk < length self.old.keys }
        ensures { self.new ≡
            record {
              front = self.old.front;
              keys = slice_set self.old.keys walk (option_map (λ k. k.now) key.entry);
            } }
    {
        let number = next_number(self.front, key);
        self.numbers.set(walk, number);
        self.keys[walk] = key;
    }

    /// Forgets all walks.
    pub fn clear(&mut self)
        ensures { self.new ≡ record { front = self.old.front; keys = [] } }
    {
        self.keys.clear();
        self.numbers.clear();
    }
}
