//! Ranks: numbers that order a memtable's points by their keys, so that a sort moves numbers.
//!
//! The last bits of a rank are the number of the point's slot, as many as the numbers need. The last slot has the number 0, so the
//! newest point of a key has its lowest rank. Those before them are the first bits of the key's prefix, after the bytes that all
//! keys share. Most ranks differ there, and slots and keys are compared only where two don't.
ghost use Rattle.std.specs.Prelude.{◌≡◌, ◌≢◌, ◌<◌, ◌≤◌, ◌^◌, ◌%◌, ℕ, length, map, slice_index, ◌++◌, IfOk, OnOk};
ghost use Rattle.std.specs.List.{AllByRecursion};
ghost use Rattle.std.specs.List.Sorted.{IsNonDecreasing, IsPermutation, IsSortedBy};
ghost use Rattle.std.specs.Ordering.{is_lt};
ghost use Rattle.uc_run.specs.Flush as flush;
ghost use Rattle.uc_run.specs.Points.{HaveOwnSeqs};
ghost use Rattle.uc_run.specs.Prefixes.{AreBytes};
ghost use Rattle.uc_run.specs.Ranks as of_rank;
ghost use Rattle.uc_run.specs.Ranks.{behind_cmp, entry_at, first_key, points_of, rank_cmp, ranked_at, HasFront, HaveBytes, HaveFront};

use crate::entry_ref::EntryRef;
use crate::prefixes::{common_prefix_len, prefix_of};
use crate::slot_slice::SlotSlice;
use crate::texts::{same_text, split_front};
use std::alloc::{AllocError, Global};
use std::cmp::Ordering;
use uc_run_entry::WhatRef;
use uc_run_points::Points;

/// The slots of how many points are looked at before the points are packed.
const POINTS_AT_ONCE: usize = 64;

/// The slots whose points are ranked.
#[derive(Drop)]
pub(crate) struct Ranked<'a> {
    pub(crate) slots: SlotSlice<'a>,
    /// The number of a rank's bits that encode the slot's number.
    pub(crate) bits: u32,
}

/// The number of bits that a number below this takes.
pub(crate) fn bits_below(count: usize) -> u32
    requires { count < 2 ^ 63 }
    ensures { count ≤ of_rank.room result }
{
    usize::BITS - count.leading_zeros()
}

/// The first bits of the prefix.
#[inline]
fn high_in(rank: u64, bits: u32) -> u64
    ensures { result ≡ of_rank.high_in bits rank }
{
    rank >> (bits % 64)
}

/// The number of the slot.
#[inline]
fn low_in(rank: u64, bits: u32) -> u64
    ensures { result ≡ of_rank.low_in bits rank }
{
    rank % (1 << (bits % 64))
}

/// The rank of a slot's number, by the first bits of a prefix.
#[inline]
fn rank_of(prefix: u64, number: u64, bits: u32) -> u64
    ensures { result ≡ of_rank.rank_of bits prefix number }
{
    (high_in(prefix, bits) << (bits % 64)) | low_in(number, bits)
}

impl<'a> Ranked<'a> {
    /// The point of a rank.
    #[inline]
    fn point(&self, rank: u64) -> EntryRef<'a>
        ensures { result ≡ entry_at self.now.slots self.now.bits rank }
    {
        let last = self.slots.len().saturating_sub(1);
        let place = last.saturating_sub(low_in(rank, self.bits) as usize);
        match self.slots.get(place) {
            Some(slot) => slot.point(),
            None => EntryRef::new(&[], 0, WhatRef::Delete),
        }
    }

    /// The rank of the same slot, by the prefix of its key after the bytes that all keys share.
    #[inline]
    fn ranked(&self, rank: u64, shared: usize) -> u64
        ensures { result ≡ ranked_at self.now.slots shared self.now.bits rank }
    {
        let (_, rest) = split_front(self.point(rank).key(), shared);
        rank_of(prefix_of(rest), rank, self.bits)
    }

    /// The order of two points, by what is after the bytes that all keys share. Only few pairs come here: it stands apart,
    /// so that the sort's loops stay short.
    #[inline(never)]
    fn order_of_points(&self, rank: u64, other: u64, shared: usize) -> Ordering
        ensures { result ≡
            behind_cmp
            shared
            (entry_at self.now.slots self.now.bits rank)
            (entry_at self.now.slots self.now.bits other) }
    {
        self.point(rank).order_behind(&self.point(other), shared)
    }

    /// The order of two ranks: by the first bits of the prefixes, then as their points.
    #[inline]
    fn order(&self, rank: u64, other: u64, shared: usize) -> Ordering
        ensures { result ≡ rank_cmp self.now.slots shared self.now.bits rank other }
    {
        match high_in(rank, self.bits).cmp(&high_in(other, self.bits)) {
            Ordering::Equal => self.order_of_points(rank, other, shared),
            unequal => unequal,
        }
    }
}

/// The number of bytes of a front that a key begins with.
pub(crate) fn begins_with(front: &[u8], key: &[u8]) -> usize
    ensures bound { result ≤ length front.now }
    ensures front { HasFront result front.now key.now }
    ensures bytes { AreBytes key.now }
{
    let (begin, _) = key.split_at(front.len().min(key.len()));
    if same_text(begin, front) {
        return front.len();
    }
    common_prefix_len(front, key)
}

/// The numbers of the slots that are points, as ranks without bits of the keys. An `Err` loses them.
pub(crate) fn numbers_of_points(
    alloc: Global,
    slots: &SlotSlice<'_>,
    bits: u32,
) -> Result<Vec<u64>, AllocError>
    requires { length slots.now ≤ of_rank.room bits }
    ensures { IfOk result (λ numbers. points_of slots.now bits numbers.items ≡ flush.points_in slots.now) }
{
    let mut numbers = Vec::with_capacity(alloc, slots.len())?;
    for place in 0..slots.len() {
        if slots.at(place).is_point() {
            numbers.push((slots.len() - 1 - place) as u64)?;
        }
    }
    Ok(numbers)
}

/// The number of bytes that the keys of some points have in common with a key at their front.
fn shared_with(ranked: &Ranked<'_>, first: &[u8], ranks: &[u64]) -> usize
    ensures front { HaveFront result first.now (points_of ranked.now.slots ranked.now.bits ranks.now) }
    ensures bytes { HaveBytes (points_of ranked.now.slots ranked.now.bits ranks.now) }
{
    let mut shared = first.len();
    for rank in ranks {
        shared = begins_with(&first[..shared], ranked.point(*rank).key());
    }
    shared
}

/// The number of bytes that the keys of some points have in common at their front.
fn shared_by(ranked: &Ranked<'_>, ranks: &[u64]) -> usize
    ensures front { let points = points_of ranked.now.slots ranked.now.bits ranks.now in
        HaveFront result (first_key points) points }
    ensures bytes { HaveBytes (points_of ranked.now.slots ranked.now.bits ranks.now) }
{
    match ranks.first() {
        None => 0,
        Some(first) => shared_with(ranked, ranked.point(*first).key(), ranks),
    }
}

/// Ranks each point by its key, after the bytes that all keys share.
fn rank_each(ranked: &Ranked<'_>, ranks: &mut [u64], shared: usize)
    ensures { ranks.new ≡ map (ranked_at ranked.now.slots shared ranked.now.bits) ranks.old }
{
    for rank in ranks.iter_mut() {
        *rank = ranked.ranked(*rank, shared);
    }
}

/// The number of ranks at the front that have the first bits of the first one.
#[inline]
fn tied(ranks: &[u64], bits: u32) -> usize
    requires { 0 < length ranks.now }
    ensures some { 0 < result }
    ensures within { result ≤ length ranks.now }
    ensures same { (k : ℕ) → k < result →
        of_rank.high_in bits (slice_index ranks.now k) ≡ of_rank.high_in bits (slice_index ranks.now 0) }
    ensures next { result < length ranks.now →
        of_rank.high_in bits (slice_index ranks.now result) ≢ of_rank.high_in bits (slice_index ranks.now 0) }
{
    let high = high_in(ranks[0], bits);
    for place in 1..ranks.len() {
        if high_in(ranks[place], bits) != high {
            return place;
        }
    }
    ranks.len()
}

/// Sorts ranks whose first bits are the same, as their points.
fn sort_tied(ranked: &Ranked<'_>, ranks: &mut [u64], shared: usize)
    ensures permutation { IsPermutation ranks.old ranks.new }
    ensures sorted { IsSortedBy
        (λ r s. is_lt (rank_cmp ranked.now.slots shared ranked.now.bits r s))
        ranks.new }
{
    if ranks.len() > 1 {
        ranks.sort_unstable_by(|rank, other| ranked.order(*rank, *other, shared));
    }
}

/// Sorts ranks that are in the order of numbers: only those that are tied with others move.
fn sort_ties(ranked: &Ranked<'_>, ranks: &mut [u64], shared: usize)
    requires { IsNonDecreasing ranks.old }
    ensures permutation { IsPermutation ranks.old ranks.new }
    ensures sorted { IsSortedBy
        (λ r s. is_lt (rank_cmp ranked.now.slots shared ranked.now.bits r s))
        ranks.new }
{
    let mut start = 0;
    while start < ranks.len() {
        let end = start + tied(&ranks[start..], ranked.bits);
        sort_tied(ranked, &mut ranks[start..end], shared);
        start = end;
    }
}

/// Sorts ranks. Numbers are sorted faster than points are compared, so ties come last.
fn sort_ranks(ranked: &Ranked<'_>, ranks: &mut [u64], shared: usize)
    ensures permutation { IsPermutation ranks.old ranks.new }
    ensures sorted { IsSortedBy
        (λ r s. is_lt (rank_cmp ranked.now.slots shared ranked.now.bits r s))
        ranks.new }
{
    ranks.sort_unstable();
    sort_ties(ranked, ranks, shared);
}

/// Ranks points by key, and sorts them, the newest of a key first.
pub(crate) fn sort_by_key(ranked: &Ranked<'_>, ranks: &mut [u64])
    requires { HaveOwnSeqs (points_of ranked.now.slots ranked.now.bits ranks.old) }
    ensures order { points_of ranked.now.slots ranked.now.bits ranks.new ≡
        flush.by_key (points_of ranked.now.slots ranked.now.bits ranks.old) }
    ensures len { length ranks.new ≡ length ranks.old }
{
    let shared = shared_by(ranked, ranks);
    rank_each(ranked, ranks, shared);
    sort_ranks(ranked, ranks, shared);
}

/// Puts the points of ranks in place of others. An `Err` leaves some of them.
fn put_points<'a>(
    ranked: &Ranked<'a>,
    ranks: &[u64],
    points: &mut Vec<EntryRef<'a>>,
) -> Result<(), AllocError>
    ensures { OnOk result
        (points.new.items ≡ points_of ranked.now.slots ranked.now.bits ranks.now) }
{
    points.clear();
    for rank in ranks {
        points.push(ranked.point(*rank))?;
    }
    Ok(())
}

/// Appends points, with copies of their keys and values. An `Err` leaves some of them.
fn push_points(packed: &mut Points, points: &[EntryRef<'_>]) -> Result<(), AllocError>
    requires { AllByRecursion (λ p. p.seq < 2 ^ 56) points.now }
    ensures { OnOk result (packed.new ≡ packed.old ++ points.now) }
{
    for point in points {
        point.push_to(packed)?;
    }
    Ok(())
}

/// The points of ranks, packed, with copies of their keys and values. An `Err` loses them. The slots are anywhere in memory: one
/// loop reads those of many ranks, so the processor waits for several cache misses at a time.
pub(crate) fn pack_ranked(
    alloc: Global,
    ranked: &Ranked<'_>,
    ranks: &[u64],
) -> Result<Points, AllocError>
    requires { AllByRecursion
        (λ p. p.seq < 2 ^ 56)
        (points_of ranked.now.slots ranked.now.bits ranks.now) }
    ensures { IfOk result (λ packed.
        packed ≡ points_of ranked.now.slots ranked.now.bits ranks.now) }
{
    let mut packed = Points::new(alloc);
    let mut points = Vec::with_capacity(alloc, POINTS_AT_ONCE)?;
    let mut rest = ranks;
    while !rest.is_empty() {
        let (next, behind) = rest.split_at(POINTS_AT_ONCE.min(rest.len()));
        put_points(ranked, next, &mut points)?;
        push_points(&mut packed, &points)?;
        rest = behind;
    }
    Ok(packed)
}
