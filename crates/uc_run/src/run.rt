//! [`Run`]: points and range deletions, sorted by key.
ghost use Rattle.std.specs.Prelude.{◌≡◌, ◌↔◌, false, IsTrue, length, drop, IfOk, option_map};
ghost use Rattle.std.specs.List.{slice_get};
ghost use Rattle.std.specs.List.Sorted.{IsStrictlySortedBy};
ghost use Rattle.std.specs.Thread.{IsSync};
ghost use Rattle.uc_run_entry.specs.Order.{entry_cmp};
ghost use Rattle.uc_run_entry.specs.Run.{IsRun};
ghost use Rattle.uc_run_entry.specs.Size as size;
ghost use Rattle.uc_run_entry.specs.Seek as seek;
ghost use Rattle.uc_run_entry.specs.PlainList.{plain_list};
ghost use Rattle.uc_model.specs.Meaning.{effect_on};
ghost use Rattle.uc_run_entry.specs.Packed as packed;
ghost use Rattle.uc_run.specs.BackCursors.{end_place};
ghost use Rattle.uc_run.specs.Blocks.{blocks_of, fence_of};
ghost use Rattle.uc_run.specs.Fences.{IsFenced};
ghost use Rattle.uc_run.specs.Filters.{AdmitsAll};
ghost use Rattle.uc_run.specs.NextKey.{IsNextKey};

use crate::back_cursor::BackCursor;
use crate::cursor::Cursor;
use crate::fences::{Fences, fence, fences_of, found_by_fences, seek_by_fences};
use crate::filter::{Filter, filter_in_threads, filter_of};
use crate::lookup::effect_found;
use crate::places::points_from;
use crate::run_size::size_of;
use crate::same::same_points;
use crate::sought_key::SoughtKey;
use crate::touching::touch_points;
use std::alloc::{AllocError, Global};
use std::marker::{Model, Sync};
use std::thread::{Threads, join};
use uc_bytes::Bytes;
use uc_oper::{Effect, EffectRef, Operator};
use uc_run_entry::{Entry, Fragment, Fragments, WhatRef, plain_list_does_what_is_found};
use uc_run_points::{PointSlice, Points, points_of};

/// An immutable sorted table (LevelDB `table_format.md`, in memory): points in order of key, fragments of range
/// deletions, and the range of their sequences. A contract sees it as these.
pub struct Run {
    low: u64,
    high: u64,
    points: Points,
    fences: Fences,
    filter: Filter,
    fragments: Fragments,
    size: u64,
}

impl Model for Run {
    ghost use Rattle.uc_run_entry.specs.Run.{Contents};

    ghost Value = { Contents };

    ghost use Rattle.uc_run.specs.HeldRuns.{contents, IsHeld};

    ghost view = { contents };

    ghost invariant = { IsHeld };
}

// A destructor of its own: where a value is dropped, the proof of a caller has one call, and not one for each field.
impl Drop for Run {
    fn drop(self) {
        let Run {
            low: _,
            high: _,
            points: _,
            fences: _,
            filter: _,
            fragments: _,
            size: _,
        } = self;
    }
}

/// The filter and the fences of points, made side by side.
fn filter_beside_fences<R: Threads + Sync>(
    rt: &R,
    alloc: Global,
    points: &Points,
) -> Result<(Filter, Fences), AllocError>
    requires { IsStrictlySortedBy entry_cmp points.now }
    ensures filter { IfOk result (λ made. AdmitsAll made.0 points.now) }
    ensures fences { IfOk result (λ made. IsFenced points.now made.1) }
{
    let (filter, fences) = join(
        rt,
        || -> Result<Filter, AllocError>
            requires { IsSync R.row }
            ensures { IfOk result (λ filter. AdmitsAll filter points.entry.now) }
        { filter_in_threads(rt, alloc, points) },
        || fences_of(alloc, points),
    );
    Ok((filter?, fences?))
}

impl Run {
    /// The run of these points, which it packs, and fragments. An `Err` loses them.
    pub fn build(
        alloc: Global,
        low: u64,
        high: u64,
        points: Vec<Entry>,
        fragments: Vec<Fragment>,
    ) -> Result<Run, AllocError>
        requires { IsRun low high points.items fragments.items }
        ensures { IfOk result (λ run.
            run ≡
            record {
              low = low;
              high = high;
              points = points.items;
              fragments =
                  fragments.items;
            }) }
    {
        let points = points_of(alloc, &points)?;
        Run::from_points(alloc, low, high, points, Fragments::from(fragments))
    }

    /// The run of points that are packed already, and fragments. An `Err` loses them.
    pub fn from_points(
        alloc: Global,
        low: u64,
        high: u64,
        points: Points,
        fragments: Fragments,
    ) -> Result<Run, AllocError>
        requires { IsRun low high points fragments }
        ensures { IfOk result (λ run.
            run ≡ record { low = low; high = high; points = points; fragments = fragments }) }
    {
        let mut points = points;
        points.shrink_to_fit();
        let size = size_of(&points, fragments.as_slice());
        let fences = fences_of(alloc, &points)?;
        let filter = filter_of(alloc, &points)?;
        Ok(Run {
            low,
            high,
            points,
            fences,
            filter,
            fragments,
            size,
        })
    }

    /// As [`from_points`](Run::from_points), with filter and fences made side by side, in threads.
    pub fn from_points_in_threads(
        rt: &(impl Threads + Sync),
        alloc: Global,
        low: u64,
        high: u64,
        points: Points,
        fragments: Fragments,
    ) -> Result<Run, AllocError>
        requires { IsRun low high points fragments }
        ensures { IfOk result (λ run.
            run ≡ record { low = low; high = high; points = points; fragments = fragments }) }
    {
        let mut points = points;
        points.shrink_to_fit();
        let (filter, fences) = filter_beside_fences(rt, alloc, &points)?;
        let size = size_of(&points, fragments.as_slice());
        Ok(Run {
            low,
            high,
            points,
            fences,
            filter,
            fragments,
            size,
        })
    }

    /// The least sequence of its range.
    pub fn low_seq(&self) -> u64
        ensures { result ≡ self.now.low }
    {
        self.low
    }

    /// The greatest sequence of its range.
    pub fn high_seq(&self) -> u64
        ensures { result ≡ self.now.high }
    {
        self.high
    }

    /// The number of points.
    pub fn points(&self) -> u64
        ensures { result ≡ length self.now.points }
    {
        self.points.len() as u64
    }

    /// The invariant of every run: its contents make one. Proof step: does nothing when it runs.
    #[inline]
    pub fn recall(&self)
        ensures { IsRun self.now.low self.now.high self.now.points self.now.fragments }
    {
        let _ = &self.low;
    }

    /// The points, in order of key, the newest of a key first.
    #[inline]
    pub fn entries(&self) -> &Points
        ensures { result.now ≡ self.now.points }
    {
        &self.points
    }

    /// The fragments, in order of key.
    #[inline]
    pub fn fragments(&self) -> &[Fragment]
        ensures { result.now ≡ self.now.fragments }
    {
        self.fragments.as_slice()
    }

    /// The point at a place in the order of key, the newest of a key first: its key, its sequence, and what it says.
    pub fn point(&self, place: u64) -> Option<(&[u8], u64, WhatRef<'_>)>
        ensures { option_map (λ p. record { key = p.0.now; seq = p.1; what = packed.what_of p.2 })
            result ≡
            slice_get self.now.points place }
    {
        let point = self.points.get(usize::try_from(place).ok()?)?;
        Some((point.key(), point.seq(), point.what()))
    }

    /// The number of blocks that its points fill.
    pub fn blocks(&self) -> u64
        ensures { result ≡ blocks_of self.now.points }
    {
        self.fences.len() as u64
    }

    /// The key of the first point of a block.
    pub fn fence(&self, block: u64) -> Option<&[u8]>
        ensures { option_map (λ key. key.now) result ≡ fence_of self.now.points block }
    {
        fence(&self.points, block)
    }

    /// The place of the first point whose key is at or above `low` (above it if `strict`): how many come before.
    pub fn seek(&self, low: &[u8], strict: bool) -> u64
        ensures { result ≡ seek.seek_place self.now.points low.now strict }
    {
        seek_by_fences(&self.points, &self.fences, low, strict) as u64
    }

    /// The points from the first whose key is at or above `low` (above it if `strict`) on.
    #[inline]
    pub(crate) fn found(&self, low: &[u8], strict: bool) -> PointSlice<'_>
        ensures { result ≡ drop (seek.seek_place self.now.points low.now strict) self.now.points }
    {
        found_by_fences(&self.points, &self.fences, low, strict)
    }

    /// The fences of its points.
    #[inline]
    pub(crate) fn fences(&self) -> &Fences
        ensures { IsFenced self.now.points result.now }
    {
        &self.fences
    }

    /// A walk over the run in order of key, before the first point whose key is at or above `low`. It costs the logarithm of
    /// the number of points.
    pub fn cursor(&self, low: &[u8]) -> Cursor<'_>
        ensures { result ≡ record { run = self.now; place = seek.seek_place self.now.points low.now false } }
    {
        Cursor::before(self, low)
    }

    /// A walk over the run against the order of key, before the first point whose key is at or above `high`, or at the end if that
    /// is `None`. It costs the logarithm of the number of points.
    pub fn back_cursor(&self, high: &Option<Bytes>) -> BackCursor<'_>
        ensures { result ≡ record { run = self.now; place = end_place self.now.points high.now } }
    {
        BackCursor::below(self, high)
    }

    /// The least key of a point that is at or above `low` (above it if `strict`).
    pub fn next_key(&self, low: &[u8], strict: bool) -> Option<&[u8]>
        ensures { IsNextKey self.now.points low.now strict (option_map (λ key. key.now) result) }
    {
        self.recall();
        let point = self.found(low, strict).first()?;
        Some(point.key())
    }

    /// As [`effect_ref`](Run::effect_ref), with a copy of the value that it puts.
    pub fn effect<O: Operator>(
        &self,
        alloc: Global,
        key: &[u8],
        at: u64,
    ) -> Result<Effect, AllocError>
        ensures { IfOk result (λ effect. effect ≡ effect_on O.meaning (plain_list self.now) key.now at) }
    {
        self.effect_ref::<O>(alloc, key, at)?.into_effect(alloc)
    }

    /// The effect of the run's writes at or below a sequence on a key. It costs the logarithms of the numbers of
    /// points and fragments, and a step for each of the key's points from its last put or delete on. For a key without
    /// points it mostly costs a look at the filter in place of the first logarithm. A value that is put stays in the run.
    pub fn effect_ref<O: Operator>(
        &self,
        alloc: Global,
        key: &[u8],
        at: u64,
    ) -> Result<EffectRef<'_>, AllocError>
        ensures { IfOk result (λ effect. effect ≡ effect_on O.meaning (plain_list self.now) key.now at) }
    {
        self.effect_of_sought::<O>(alloc, &SoughtKey::new(key), at)
    }

    /// As [`effect_ref`](Run::effect_ref), of a key whose hash is known.
    pub fn effect_of_sought<O: Operator>(
        &self,
        alloc: Global,
        key: &SoughtKey<'_>,
        at: u64,
    ) -> Result<EffectRef<'_>, AllocError>
        ensures { IfOk result (λ effect. effect ≡ effect_on O.meaning (plain_list self.now) key.now at) }
    {
        plain_list_does_what_is_found::<O>();
        let points = points_from(&self.points, &self.fences, &self.filter, key);
        effect_found::<O>(alloc, &points, self.fragments.as_slice(), key.key(), at)
    }

    /// Reads what lookups of these keys will read of the filter, the fences and the points, for all keys side by side, so that the
    /// waits for memory overlap. The result has no meaning; the caller must use it, so that the reads aren't removed.
    pub fn touch(&self, alloc: Global, keys: &[SoughtKey<'_>]) -> Result<u8, AllocError> {
        touch_points(alloc, &self.points, &self.fences, &self.filter, keys)
    }

    /// Whether the runs have equal points, fragments and ranges.
    pub fn same(&self, other: &Run) -> bool
        ensures { IsTrue result ↔ (self.now ≡ other.now) }
    {
        self.low == other.low
            && self.high == other.high
            && same_points(&self.points, &other.points)
            && self.fragments.same(&other.fragments)
    }

    /// The size of its points and fragments in bytes, with 8 for each sequence, at most 2^64 - 1.
    pub fn size(&self) -> u64
        ensures { result ≡ size.size_of self.now }
    {
        self.size
    }
}
