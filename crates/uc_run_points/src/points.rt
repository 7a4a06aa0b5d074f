//! [`Points`]: the points of a run, encoded.
ghost use Rattle.std.specs.Prelude.{List, ◌+◌, ◌≡◌, ◌<◌, ◌≤◌, ◌^◌, ◌*◌, ◌%◌, ◌==◌, ◌++◌, [], ◌∷◌, length, take, drop, if◌then◌else◌, IfOk, IfErr, OnOk, OnErr};
ghost use Rattle.std.specs.List.{AllByRecursion, slice_get};
ghost use mathlib.Core.List.{IsPrefix};
ghost use Rattle.uc_run_entry.specs.declared.entry.Entry.{Entry as EntryOf};
ghost use Rattle.uc_run_entry.specs.Packed as packed;
ghost use Rattle.uc_run_points.specs.Faults.{IsErrorOf};
ghost use Rattle.uc_run_points.specs.Spelling as spelling;
ghost use Rattle.uc_run_points.specs.Spelling.{AreSpelled, Fits};
ghost use Rattle.uc_run_points.specs.Starts.{AreStarts, quarter_points};

use crate::judging::count_spelled;
use crate::point_ref::PointRef;
use crate::point_slice::PointSlice;
use crate::points_ahead::PointsAhead;
use crate::points_error::PointsError;
use crate::spelling::{push_entry, read_entry};
use crate::touching::{touch_quarter, touch_start};
use std::alloc::{AllocError, Global};
use std::marker::Model;
use uc_run_entry::{Entry, WhatRef, make_small};

/// Number of points in a quarter of a run's block. The last quarter may have fewer. The offset of each quarter's first point is kept.
pub(crate) const QUARTER_POINTS: usize = 4;

/// Points encoded in one arena, with the offsets of quarters of blocks. A contract sees it as the list of the entries.
pub struct Points {
    /// The arena: the encodings of the entries, one after the other.
    bytes: Vec<u8>,
    /// Offset of the first entry of each quarter, in bytes.
    starts: Vec<usize>,
    count: usize,
}

impl Model for Points {
    ghost use Rattle.std.specs.Prelude.{List};
    ghost use Rattle.uc_run_entry.specs.declared.entry.Entry.{Entry};
    ghost use Rattle.uc_run_points.specs.Held.{entries_of, AreHeld};

    ghost Value = { List Entry };

    ghost view = { entries_of };

    ghost invariant = { AreHeld };
}

impl Drop for Points {
    fn drop(mut self) {
        make_small(&mut self.bytes, size_of::<u8>());
        make_small(&mut self.starts, size_of::<usize>());
        let Points {
            bytes: _,
            starts: _,
            count: _,
        } = self;
    }
}

/// Pushes the encoding of an entry. On `Err` nothing has been pushed.
fn append_entry(
    bytes: &mut Vec<u8>,
    key: &[u8],
    seq: u64,
    what: WhatRef<'_>,
) -> Result<(), AllocError>
    requires { seq < 2 ^ 62 }
    ensures pushed { OnOk result
        (bytes.new.items ≡
        bytes.old.items
        ++ spelling.entry_text (record { key = key.now; seq = seq; what = packed.what_of what.entry })) }
    ensures fits { OnOk result (Fits (record { key = key.now; seq = seq; what = packed.what_of what.entry })) }
    ensures as_it_was { OnErr result (bytes.new.items ≡ bytes.old.items) }
{
    let before = bytes.len();
    if let Err(error) = push_entry(bytes, key, seq, what) {
        bytes.truncate(before);
        return Err(error);
    }
    Ok(())
}

/// Pushes an entry's offset if its index `place` begins a quarter. On `Err` nothing has been pushed.
pub(crate) fn push_start(
    starts: &mut Vec<usize>,
    place: usize,
    offset: usize,
) -> Result<(), AllocError>
    ensures pushed { OnOk result
        (starts.new.items ≡ (if place % quarter_points == 0 then starts.old.items ++ offset ∷ [] else starts.old.items)) }
    ensures as_it_was { OnErr result (starts.new.items ≡ starts.old.items) }
{
    if place % QUARTER_POINTS == 0 {
        starts.push(offset)?;
    }
    Ok(())
}

/// Pushes the offsets of the entries that begin a quarter, among the `count` entries that `bytes` encodes. `place` entries and `offset`
/// bytes come before them. Decodes each entry. On `Err` some offsets may have been pushed.
fn push_starts(
    starts: &mut Vec<usize>,
    place: usize,
    offset: usize,
    bytes: &[u8],
    count: usize,
) -> Result<(), AllocError>
    requires spelled { AreSpelled count bytes.now }
    requires place { place + count < 2 ^ 64 }
    requires offset { offset + length bytes.now < 2 ^ 64 }
    ensures pushed { (es : List EntryOf) → length es ≡ place → length (spelling.entries_text es) ≡ offset →
        AreStarts es starts.old.items →
        OnOk result (AreStarts (es ++ spelling.entries_from count bytes.now) starts.new.items) }
    ensures begins { IsPrefix starts.old.items starts.new.items }
{
    let mut rest = bytes;
    for number in 0..count {
        push_start(starts, place + number, offset + (bytes.len() - rest.len()))?;
        let (_, behind) = read_entry(rest);
        rest = behind;
    }
    Ok(())
}

/// Returns the points from the first of a quarter on.
#[inline]
fn quarter_ahead<'a>(
    bytes: &'a [u8],
    starts: &[usize],
    count: usize,
    quarter: usize,
) -> PointsAhead<'a>
    requires spelled { AreSpelled count bytes.now }
    requires starts { AreStarts (spelling.entries_from count bytes.now) starts.now }
    ensures { result ≡ drop (quarter_points * quarter) (spelling.entries_from count bytes.now) }
{
    match starts.get(quarter) {
        None => PointsAhead::none(),
        Some(start) => PointsAhead::new(&bytes[*start..], count - quarter * QUARTER_POINTS),
    }
}

impl Points {
    /// Returns an empty list of points. Doesn't allocate.
    pub fn new(alloc: Global) -> Points
        ensures { result ≡ [] }
    {
        Points {
            bytes: Vec::new(alloc),
            starts: Vec::new(alloc),
            count: 0,
        }
    }

    /// Returns the number of points.
    #[inline]
    pub fn len(&self) -> usize
        ensures count { result ≡ length self.now }
        ensures bound { result < 2 ^ 63 }
    {
        self.count
    }

    /// Returns the size of the encoded points in bytes.
    #[inline]
    pub fn size(&self) -> usize
        ensures { result ≡ length (spelling.entries_text self.now) }
    {
        self.bytes.len()
    }

    /// Returns the points that `bytes` encodes. `bytes` becomes their arena, without copying. Decodes each point once. Fails with the offset
    /// of the first fault, or if allocation fails.
    pub fn from_bytes(alloc: Global, bytes: Vec<u8>) -> Result<Points, PointsError>
        ensures points { IfOk result (λ points. bytes.items ≡ spelling.entries_text points) }
        ensures fits { IfOk result (λ points. AllByRecursion Fits points) }
        ensures fault { IfErr result (IsErrorOf bytes.items) }
    {
        let mut starts = Vec::new(alloc);
        let count = count_spelled(&bytes, &mut starts)?;
        Ok(Points {
            bytes,
            starts,
            count,
        })
    }

    /// Returns the arena: the encoded points.
    #[inline]
    pub fn as_bytes(&self) -> &[u8]
        ensures spelled { result.now ≡ spelling.entries_text self.now }
        ensures fits { AllByRecursion Fits self.now }
    {
        &self.bytes
    }

    /// Appends a point. On `Err` nothing has changed.
    pub fn push(&mut self, key: &[u8], seq: u64, what: WhatRef<'_>) -> Result<(), AllocError>
        requires { seq < 2 ^ 62 }
        ensures pushed { OnOk result
            (self.new ≡ self.old ++ record { key = key.now; seq = seq; what = packed.what_of what.entry } ∷ []) }
        ensures as_it_was { OnErr result (self.new ≡ self.old) }
    {
        let offset = self.bytes.len();
        append_entry(&mut self.bytes, key, seq, what)?;
        if let Err(error) = push_start(&mut self.starts, self.count, offset) {
            self.bytes.truncate(offset);
            return Err(error);
        }
        self.count += 1;
        Ok(())
    }

    /// Appends copies of points: copies their bytes, and decodes each once. On `Err` nothing has changed.
    pub fn extend(&mut self, points: &Points) -> Result<(), AllocError>
        ensures pushed { OnOk result (self.new ≡ self.old ++ points.now) }
        ensures as_it_was { OnErr result (self.new ≡ self.old) }
    {
        let (offset, quarters) = (self.bytes.len(), self.starts.len());
        self.bytes.extend_from_slice(&points.bytes)?;
        let pushed = push_starts(
            &mut self.starts,
            self.count,
            offset,
            &points.bytes,
            points.count,
        );
        if let Err(error) = pushed {
            self.starts.truncate(quarters);
            self.bytes.truncate(offset);
            return Err(error);
        }
        self.count += points.count;
        Ok(())
    }

    /// Keeps the first `count` points, which take `size` bytes, and drops the others.
    pub fn truncate(&mut self, count: usize, size: usize)
        requires count { count ≤ length self.old }
        requires size { size ≡ length (spelling.entries_text (take count self.old)) }
        ensures { self.new ≡ take count self.old }
    {
        self.bytes.truncate(size);
        self.starts.truncate(count.div_ceil(QUARTER_POINTS));
        self.count = count;
    }

    /// Frees unused capacity.
    pub fn shrink_to_fit(&mut self)
        ensures { self.new ≡ self.old }
    {
        self.bytes.shrink_to_fit();
        self.starts.shrink_to_fit();
    }

    /// Returns a walk over the points from index `place` on. Decodes the points before it in its quarter.
    #[inline]
    pub fn from(&self, place: usize) -> PointsAhead<'_>
        ensures { result ≡ drop place self.now }
    {
        let mut ahead = quarter_ahead(
            &self.bytes,
            &self.starts,
            self.count,
            place / QUARTER_POINTS,
        );
        ahead.pass(place % QUARTER_POINTS);
        ahead
    }

    /// Returns a walk over all points.
    #[inline]
    pub fn ahead(&self) -> PointsAhead<'_>
        ensures { result ≡ self.now }
    {
        PointsAhead::new(&self.bytes, self.count)
    }

    /// Returns the point at index `place`, if there is one. Decodes the points before it in its quarter.
    #[inline]
    pub fn get(&self, place: usize) -> Option<PointRef<'_>>
        ensures { result ≡ slice_get self.now place }
    {
        self.from(place).first()
    }

    /// Reads where the quarter of a place begins, ahead of [`touch`](Points::touch). The result has no meaning; the caller must
    /// use it, so that the read isn't removed.
    #[inline]
    pub fn touch_start(&self, place: usize) -> u8 {
        touch_start(&self.starts, place / QUARTER_POINTS)
    }

    /// Reads a byte in each of the first cache lines of the quarter of a place, ahead of a lookup that reads its points. The result
    /// has no meaning; the caller must use it, so that the reads aren't removed.
    #[inline]
    pub fn touch(&self, place: usize) -> u8 {
        touch_quarter(&self.bytes, &self.starts, place / QUARTER_POINTS)
    }

    /// Returns the slice of the points from index `place` on. Decodes the points before it in its quarter.
    #[inline]
    pub fn slice_from(&self, place: usize) -> PointSlice<'_>
        ensures { result ≡ drop place self.now }
    {
        PointSlice::from_place(self, place)
    }

    /// Returns an empty slice. Decodes no point.
    #[inline]
    pub fn none(&self) -> PointSlice<'_>
        ensures { result ≡ [] }
    {
        PointSlice::none(self)
    }

    /// Returns the slice of all points.
    #[inline]
    pub fn as_slice(&self) -> PointSlice<'_>
        ensures { result ≡ self.now }
    {
        PointSlice::new(self)
    }
}

/// Returns the points of `entries`. Fails if allocation fails.
pub fn points_of(alloc: Global, entries: &[Entry]) -> Result<Points, AllocError>
    requires { AllByRecursion (λ e. e.seq < 2 ^ 56) entries.now }
    ensures { IfOk result (λ points. points ≡ entries.now) }
{
    let mut points = Points::new(alloc);
    for entry in entries {
        points.push(entry.key.as_slice(), entry.seq, WhatRef::of(&entry.what))?;
    }
    Ok(points)
}
