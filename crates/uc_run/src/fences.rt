//! [`Fences`]: prefixes of the first keys of blocks of points, and searches by them.
ghost use Rattle.std.specs.Prelude.{◌≡◌, ◌<◌, ◌≤◌, ℕ, List, true, false, max, length, drop, option_map, IfOk};
ghost use Rattle.std.specs.List.{AllWithin, HoldsAt};
ghost use Rattle.std.specs.List.Sorted.{IsStrictlySortedBy};
ghost use Rattle.uc_bytes.specs.Bytes.{same_bytes};
ghost use Rattle.uc_run_entry.specs.Order.{entry_cmp};
ghost use Rattle.uc_run_entry.specs.Seek as seek;
ghost use Rattle.uc_run.specs.Blocks.{blocks_of, fence_of};
ghost use Rattle.uc_run.specs.Fences.{AreAhead, AreFences, ArePassed, HasPrefixes, IsFence, IsFenced, IsFront};
ghost use Rattle.uc_run.specs.Places.{IsRest, place_of};

use crate::places::is_passed;
use crate::prefixes::{common_prefix_len, equal_range, prefix_of};
use crate::texts::same_text;
use std::alloc::{AllocError, Global};
use uc_bytes::Bytes;
use uc_run_points::{PointRef, PointSlice, PointTest, Points, make_small};

/// The number of points in each block; the last may have fewer. Each block is a quarter of what `Points` has the places of.
pub(crate) const BLOCK_POINTS: usize = 4;

/// The number of points that are passed one by one before the fences are searched.
const FEW_POINTS: usize = 8;

/// Prefixes of the fences, which are the keys of the first points of blocks, apart from the points, so that a search touches few cache
/// lines. The keys themselves are in the points.
pub(crate) struct Fences {
    /// The bytes that all fences have in common at their front.
    front: Bytes,
    /// The prefix of each fence after these bytes, in one piece: most steps of a search look at no point.
    prefixes: Vec<u64>,
}

impl Drop for Fences {
    fn drop(mut self) {
        make_small(&mut self.prefixes, size_of::<u64>());
        let Fences {
            front: _,
            prefixes: _,
        } = self;
    }
}

impl Fences {
    /// The number of fences.
    #[inline]
    pub(crate) fn len(&self) -> usize
        ensures { result ≡ length self.now.prefixes.items }
    {
        self.prefixes.len()
    }

    /// The prefix of each fence after the common front.
    #[inline]
    pub(crate) fn prefixes(&self) -> &[u64] {
        &self.prefixes
    }

    /// The common front of all fences.
    #[inline]
    pub(crate) fn front(&self) -> &[u8] {
        self.front.as_slice()
    }
}

/// The number of blocks that points fill.
#[inline]
fn blocks(points: &Points) -> usize
    ensures { result ≡ blocks_of points.now }
{
    points.len().div_ceil(BLOCK_POINTS)
}

/// The fence of a block: the key of its first point.
#[inline]
fn fence_at(points: &Points, block: usize) -> &[u8]
    requires { block < blocks_of points.now }
    ensures { IsFence points.now block result.now }
{
    // Proof step: there are fewer than 2 ^ 63.
    let _ = points.len();
    match points.get(block * BLOCK_POINTS) {
        Some(first) => first.key(),
        None => unreachable!(),
    }
}

/// The fence of a block, if there is that block.
pub(crate) fn fence(points: &Points, block: u64) -> Option<&[u8]>
    ensures { option_map (λ key. key.now) result ≡ fence_of points.now block }
{
    // Proof step: there are fewer than 2 ^ 63.
    let _ = points.len();
    if block >= blocks(points) as u64 {
        return None;
    }
    let first = points.get(block as usize * BLOCK_POINTS)?;
    Some(first.key())
}

/// The bytes that the fences of points have in common at their front.
fn front_of(points: &Points) -> &[u8]
    ensures { (fences : List (List ℕ)) → AreFences points.now fences → IsFront fences result.now }
{
    let blocks = blocks(points);
    if blocks == 0 {
        return &[];
    }
    let first = fence_at(points, 0);
    let shared = common_prefix_len(first, fence_at(points, blocks - 1));
    &first[..shared]
}

/// The bytes of a key after its first ones, of which there are this many; none if there are fewer.
#[inline]
fn after_front(key: &[u8], count: usize) -> &[u8]
    ensures { result.now ≡ drop count key.now }
{
    match key.get(count..) {
        Some(rest) => rest,
        None => &[],
    }
}

/// The prefix of each fence of points, after a front of this many bytes.
fn prefixes_of(alloc: Global, points: &Points, shared: usize) -> Result<Vec<u64>, AllocError>
    ensures { IfOk result (λ prefixes. HasPrefixes points.now shared (blocks_of points.now) prefixes.items) }
{
    let blocks = blocks(points);
    let mut prefixes = Vec::with_capacity(alloc, blocks)?;
    for block in 0..blocks {
        prefixes.push(prefix_of(after_front(fence_at(points, block), shared)))?;
    }
    Ok(prefixes)
}

/// The fences of points.
pub(crate) fn fences_of(alloc: Global, points: &Points) -> Result<Fences, AllocError>
    ensures { IfOk result (λ fences. IsFenced points.now fences) }
{
    let front = front_of(points);
    let prefixes = prefixes_of(alloc, points, front.len())?;
    Ok(Fences {
        front: Bytes::from_slice(alloc, front)?,
        prefixes,
    })
}

/// The range of blocks that the prefixes don't decide: the fences before it lie before the search, and those after it don't.
fn undecided(points: &Points, fences: &Fences, low: &[u8], strict: bool) -> (usize, usize)
    requires sorted { IsStrictlySortedBy entry_cmp points.now }
    requires fenced { IsFenced points.now fences.now }
    ensures order { result.0 ≤ result.1 }
    ensures bound { result.1 ≤ blocks_of points.now }
    ensures before { ArePassed points.now low.now strict result.0 }
    ensures after { AreAhead points.now low.now strict result.1 }
{
    if let Some(rest) = low.strip_prefix(fences.front.as_slice()) {
        return equal_range(&fences.prefixes, prefix_of(rest));
    }
    let Some(first) = points.get(0) else {
        return (0, 0);
    };
    if is_passed(low, strict, first.key()) {
        (fences.len(), fences.len())
    } else {
        (0, 0)
    }
}

/// The number of fences before the search, which lies between two of them. It is a binary search.
fn search_between(points: &Points, begin: usize, end: usize, low: &[u8], strict: bool) -> usize
    requires sorted { IsStrictlySortedBy entry_cmp points.now }
    requires order { begin ≤ end }
    requires bound { end ≤ blocks_of points.now }
    requires before { ArePassed points.now low.now strict begin }
    requires after { AreAhead points.now low.now strict end }
    ensures bound { result ≤ blocks_of points.now }
    ensures before { ArePassed points.now low.now strict result }
    ensures after { AreAhead points.now low.now strict result }
{
    let (mut passed, mut ahead) = (begin, end);
    while passed < ahead {
        let middle = passed + (ahead - passed) / 2;
        if is_passed(low, strict, fence_at(points, middle)) {
            passed = middle + 1;
        } else {
            ahead = middle;
        }
    }
    passed
}

/// The number of fences before the search.
fn fences_passed(points: &Points, fences: &Fences, low: &[u8], strict: bool) -> usize
    requires sorted { IsStrictlySortedBy entry_cmp points.now }
    requires fenced { IsFenced points.now fences.now }
    ensures bound { result ≤ blocks_of points.now }
    ensures before { ArePassed points.now low.now strict result }
    ensures after { AreAhead points.now low.now strict result }
{
    let (begin, end) = undecided(points, fences, low, strict);
    search_between(points, begin, end, low, strict)
}

/// Passes the points whose keys lie before a search.
#[derive(Drop)]
struct IsPassed<'a> {
    low: &'a [u8],
    strict: bool,
}

impl PointTest for IsPassed<'_> {
    ghost passing = { λ test p. seek.is_passed test.low.now test.strict p.key };

    #[inline]
    fn passes(&self, point: &PointRef<'_>) -> bool {
        is_passed(self.low, self.strict, point.key())
    }
}

/// Passes the points of a key.
#[derive(Drop)]
struct IsOf<'a> {
    key: &'a [u8],
}

impl PointTest for IsOf<'_> {
    ghost passing = { λ test p. same_bytes p.key test.key.now };

    #[inline]
    fn passes(&self, point: &PointRef<'_>) -> bool {
        same_text(point.key(), self.key)
    }
}

/// The points that the search finds, and all after them. It looks into one block, the last whose fence lies before the search, at its
/// points one by one.
pub(crate) fn found_by_fences<'a>(
    points: &'a Points,
    fences: &Fences,
    low: &[u8],
    strict: bool,
) -> PointSlice<'a>
    requires sorted { IsStrictlySortedBy entry_cmp points.now }
    requires fenced { IsFenced points.now fences.now }
    ensures { result ≡ drop (seek.seek_place points.now low.now strict) points.now }
{
    let count = points.len();
    let passed = fences_passed(points, fences, low, strict);
    if passed == 0 {
        return points.as_slice();
    }
    let mut found = points.slice_from((passed - 1) * BLOCK_POINTS);
    found.pass_while(count, &IsPassed { low, strict });
    found
}

/// The number of points before the search.
pub(crate) fn seek_by_fences(points: &Points, fences: &Fences, low: &[u8], strict: bool) -> usize
    requires sorted { IsStrictlySortedBy entry_cmp points.now }
    requires fenced { IsFenced points.now fences.now }
    ensures { result ≡ seek.seek_place points.now low.now strict }
{
    points.len() - found_by_fences(points, fences, low, strict).len()
}

/// Passes the points that lie before the search, of which some were passed before. A few points are looked at one by one; if
/// all of them lie before it, the fences are searched.
pub(crate) fn pass_before<'a>(
    points: &'a Points,
    fences: &Fences,
    ahead: &mut PointSlice<'a>,
    low: &[u8],
    strict: bool,
)
    requires sorted { IsStrictlySortedBy entry_cmp points.now }
    requires fenced { IsFenced points.now fences.now }
    requires rest { IsRest points.now ahead.old }
    ensures { ahead.new ≡ drop (max (place_of points.now ahead.old) (seek.seek_place points.now low.now strict)) points.now }
{
    if ahead.pass_while(FEW_POINTS, &IsPassed { low, strict }) == FEW_POINTS {
        *ahead = found_by_fences(points, fences, low, strict);
    }
}

/// Whether the first of some points, if there is one, lies at or below a key.
#[inline]
fn is_first_passed(points: &PointSlice<'_>, key: &[u8]) -> bool
    ensures { 0 < length points.now → HoldsAt (λ p. result ≡ seek.is_passed key.now true p.key) points.now 0 }
{
    match points.first() {
        Some(point) => is_passed(key, true, point.key()),
        None => false,
    }
}

/// As [`pass_before`], just above a key. If the next point is the only one of that key, which is so for most, this reads one more.
pub(crate) fn pass_key<'a>(
    points: &'a Points,
    fences: &Fences,
    ahead: &mut PointSlice<'a>,
    key: &[u8],
)
    requires sorted { IsStrictlySortedBy entry_cmp points.now }
    requires fenced { IsFenced points.now fences.now }
    requires rest { IsRest points.now ahead.old }
    ensures { ahead.new ≡ drop (max (place_of points.now ahead.old) (seek.seek_place points.now key.now true)) points.now }
{
    let passed = ahead.pass_while(1, &IsOf { key });
    if passed == 0 || is_first_passed(ahead, key) {
        pass_before(points, fences, ahead, key, true);
    }
}
