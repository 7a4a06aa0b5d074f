//! Reading ahead for lookups of many keys: what they will read of a run is read for all keys side by side, so that the waits for
//! memory overlap.

use crate::fences::{BLOCK_POINTS, Fences};
use crate::filter::Filter;
use crate::prefixes::prefix_of;
use crate::sought_key::SoughtKey;
use std::alloc::{AllocError, Global};
use uc_run_points::Points;

/// The least number of points for which reading ahead pays: fewer are mostly in the cache.
const SOME_POINTS: usize = 512;

/// The search of a key by the fences.
#[derive(Clone, Copy)]
struct Search {
    /// The prefix of the key after the fences' common front.
    prefix: u64,
    /// The number of a block: no fence before it is above the key's prefix.
    block: usize,
}

/// Reads the words of the filter that lookups of keys ask first.
fn touch_filter(filter: &Filter, keys: &[SoughtKey<'_>]) -> u8 {
    let mut touched = 0;
    for key in keys {
        touched ^= filter.touch(key);
    }
    touched
}

/// The searches of the keys that the filter admits, before the first step.
fn searches_of(
    alloc: Global,
    filter: &Filter,
    fences: &Fences,
    keys: &[SoughtKey<'_>],
) -> Result<Vec<Search>, AllocError> {
    let mut searches = Vec::with_capacity(alloc, keys.len())?;
    for key in keys {
        if filter.admits(key) {
            if let Some(rest) = key.key().strip_prefix(fences.front()) {
                searches.push(Search {
                    prefix: prefix_of(rest),
                    block: 0,
                })?;
            }
        }
    }
    Ok(searches)
}

/// Moves a search on by a number of blocks, if the prefix there is below the key's. It compiles to no branch, since the outcome can't be
/// predicted.
#[inline]
fn advanced(search: Search, prefixes: &[u64], count: usize) -> usize {
    let place = search.block.saturating_add(count);
    match prefixes.get(place) {
        Some(prefix) if *prefix < search.prefix => place,
        _ => search.block,
    }
}

/// A step of all searches.
fn advance_all(searches: &mut [Search], prefixes: &[u64], count: usize) {
    for search in searches.iter_mut() {
        search.block = advanced(*search, prefixes, count);
    }
}

/// Searches the prefixes for all keys, one step of each after the other.
fn search_all(searches: &mut [Search], prefixes: &[u64]) {
    let mut left = prefixes.len();
    while left > 1 {
        let half = left / 2;
        advance_all(searches, prefixes, half);
        left -= half;
    }
}

/// Reads where the blocks that were found begin.
fn touch_starts(points: &Points, searches: &[Search]) -> u8 {
    let mut touched = 0;
    for search in searches {
        touched ^= points.touch_start(search.block.saturating_mul(BLOCK_POINTS));
    }
    touched
}

/// Reads the points of the blocks that were found.
fn touch_blocks(points: &Points, searches: &[Search]) -> u8 {
    let mut touched = 0;
    for search in searches {
        touched ^= points.touch(search.block.saturating_mul(BLOCK_POINTS));
    }
    touched
}

/// Reads what lookups of the keys will read of a run with these points, fences and filter. The result has no meaning; the caller must
/// use it, so that the reads aren't removed.
pub(crate) fn touch_points(
    alloc: Global,
    points: &Points,
    fences: &Fences,
    filter: &Filter,
    keys: &[SoughtKey<'_>],
) -> Result<u8, AllocError> {
    if points.len() < SOME_POINTS {
        return Ok(0);
    }
    let filtered = touch_filter(filter, keys);
    let mut searches = searches_of(alloc, filter, fences, keys)?;
    search_all(&mut searches, fences.prefixes());
    let started = touch_starts(points, &searches);
    Ok(filtered ^ started ^ touch_blocks(points, &searches))
}
