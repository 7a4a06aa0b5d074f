//! Pseudorandom keys and queries, the same in each run.
use crate::plan::Plan;
use std::alloc::Global;
use uc_batch::Writes;
use uc_bytes::Bytes;
use uc_query_read::Query;

/// Largest number of rows of a random scan.
const MOST_ROWS: u64 = 50;

/// The random number generator SplitMix64 (Steele, Lea and Flood, 2014).
#[derive(Clone, Copy, Drop)]
pub(crate) struct Numbers {
    state: u64,
}

impl Numbers {
    /// Returns the generator with a seed.
    pub(crate) fn new(seed: u64) -> Numbers {
        Numbers { state: seed }
    }

    /// Returns the next number below a bound, or 0 if that is 0.
    pub(crate) fn below(&mut self, bound: u64) -> u64 {
        self.state = self.state.wrapping_add(0x9e37_79b9_7f4a_7c15);
        let mixed = (self.state ^ (self.state >> 30)).wrapping_mul(0xbf58_476d_1ce4_e5b9);
        let mixed = (mixed ^ (mixed >> 27)).wrapping_mul(0x94d0_49bb_1331_11eb);
        (mixed ^ (mixed >> 31)).checked_rem(bound).unwrap_or(0)
    }
}

/// Returns the key with a number, in the form that `make_log` writes.
pub(crate) fn key_of(alloc: Global, number: u64) -> Option<Bytes> {
    let text = format!(in alloc; "account/{number:08}").ok()?;
    Bytes::from_slice(alloc, text.as_bytes()).ok()
}

/// Returns a lookup of a random key, or a scan of 1 to 50 rows that begins at one.
fn query_of(
    alloc: Global,
    numbers: &mut Numbers,
    plan: Plan,
    at: u64,
    is_scan: bool,
) -> Option<Query> {
    let key = key_of(alloc, numbers.below(plan.keys))?;
    if !is_scan {
        return Some(Query::Get { key, at });
    }
    Some(Query::Scan {
        low: key,
        high: None,
        at,
        limit: numbers.below(MOST_ROWS).saturating_add(1),
    })
}

/// Returns the queries of a batch at a sequence number: lookups, and then scans.
pub(crate) fn queries_of(alloc: Global, plan: Plan, at: u64) -> Option<Vec<Query>> {
    let mut numbers = Numbers::new(1);
    let mut queries = Vec::new(alloc);
    for place in 0..plan.lookups.saturating_add(plan.scans) {
        let query = query_of(alloc, &mut numbers, plan, at, place >= plan.lookups)?;
        queries.push(query).ok()?;
    }
    Some(queries)
}

/// Returns the writes from index `place` on, at most `size`.
fn batch_at(alloc: Global, writes: &Writes, place: usize, size: usize) -> Option<Writes> {
    let rest = writes.list().get(place..)?;
    let list = rest.get(..size).unwrap_or(rest);
    Writes::of(list.to_vec(alloc).ok()?)
}

/// Returns the batches of a log's writes that a plan feeds.
pub(crate) fn batches_of(alloc: Global, writes: &Writes, plan: Plan) -> Option<Vec<Writes>> {
    let mut batches = Vec::new(alloc);
    for number in 0..plan.count {
        let place = number.saturating_mul(plan.size);
        batches
            .push(batch_at(alloc, writes, place, plan.size)?)
            .ok()?;
    }
    Some(batches)
}
