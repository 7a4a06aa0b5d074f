//! Random writes that their sequence numbers determine, and random queries.
use crate::dice::Dice;
use std::alloc::Global;
use uc_batch::Writes;
use uc_bytes::{Bytes, Write};
use uc_query_read::Query;

/// Returns the write with a sequence number, which is the same for all feeders.
fn write_at(alloc: Global, seq: u64) -> Option<Write> {
    let mut dice = Dice::new(seq);
    dice.roll(2);
    dice.write(alloc, seq)
}

/// Returns the next `count` writes after a sequence number. One of four sequence numbers has no write.
pub fn writes_behind(alloc: Global, last: u64, count: u64) -> Option<Writes> {
    let mut writes = Vec::new(alloc);
    let mut seq = last;
    for _ in 0..count {
        let step = if seq & 3 == 2 { 2 } else { 1 };
        seq = seq.saturating_add(step);
        writes.push(write_at(alloc, seq)?).ok()?;
    }
    Writes::of(writes)
}

/// Returns a scan from a key, inclusive, to another, exclusive. If that is empty, the scan has no end.
pub fn scan(alloc: Global, low: &[u8], high: &[u8], at: u64, limit: u64) -> Option<Query> {
    let low = Bytes::from_slice(alloc, low).ok()?;
    if high.is_empty() {
        return Some(Query::Scan {
            low,
            high: None,
            at,
            limit,
        });
    }
    Some(Query::Scan {
        low,
        high: Some(Bytes::from_slice(alloc, high).ok()?),
        at,
        limit,
    })
}

/// Returns a lookup.
pub fn get(alloc: Global, key: &[u8], at: u64) -> Option<Query> {
    let key = Bytes::from_slice(alloc, key).ok()?;
    Some(Query::Get { key, at })
}

/// Returns a random query. Two of three are lookups. The others are scans of at most seven rows, with or without an end.
fn drawn_query(alloc: Global, dice: &mut Dice, at: u64) -> Option<Query> {
    let key = dice.key();
    if dice.roll(3) > 0 {
        return get(alloc, key, at);
    }
    let high = if dice.roll(2) > 0 { dice.key() } else { b"" };
    scan(alloc, key, high, at, dice.roll(8))
}

/// Returns a sequence number to query at: mostly the last of the three that are kept, sometimes any up to the second.
fn drawn_sequence(dice: &mut Dice, keeps: [u64; 3]) -> u64 {
    let [first, second, last] = keeps;
    match dice.roll(8) {
        0 => first,
        1 => second,
        2 => dice.roll(second).saturating_add(1),
        _ => last,
    }
}

/// Returns `count` random queries at sequence numbers, of which `keeps` are kept.
pub fn drawn_queries(
    alloc: Global,
    dice: &mut Dice,
    keeps: [u64; 3],
    count: u64,
) -> Option<Vec<Query>> {
    let mut queries = Vec::new(alloc);
    for _ in 0..count {
        let at = drawn_sequence(dice, keeps);
        queries.push(drawn_query(alloc, dice, at)?).ok()?;
    }
    Some(queries)
}
