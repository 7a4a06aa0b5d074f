//! Writes and queries of races.
use crate::dice::change_of;
use crate::drawn::{get, scan};
use std::alloc::Global;
use uc_batch::Writes;
use uc_bytes::WriteRef;
use uc_query_read::Query;

/// A change: its kind and its byte strings (`change_of`).
type Change = (u64, &'static [u8], &'static [u8]);

/// A put and three merges.
static FOUR: [Change; 4] = [
    (0, b"k", b"a"),
    (4, b"k", b"b"),
    (4, b"k", b"b"),
    (4, b"k", b"b"),
];

/// A put and a merge of `k`, a put of `l`, a range deletion from `k` to `l`, and a merge of `k`.
static FIVE: [Change; 5] = [
    (0, b"k", b"a"),
    (4, b"k", b"b"),
    (0, b"l", b"x"),
    (2, b"k", b"l"),
    (4, b"k", b"c"),
];

/// A query: true for a scan, the key, the end, the sequence number, and the largest number of rows.
type Asked = (bool, &'static [u8], &'static [u8], u64, u64);

/// Queries of the five writes. A snapshot keeps sequence number 2, and 3 isn't protected.
static QUERIES: [Asked; 7] = [
    (false, b"k", b"", 5, 0),
    (false, b"k", b"", 2, 0),
    (false, b"l", b"", 5, 0),
    (false, b"k", b"", 3, 0),
    (true, b"", b"", 5, 10),
    (true, b"", b"", 5, 0),
    (true, b"k", b"l", 2, 10),
];

/// Returns the changes of the five writes, or of the four.
fn changes(are_five: bool) -> &'static [Change] {
    if are_five { &FIVE } else { &FOUR }
}

/// Returns the five writes, or the four, numbered from 1.
pub fn writes_of(alloc: Global, are_five: bool) -> Option<Writes> {
    let mut writes = Vec::new(alloc);
    let mut seq = 0_u64;
    for (kind, key, other) in changes(are_five) {
        seq = seq.saturating_add(1);
        let write = WriteRef::new(seq, change_of(*kind, key, other));
        writes.push(write.to_write(alloc).ok()?).ok()?;
    }
    Writes::of(writes)
}

/// Returns all queries.
fn asked() -> &'static [Asked] {
    &QUERIES
}

/// Returns the first `count` queries.
pub fn queries_of(alloc: Global, count: usize) -> Option<Vec<Query>> {
    let mut queries = Vec::new(alloc);
    for (is_scan, key, end, at, limit) in asked().iter().take(count) {
        let query = if *is_scan {
            scan(alloc, key, end, *at, *limit)
        } else {
            get(alloc, key, *at)
        };
        queries.push(query?).ok()?;
    }
    Some(queries)
}
