//! A store of one owner that shows its runs: a batch is fed to it, and it is read at the last sequence.
use crate::visits::{VISITS, batch_of, lookup, number};
use anyhow::Result;
use std::alloc::Global;
use std::marker::Sync;
use std::thread::Threads;
use uc_store::{
    Alone, Counter, InThreads, Options, Owned, Pieces, answer_last, feed_batch, get_last, open_log,
    open_pieces,
};

/// Counts one more visit. Returns the visits before and after.
fn count_one(alloc: Global, store: &mut Owned<Counter>) -> Result<(u64, u64)> {
    let before = get_last(alloc, store, VISITS)?;
    feed_batch(alloc, store, batch_of(alloc, 1)?)?;
    let query = lookup(alloc, store.version().last())?;
    let now = answer_last(alloc, store, &query)?;
    Ok((number(&before)?, number(&now)?))
}

/// Counts one more visit in the store that a log opens.
pub(crate) fn count(alloc: Global, log: &[u8]) -> Result<(u64, u64)> {
    let mut opened = open_log(&Alone, alloc, log, &[], Options::usual())?;
    count_one(alloc, &mut opened.store)
}

/// The same in the store that threads open from a log in pieces.
pub(crate) fn count_in_threads<R: Threads + Sync>(
    rt: &R,
    alloc: Global,
    log: &[u8],
) -> Result<(u64, u64)> {
    let mut pieces = Pieces::new(alloc);
    pieces.push_bytes(alloc, log)?;
    let mut opened = open_pieces(&InThreads(rt), alloc, pieces, &[], Options::usual())?;
    count_one(alloc, &mut opened.store)
}
