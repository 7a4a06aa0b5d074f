//! A store that threads share: one feeds and one compacts, while two answer at a snapshot.
ghost use Rattle.uc_store.specs.Stores.{IsNamed};

use crate::visits::{batch_of, lookups, number};
use anyhow::{Context, Result, bail};
use std::alloc::Global;
use std::marker::{Send, Sync};
use std::sync::Wait;
use std::thread::{Threads, join};
use uc_store::{
    Compactor, Counter, Free, Name, Opening, Reader, Store, answer_all, feed_shared_batch,
    next_compactor,
};

fn feed<N: Name, R: Wait>(
    rt: &R,
    alloc: Global,
    store: &Store<Counter, N, &R>,
    mut reader: Reader<Counter, N>,
) -> Result<()> {
    for visits in 1..51 {
        feed_shared_batch(rt, alloc, store, batch_of(alloc, visits)?, &mut reader)?;
    }
    Ok(())
}

fn compact<N: Name, R: Threads + Wait + Sync>(
    rt: &R,
    alloc: Global,
    store: &Store<Counter, N, &R>,
    mut compactor: Compactor<Counter, N>,
) -> Result<()> {
    for _ in 0..50 {
        store.turn(rt, alloc, &mut compactor)?;
    }
    Ok(())
}

/// The visits at the opening's snapshot, which two workers look up while others feed and compact.
pub(crate) fn count<N: Name + Send + Sync, R: Threads + Wait + Sync>(
    rt: &R,
    alloc: Global,
    opening: Opening<Counter>,
) -> Result<u64>
    requires { IsNamed opening N.book N.table N.base }
{
    let queries = lookups(alloc, opening.version().last())?;
    let Ok((store, mut readers, mut seats)) = opening.named::<N, &R>(alloc, rt) else {
        bail!("no memory");
    };
    let feeder = readers.pop().context("no reader")?;
    let compactor = next_compactor(&store, &mut readers, &mut seats).context("no compactor")?;
    let (fed, (compacted, answers)) = join(
        rt,
        || feed(rt, alloc, &store, feeder),
        || join(
            rt,
            || compact(rt, alloc, &store, compactor),
            || answer_all(rt, alloc, readers, &queries, 2, 1, &Free).1,
        ),
    );
    (fed?, compacted?);
    number(answers?.first().context("no answer")?)
}
