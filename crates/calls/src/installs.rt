//! Compactions of claimed runs, and their installs.
use crate::merges::made_by_parts;
use crate::out::Halt;
use crate::owner::{Held, find, held_under, hold, taken};
use std::alloc::Global;
use std::marker::Sync;
use std::thread::Threads;
use uc_compact::Compacted;
use uc_oper::Operator;
use uc_query::Reply;
use uc_version::{Alone, CompactError, MOST_SLOTS, Owned, Stretch};
use uc_version_compact::InstallError;
use uc_version_state::Placed;

/// The executor of compactions, feeds and merges.
#[derive(Clone, Copy)]
pub(crate) enum Workers {
    /// The calling thread.
    Alone,
    /// Threads.
    Threads,
    /// Threads, for a number of parts of the key space.
    Parts,
}

/// Returns the current stretch of a claim, which feeds and installs shift.
fn stretch_of(runs: &[Placed], newest: u64, count: usize) -> Result<Stretch, Halt> {
    for (first, placed) in runs.iter().enumerate() {
        if placed.id() == newest {
            return Ok(Stretch { first, count });
        }
    }
    Err(Halt::Refused)
}

/// Compacts a claim in parts, for the store's keeps.
fn made_for_store<O: Operator + Sync>(
    rt: &(impl Threads + Sync),
    alloc: Global,
    store: &Owned<O>,
    held: &Held<O>,
) -> Result<Compacted<O>, Halt> {
    let version = store.version();
    let runs = version.runs();
    let stretch = stretch_of(runs, held.newest, held.count)?;
    let oldest = stretch.first.saturating_add(stretch.count) == runs.len();
    made_by_parts::<O>(rt, alloc, runs, stretch, (version.keeps(), oldest))
}

/// Compacts a claim.
fn made_of<O: Operator + Sync>(
    rt: &(impl Threads + Sync),
    alloc: Global,
    store: &Owned<O>,
    held: &Held<O>,
    workers: Workers,
) -> Result<Compacted<O>, Halt> {
    if !store.holds(&held.claim) {
        return Err(Halt::Refused);
    }
    Ok(match workers {
        Workers::Alone => store.compact_by(&Alone, alloc, &held.claim)?,
        Workers::Threads => store.compact(rt, alloc, &held.claim)?,
        Workers::Parts => made_for_store(rt, alloc, store, held)?,
    })
}

/// Compacts a held claim, for the store's keeps.
pub(crate) fn make<O: Operator + Sync>(
    rt: &(impl Threads + Sync),
    alloc: Global,
    store: &Owned<O>,
    held: &mut Held<O>,
    workers: Workers,
) -> Result<(), Halt> {
    let made = made_of(rt, alloc, store, held, workers)?;
    held.put_made(made);
    Ok(())
}

/// Compacts a held claim for other keeps, as the oldest runs or not.
pub(crate) fn make_under<O: Operator + Sync>(
    rt: &(impl Threads + Sync),
    alloc: Global,
    store: &Owned<O>,
    held: &mut Held<O>,
    terms: (&[u64], bool),
) -> Result<(), Halt> {
    let runs = store.version().runs();
    let stretch = stretch_of(runs, held.newest, held.count)?;
    let made = made_by_parts(rt, alloc, runs, stretch, terms)?;
    held.put_made(made);
    Ok(())
}

/// Installs a compaction in place of its claim's runs. If that is refused, the claim is held again.
fn put<O: Operator>(
    store: &mut Owned<O>,
    claims: &mut Vec<Held<O>>,
    held: Held<O>,
) -> Result<Reply, Halt> {
    let (name, newest, count, claim, made) = held.into_parts();
    let Some(made) = made else {
        return Err(Halt::Refused);
    };
    if !store.holds(&claim) {
        return Err(Halt::Refused);
    }
    match store.install(claim, made) {
        Ok(id) => Ok(Reply::Installed(id)),
        Err((claim, made, error)) => {
            let made = Some(made);
            let back = Held {
                name,
                newest,
                count,
                claim,
                made,
            };
            hold(claims, back)?;
            Ok(Reply::NotInstalled(error))
        }
    }
}

/// Installs the compaction of the claim with a name. Compacts first if that wasn't done.
pub(crate) fn install<O: Operator + Sync>(
    rt: &(impl Threads + Sync),
    alloc: Global,
    store: &mut Owned<O>,
    claims: &mut Vec<Held<O>>,
    (name, workers): (u8, Workers),
) -> Result<Reply, Halt> {
    if find(claims, name).is_none() {
        return Ok(Reply::NoClaim(name));
    }
    let held = held_under(claims, name)?;
    if held.made.is_none() {
        make(rt, alloc, store, held, workers)?;
    }
    match taken(claims, name) {
        Some(held) => put(store, claims, held),
        None => Ok(Reply::NoClaim(name)),
    }
}

/// Compacts a stretch and installs the run. Returns its id.
fn compacted_now<O: Operator + Sync>(
    rt: &(impl Threads + Sync),
    alloc: Global,
    store: &mut Owned<O>,
    stretch: Stretch,
    workers: Workers,
) -> Result<u64, CompactError> {
    match workers {
        Workers::Alone => store.compact_now_by(&Alone, alloc, stretch),
        _ => store.compact_now(rt, alloc, stretch),
    }
}

/// Compacts a stretch and installs the run, unless that is refused.
fn compacted<O: Operator + Sync>(
    rt: &(impl Threads + Sync),
    alloc: Global,
    store: &mut Owned<O>,
    stretch: Stretch,
    workers: Workers,
) -> Result<u64, Halt> {
    match compacted_now(rt, alloc, store, stretch, workers) {
        Ok(id) => Ok(id),
        Err(CompactError::Memory) => Err(Halt::Memory),
        Err(_) => Err(Halt::Refused),
    }
}

/// Reads a stretch, compacts it and installs the run.
pub(crate) fn compact<O: Operator + Sync>(
    rt: &(impl Threads + Sync),
    alloc: Global,
    store: &mut Owned<O>,
    stretch: Stretch,
    workers: Workers,
) -> Result<Reply, Halt> {
    match compacted_now(rt, alloc, store, stretch, workers) {
        Ok(id) => Ok(Reply::Compacted(id)),
        Err(CompactError::NotClaimed(error)) => Ok(Reply::Refused(error)),
        Err(CompactError::IdsSpent) => Ok(Reply::NotInstalled(InstallError::IdsSpent)),
        Err(CompactError::Memory) => Err(Halt::Memory),
    }
}

/// Compacts picked stretches until nothing is picked. Returns the number of compactions. Each leaves fewer runs.
pub(crate) fn settle<O: Operator + Sync>(
    rt: &(impl Threads + Sync),
    alloc: Global,
    store: &mut Owned<O>,
    workers: Workers,
) -> Result<u64, Halt> {
    let mut count = 0_u64;
    for _ in 0..MOST_SLOTS {
        let Some(stretch) = store.pick() else {
            break;
        };
        compacted(rt, alloc, store, stretch, workers)?;
        count = count.saturating_add(1);
    }
    Ok(count)
}
