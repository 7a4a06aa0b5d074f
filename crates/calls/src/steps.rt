//! Calls of a store with one owner.
use crate::input::Input;
use crate::installs::{Workers, compact, install, make, make_under, settle};
use crate::lists::{self, name};
use crate::out::{Halt, Out};
use crate::owner::{Held, abandon, claim, held_under};
use crate::replies::write_reply;
use crate::store_reads::{answer, apart, ask, merge};
use crate::versions::{self, stretch};
use crate::{said, shop};
use std::alloc::Global;
use std::marker::Sync;
use std::thread::Threads;
use std::time::Clock;
use uc_batch::Writes;
use uc_oper::Operator;
use uc_query::{Reply, report};
use uc_version::{FeedError, InThreads, MOST_SLOTS, Owned};

/// Feeds writes, by one thread or by several.
fn fed<O: Operator>(
    rt: &(impl Threads + Sync),
    alloc: Global,
    store: &mut Owned<O>,
    writes: &Writes,
    workers: Workers,
) -> Result<u64, FeedError> {
    match workers {
        Workers::Alone => store.feed(alloc, writes),
        _ => store.feed_by(&InThreads(rt), alloc, writes),
    }
}

/// Returns the reply to a feed.
fn reply_to(fed: Result<u64, FeedError>) -> Result<Reply, Halt> {
    match fed {
        Ok(count) => Ok(Reply::Fed(count)),
        Err(FeedError::Memory) => Err(Halt::Memory),
        Err(error) => Ok(Reply::NotFed(error)),
    }
}

/// Reads writes, and feeds them. Clocks only the feeding.
fn feed<O: Operator>(
    rt: &(impl Threads + Clock + Sync),
    alloc: Global,
    store: &mut Owned<O>,
    workers: Workers,
    call: &mut Input<'_>,
    out: &mut Out,
) {
    if let Some(writes) = said::rising(alloc, call, out) {
        out.watch.restart(rt);
        let outcome = fed(rt, alloc, store, &writes, workers);
        out.watch.stop(rt);
        say(alloc, out, &reply_to(outcome));
    }
}

/// Releases a snapshot.
fn release<O: Operator>(store: &mut Owned<O>, seq: u64) -> Reply {
    match store.release(seq) {
        Ok(()) => Reply::Released(seq),
        Err(_) => Reply::NotReleased(seq),
    }
}

/// Writes a reply, or records the reason why there is none.
fn say(alloc: Global, out: &mut Out, reply: &Result<Reply, Halt>) {
    match reply {
        Ok(reply) => write_reply(alloc, out, reply),
        Err(halt) => out.stop(*halt),
    }
}

/// Makes a call and returns the reply.
fn reply<O: Operator + Sync>(
    rt: &(impl Threads + Sync),
    alloc: Global,
    store: &mut Owned<O>,
    claims: &mut Vec<Held<O>>,
    (kind, workers): (u64, Workers),
    call: &mut Input<'_>,
) -> Result<Reply, Halt> {
    match kind {
        3 => claim(store, claims, name(call), stretch(call)),
        5 => install(rt, alloc, store, claims, (name(call), workers)),
        6 => abandon(store, claims, name(call)),
        7 => compact(rt, alloc, store, stretch(call), workers),
        8 => Ok(Reply::Picked(store.pick())),
        9 => Ok(Reply::Reported(report(rt, alloc, store.version())?)),
        13 => Ok(Reply::Kept(store.keep()?)),
        14 => Ok(release(store, call.number())),
        _ => Err(Halt::Refused),
    }
}

/// Writes the state of a store: its version, the claimed slots, and its claims.
fn look<O: Operator>(store: &Owned<O>, claims: &[Held<O>], out: &mut Out) {
    versions::write_version(out, store.version());
    for slot in 0..MOST_SLOTS {
        out.flag(store.busy(slot));
    }
    for held in claims {
        out.number(u64::from(held.name));
        out.place(held.claim.number());
        out.flag(held.made.is_some());
    }
}

/// Reads the terms of a compaction: 0 for the store's snapshots; or 1, keeps, and a flag that is set for the oldest runs. Compacts.
fn make_one<O: Operator + Sync>(
    rt: &(impl Threads + Sync),
    alloc: Global,
    store: &Owned<O>,
    held: &mut Held<O>,
    workers: Workers,
    call: &mut Input<'_>,
) -> Result<(), Halt> {
    if !call.flag() {
        return make(rt, alloc, store, held, workers);
    }
    let keeps = call.numbers(alloc)?;
    make_under(rt, alloc, store, held, (&keeps, call.flag()))
}

/// Reads a name, and makes a call of the claim with that name: compacts its runs (4), writes its number (16), or compares it with a claim
/// of another store (17).
fn play_claim<O: Operator + Sync>(
    rt: &(impl Threads + Clock + Sync),
    alloc: Global,
    store: &Owned<O>,
    claims: &mut Vec<Held<O>>,
    (kind, workers): (u64, Workers),
    call: &mut Input<'_>,
    out: &mut Out,
) {
    match held_under(claims, name(call)) {
        Ok(held) => match kind {
            4 => out.end(make_one(rt, alloc, store, held, workers, call)),
            16 => out.place(held.claim.number()),
            _ => apart(rt, alloc, store, &held.claim, call, out),
        },
        Err(halt) => out.stop(halt),
    }
}

/// Writes a flag that is set if the run in a slot is claimed.
fn busy<O: Operator>(store: &Owned<O>, slot: usize, out: &mut Out) {
    if slot < MOST_SLOTS {
        out.flag(store.busy(slot));
    } else {
        out.refuse();
    }
}

/// Writes the number of compactions.
fn write_settled(out: &mut Out, settled: Result<u64, Halt>) {
    match settled {
        Ok(count) => out.number(count),
        Err(halt) => out.stop(halt),
    }
}

/// Makes a call and writes the reply.
fn play_reply<O: Operator + Sync>(
    rt: &(impl Threads + Sync),
    alloc: Global,
    store: &mut Owned<O>,
    claims: &mut Vec<Held<O>>,
    terms: (u64, Workers),
    call: &mut Input<'_>,
    out: &mut Out,
) {
    let reply = reply(rt, alloc, store, claims, terms, call);
    say(alloc, out, &reply);
}

/// Makes a call that changes nothing.
fn see<O: Operator + Sync>(
    rt: &(impl Threads + Clock + Sync),
    alloc: Global,
    store: &Owned<O>,
    kind: u64,
    call: &mut Input<'_>,
    out: &mut Out,
) {
    match kind {
        2 => versions::show(alloc, store.version(), call, out),
        10 => ask::<O>(rt, alloc, store.version(), call, out),
        11 => answer::<O>(alloc, store.version(), call, out),
        15 => busy(store, call.place(), out),
        18 => versions::place(alloc, store.version(), call, out),
        19 => versions::refuse(alloc, store.version(), call, out),
        _ => merge::<O>(rt, alloc, store.version(), call, out),
    }
}

/// Makes a call.
pub(crate) fn step<O: Operator + Sync>(
    rt: &(impl Threads + Clock + Sync),
    alloc: Global,
    store: &mut Owned<O>,
    claims: &mut Vec<Held<O>>,
    (kind, workers): (u64, Workers),
    call: &mut Input<'_>,
    out: &mut Out,
) {
    match kind {
        1 => look(store, claims, out),
        2 | 10 | 11 | 15 | 18 | 19 | 22 => see(rt, alloc, store, kind, call, out),
        4 | 16 | 17 => play_claim(rt, alloc, store, claims, (kind, workers), call, out),
        12 => feed(rt, alloc, store, workers, call, out),
        21 => lists::play(rt, alloc, store, call, out),
        24 => write_settled(out, settle(rt, alloc, store, shop::workers(call))),
        _ => play_reply(rt, alloc, store, claims, (kind, workers), call, out),
    }
}
