//! The actors of a plan at work in a store.
ghost use Rattle.std.specs.Prelude.{◌≡◌, false};
ghost use Rattle.uc_share.specs.Stores.{IsNamed};

use crate::actor::{Actor, Reads, actors_of, batch_of};
use crate::bench::{Bench, CHANGING, WAITING};
use crate::drawn::{batches_of, queries_of};
use crate::out::Out;
use crate::plan::Plan;
use crate::reading::totals;
use crate::told::{Told, write_all};
use std::alloc::Global;
use std::marker::{Brand, Send, Sync};
use std::sync::Wait;
use std::sync::atomic::AtomicU64;
use std::thread::Threads;
use std::time::{Clock, Instant};
use uc_batch::Writes;
use uc_oper::Counter;
use uc_query_read::Query;
use uc_share::{Name, Opening, Options, Store};

/// Returns the measurement of a store with a number of actors.
fn bench_of<'x, N: Name, W: Wait + Drop, R: Clock>(
    rt: &'x R,
    alloc: Global,
    store: &'x Store<Counter, N, W>,
    plan: Plan,
    given: (&'x [Query], &'x [Writes]),
    actors: usize,
) -> Option<Bench<'x, N, W, R>>
    requires table { store.now.table ≡ N.table }
    requires keeps { N.keeps_stay ≡ false }
{
    let (queries, batches) = given;
    let phase = if plan.installers > 0 {
        WAITING
    } else {
        CHANGING
    };
    Some(Bench {
        rt,
        alloc,
        store,
        plan,
        queries,
        batches,
        begun: Instant::now(rt).ok()?,
        phase: AtomicU64::new(phase),
        actors: actors as u64,
        ready: AtomicU64::new(0),
    })
}

impl<N, W, R> Bench<'_, N, W, R>
where
    N: Name + Send + Sync,
    W: Wait + Drop + Send,
    R: Threads + Wait + Clock + Sync,
{
    /// Runs all actors concurrently. Then answers a batch once more, if the plan has readers for it.
    fn play(&self, actors: Vec<Actor<N>>, readers: &mut Vec<Reads<N>>) -> Option<Vec<Told>> {
        let mut told = self.act_at_once(actors)?;
        if self.plan.last > 0 {
            told.push(self.act(batch_of(readers, self.plan.last)?))
                .ok()?;
        }
        Some(told)
    }
}

/// Names a store, runs its actors, and writes their records.
fn played_named<N, W, R>(
    rt: &R,
    handle: W,
    alloc: Global,
    opening: Opening<Counter>,
    plan: Plan,
    given: (&[Query], &[Writes]),
    out: &mut Out,
) -> Option<()>
where
    N: Name + Send + Sync,
    W: Wait + Drop + Send,
    R: Threads + Wait + Clock + Sync,
    requires name { IsNamed opening N.book N.table N.base }
    requires keeps { N.keeps_stay ≡ false }
{
    let (store, mut readers, mut seats) = opening.named::<N, W>(alloc, handle).ok()?;
    let actors = actors_of(alloc, &store, plan, &mut readers, &mut seats)?;
    let bench = bench_of(rt, alloc, &store, plan, given, actors.len())?;
    write_all(out, plan, &bench.play(actors, &mut readers)?)
}

/// Returns a store of these writes.
fn opening_of(alloc: Global, writes: &Writes, plan: Plan) -> Option<Opening<Counter>> {
    let options = Options {
        memtable: plan.memtable,
        ..Options::usual()
    };
    Opening::open(alloc, writes, &[], options, plan.readers(), plan.changers()).ok()
}

/// Writes the numbers of runs and points with which a store opens, and the records of its actors.
fn played_given<R: Threads + Wait + Clock + Sync>(
    rt: &R,
    alloc: Global,
    writes: &Writes,
    plan: Plan,
    given: (&[Query], &[Writes]),
    out: &mut Out,
) -> Option<()> {
    let opening = opening_of(alloc, writes, plan)?;
    let (runs, points) = totals(opening.version());
    out.number(runs);
    out.number(points);
    played_named::<Brand, &R, R>(rt, rt, alloc, opening, plan, given, out)
}

/// Measures a store that begins with these writes, or to which they are fed. The queries are at the last sequence number.
pub(crate) fn played<R: Threads + Wait + Clock + Sync>(
    rt: &R,
    alloc: Global,
    writes: &Writes,
    plan: Plan,
    out: &mut Out,
) -> Option<()> {
    let batches = batches_of(alloc, writes, plan)?;
    match batches.last() {
        None => {
            let queries = queries_of(alloc, plan, writes.last())?;
            played_given(rt, alloc, writes, plan, (&queries, &[]), out)
        }
        Some(last) => {
            let queries = queries_of(alloc, plan, last.last())?;
            let nothing = Writes::of(Vec::new(alloc))?;
            played_given(rt, alloc, &nothing, plan, (&queries, &batches), out)
        }
    }
}
