//! Two feeders, four compactors, a keeper and two threads that query, over many random stores, concurrently. Whatever is fed and compacted
//! meanwhile, queries at kept sequence numbers are answered as the plain writes answer them, no install is refused, and nothing is lost.
//! Some stores are only compacted and queried.
ghost use Rattle.std.specs.Prelude.{◌≡◌, All, false};
ghost use Rattle.uc_share.specs.Stores.{IsNamed};

use crate::actors::{Actor, Job, push_compactor};
use crate::dice::Dice;
use crate::done::Done;
use crate::drawn::writes_behind;
use crate::gate::Holding;
use crate::plan::{Plan, large, small};
use crate::scene::{Scene, Start};
use std::alloc::Global;
use std::marker::{Brand, Send, Sync};
use std::mem;
use std::sync::{RwLock, Wait};
use std::thread::Threads;
use uc_batch::Writes;
use uc_oper::{Append, Counter, Maximum, Operator, Tail};
use uc_share::{Name, Opening, Reader, Seat, Store, Version};

/// Number of readers of a store. At least four of them answer batches.
const READERS: usize = 13;

/// Number of queries at the end.
const LAST_QUERIES: u64 = 40;

/// Adds an actor with the last reader.
fn push_reader<O: Operator, N: Name>(
    jobs: &mut Vec<Job<O, N>>,
    readers: &mut Vec<Reader<O, N>>,
    place: u64,
    seed: u64,
) -> Option<()> {
    let reader = readers.pop()?;
    let actor = match place {
        0 | 1 => Actor::Feeder(reader),
        2 => Actor::Keeper(reader),
        _ => Actor::Pins(reader),
    };
    jobs.push((actor, Dice::new(seed ^ place))).ok()
}

/// Adds four compactors.
fn push_compactors<O: Operator, N: Name, W: Wait + Drop>(
    jobs: &mut Vec<Job<O, N>>,
    store: &Store<O, N, W>,
    plan: Plan,
    readers: &mut Vec<Reader<O, N>>,
    seats: &mut Vec<Seat>,
    dice: &mut Dice,
) -> Option<()>
    requires table { store.now.table ≡ N.table }
    requires seats { All (λ seat. seat.table ≡ N.table) seats.old.items }
{
    push_compactor(
        jobs,
        store,
        readers,
        seats,
        plan.draws,
        Dice::new(dice.roll(u64::MAX)),
    )?;
    push_compactor(jobs, store, readers, seats, false, Dice::new(0))?;
    push_compactor(
        jobs,
        store,
        readers,
        seats,
        plan.draws,
        Dice::new(dice.roll(u64::MAX)),
    )?;
    push_compactor(jobs, store, readers, seats, false, Dice::new(0))
}

/// Adds the feeders and the keeper, if the plan has any, and the threads that query.
fn push_readers<O: Operator, N: Name>(
    jobs: &mut Vec<Job<O, N>>,
    readers: &mut Vec<Reader<O, N>>,
    plan: Plan,
    alloc: Global,
    seed: u64,
) -> Option<()> {
    let first = if plan.feeds > 0 { 0 } else { 3 };
    for place in first..4 {
        push_reader(jobs, readers, place, seed)?;
    }
    let batches = mem::replace(readers, Vec::new(alloc));
    jobs.push((Actor::Batches(batches), Dice::new(!seed))).ok()
}

impl<O, N, W, R> Scene<'_, O, N, W, R>
where
    O: Operator + Send + Sync,
    N: Name + Send + Sync,
    W: Wait + Drop + Send,
    R: Threads + Wait + Sync,
{
    /// Returns true if a version has all writes that were fed, and an id was used for each of their runs and for each install.
    fn leads_to(&self, version: &Version, done: Done) -> bool {
        let count = self.start.count.saturating_add(done.writes) as usize;
        let last = match self.writes.list().get(count.saturating_sub(1)) {
            Some(write) => version.last() == write.seq,
            None => false,
        };
        let ids = version.next_id().saturating_sub(self.start.first_id);
        last && ids == done.runs.saturating_add(done.installs)
    }

    /// Returns true if a pin shows all changes, with an event for each.
    fn shows(&self, reader: &mut Reader<O, N>, done: Done) -> Option<bool> {
        let pin = reader.pin().ok()?;
        Some(pin.front().len() == done.events && self.leads_to(pin.version(), done))
    }

    /// Keeps the last sequence number. Returns true if the store shows all changes and answers correctly there.
    fn shows_all(&self, reader: &mut Reader<O, N>, done: Done) -> Option<bool> {
        let mut done = done;
        let last = self.keep(reader, &mut done)?;
        let alike = self.ask_pin(reader, &mut Dice::new(last), last, LAST_QUERIES)?;
        Some(self.shows(reader, done)? && alike)
    }
}

/// Runs the actors of a store. Returns their counts if all is correct and nothing is lost.
fn soak_in<O, N, W, R>(
    rt: &R,
    alloc: Global,
    store: &Store<O, N, W>,
    readers: &mut Vec<Reader<O, N>>,
    seats: &mut Vec<Seat>,
    plan: Plan,
    start: Start,
    writes: &Writes,
    dice: &mut Dice,
) -> Option<Done>
where
    O: Operator + Send + Sync,
    N: Name + Send + Sync,
    W: Wait + Drop + Send,
    R: Threads + Wait + Sync,
    requires table { store.now.table ≡ N.table }
    requires keeps { N.keeps_stay ≡ false }
    requires seats { All (λ seat. seat.table ≡ N.table) seats.old.items }
{
    let mut jobs = Vec::new(alloc);
    push_compactors(&mut jobs, store, plan, readers, seats, dice)?;
    let mut late = readers.pop()?;
    push_readers(&mut jobs, readers, plan, alloc, dice.roll(u64::MAX))?;
    let scene = Scene {
        rt,
        alloc,
        store,
        plan,
        start,
        writes,
        kept: RwLock::new(start.last),
        queries: &[],
        gate: Holding::open(),
    };
    let done = scene.act_at_once(jobs)?;
    scene.shows_all(&mut late, done)?.then_some(done)
}

/// Names a store, and runs its actors.
fn soak_named<O, N, W, R>(
    rt: &R,
    handle: W,
    alloc: Global,
    opening: Opening<O>,
    plan: Plan,
    start: Start,
    writes: &Writes,
    dice: &mut Dice,
) -> Option<Done>
where
    O: Operator + Send + Sync,
    N: Name + Send + Sync,
    W: Wait + Drop + Send,
    R: Threads + Wait + Sync,
    requires name { IsNamed opening N.book N.table N.base }
    requires keeps { N.keeps_stay ≡ false }
{
    let (store, mut readers, mut seats) = opening.named::<N, W>(alloc, handle).ok()?;
    soak_in(
        rt,
        alloc,
        &store,
        &mut readers,
        &mut seats,
        plan,
        start,
        writes,
        dice,
    )
}

/// Returns a random store, and the numbers with which it opened.
fn drawn_store<O: Operator>(
    alloc: Global,
    plan: Plan,
    dice: &mut Dice,
) -> Option<(Opening<O>, Start)> {
    let more = dice.roll(plan.most.saturating_sub(plan.fewest).saturating_add(1));
    let count = plan.fewest.saturating_add(more);
    let opened = writes_behind(alloc, 0, count)?;
    let first_keep = dice.roll(opened.last());
    let opening = Opening::open(alloc, &opened, &[first_keep], plan.options(), READERS, 4).ok()?;
    let start = Start {
        count,
        first_id: opening.version().next_id(),
        first_keep,
        last: opened.last(),
    };
    Some((opening, start))
}

/// Runs the actors of a random store.
fn soak<O: Operator + Send + Sync, R: Threads + Wait + Sync>(
    rt: &R,
    alloc: Global,
    plan: Plan,
    writes: &Writes,
    dice: &mut Dice,
) -> Option<Done> {
    let (opening, start) = drawn_store::<O>(alloc, plan, dice)?;
    soak_named::<O, Brand, &R, R>(rt, rt, alloc, opening, plan, start, writes, dice)
}

/// Returns true if all stores of a plan are correct, and enough was fed and installed to make that meaningful.
fn is_right<O: Operator + Send + Sync, R: Threads + Wait + Sync>(
    rt: &R,
    alloc: Global,
    plan: Plan,
) -> Option<bool> {
    let writes = writes_behind(alloc, 0, plan.writes())?;
    let mut dice = Dice::new(25);
    let mut done = Done::nothing();
    for _ in 0..plan.stores {
        done.add(soak::<O, R>(rt, alloc, plan, &writes, &mut dice)?);
    }
    let fed = plan.feeds == 0 || done.runs >= plan.stores;
    Some(done.installs >= plan.installs && fed)
}

/// Returns true if that holds for all plans.
fn are_right<O: Operator + Send + Sync, R: Threads + Wait + Sync>(
    rt: &R,
    alloc: Global,
    plans: &[Plan],
) -> bool {
    for plan in plans {
        if is_right::<O, R>(rt, alloc, *plan) != Some(true) {
            return false;
        }
    }
    true
}

#[test]
fn texts_answer_while_all_goes_on(rt: HostRuntime) {
    assert!(rt; are_right::<Append<0x2C>, _>(&rt, rt.alloc(), small()));
}

#[test]
fn counters_answer_while_all_goes_on(rt: HostRuntime) {
    assert!(rt; are_right::<Counter, _>(&rt, rt.alloc(), small()));
}

#[test]
fn maxima_answer_while_all_goes_on(rt: HostRuntime) {
    assert!(rt; are_right::<Maximum, _>(&rt, rt.alloc(), small()));
}

#[test]
fn tails_answer_while_all_goes_on(rt: HostRuntime) {
    assert!(rt; are_right::<Tail<2>, _>(&rt, rt.alloc(), small()));
}

#[test]
fn large_stores_answer_while_all_goes_on(rt: HostRuntime) {
    assert!(rt; are_right::<Append<0x2C>, _>(&rt, rt.alloc(), large()));
}
