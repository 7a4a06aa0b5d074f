//! [`Bench`]: the measurement of a store in which actors work concurrently.
use crate::actor::Actor;
use crate::plan::Plan;
use crate::told::Told;
use std::alloc::Global;
use std::marker::{Model, Send, Sync};
use std::sync::Wait;
use std::sync::atomic::{AtomicU64, Ordering};
use std::thread::{Threads, map_vec};
use std::time::{Clock, Instant};
use uc_batch::Writes;
use uc_oper::Counter;
use uc_query_read::Query;
use uc_share::{Name, Store};

/// Phases of a measurement: before the store changes, while it changes, after its changes, and after a refused call.
pub(crate) const WAITING: u64 = 0;

pub(crate) const CHANGING: u64 = 1;

pub(crate) const STOPPED: u64 = 2;

pub(crate) const REFUSED: u64 = 3;

/// A store, its measurement, and the atomic words by which its actors communicate.
pub(crate) struct Bench<'a, N: Name, W: Wait + Drop, R> {
    pub(crate) rt: &'a R,
    pub(crate) alloc: Global,
    pub(crate) store: &'a Store<Counter, N, W>,
    pub(crate) plan: Plan,
    pub(crate) queries: &'a [Query],
    pub(crate) batches: &'a [Writes],
    pub(crate) begun: Instant,
    pub(crate) phase: AtomicU64,
    /// Number of actors, and number of those that have begun.
    pub(crate) actors: u64,
    pub(crate) ready: AtomicU64,
}

impl<'a, N: Name, W: Wait + Drop, R> Model for Bench<'a, N, W, R> {
    ghost use Rattle.std.specs.Prelude.{◌≡◌, Bool, false};

    ghost Value = { Bool };

    ghost view = { λ b. N.keeps_stay };

    ghost invariant = { λ b. (b.store.now.table ≡ N.table) × (N.keeps_stay ≡ false) };
}

impl<N: Name, W: Wait + Drop, R> Drop for Bench<'_, N, W, R> {
    fn drop(self) {
        let Bench {
            rt: _,
            alloc: _,
            store: _,
            plan: _,
            queries: _,
            batches: _,
            begun: _,
            phase: _,
            actors: _,
            ready: _,
        } = self;
    }
}

impl<N, W, R> Bench<'_, N, W, R>
where
    N: Name + Send,
    W: Wait + Drop,
    R: Threads + Wait + Clock + Sync,
{
    /// Returns the nanoseconds since the beginning of the measurement.
    pub(crate) fn now(&self) -> u64 {
        match Instant::now(self.rt) {
            Ok(now) => u64::try_from(now.duration_since(self.begun).as_nanos()).unwrap_or(u64::MAX),
            Err(_) => 0,
        }
    }

    /// Returns the nanoseconds since `start`.
    pub(crate) fn since(&self, start: u64) -> u64 {
        self.now().saturating_sub(start)
    }

    /// Returns true during this phase.
    pub(crate) fn is(&self, phase: u64) -> bool {
        self.phase.load(Ordering::Acquire) == phase
    }

    /// Returns true if all actors have begun.
    pub(crate) fn are_ready(&self) -> bool {
        self.ready.load(Ordering::Acquire) >= self.actors
    }

    /// Ends the changes of the store. Returns false, which ends the actor.
    pub(crate) fn stop(&self) -> Option<bool> {
        self.phase.store(STOPPED, Ordering::Release);
        Some(false)
    }

    /// Takes an actor's next step. Returns true if there are more, and `None` if a call was refused.
    fn step(&self, actor: &mut Actor<N>, told: &mut Told) -> Option<bool> {
        match actor {
            Actor::Compactor(compactor) => self.compact(compactor, told),
            Actor::Installer(reader, place) => self.install(reader, place, told),
            Actor::Batch(readers) => self.answer_batch(readers, told),
            Actor::Feeder(reader, kept) => self.feed(reader, kept, told),
            Actor::Drawer(reader, numbers) => self.ask(reader, numbers, told),
            Actor::Pinner(reader) => self.pin(reader, told),
        }
    }

    /// Takes an actor's next step, unless a call was refused before. Returns true if there are more.
    fn goes_on(&self, actor: &mut Actor<N>, told: &mut Told) -> bool {
        if self.is(REFUSED) {
            return false;
        }
        match self.step(actor, told) {
            Some(goes_on) => goes_on,
            None => {
                told.is_fine = false;
                self.phase.store(REFUSED, Ordering::Release);
                false
            }
        }
    }

    /// Runs an actor, and returns its record.
    pub(crate) fn act(&self, mut actor: Actor<N>) -> Told {
        let mut told = Told::new(self.alloc);
        self.ready.fetch_add(1, Ordering::Release);
        let start = self.now();
        for _ in self.rt.forever() {
            if !self.goes_on(&mut actor, &mut told) {
                break;
            }
        }
        told.whole = self.since(start);
        told
    }
}

impl<N, W, R> Bench<'_, N, W, R>
where
    N: Name + Send + Sync,
    W: Wait + Drop + Send,
    R: Threads + Wait + Clock + Sync,
{
    /// Runs all actors concurrently. Returns their records.
    pub(crate) fn act_at_once(&self, actors: Vec<Actor<N>>) -> Option<Vec<Told>> {
        let work = |actor: Actor<N>| -> Told { self.act(actor) };
        map_vec(self.rt, actors, &work).ok()
    }
}
