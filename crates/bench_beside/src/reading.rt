//! Steps of actors that read a store: they answer a batch, look up a key, or pin.
use crate::actor::Reads;
use crate::bench::{Bench, CHANGING, STOPPED};
use crate::drawn::{Numbers, key_of};
use crate::told::Told;
use std::marker::{Send, Sync};
use std::mem;
use std::sync::Wait;
use std::sync::atomic::Ordering;
use std::thread::{Threads, yield_now};
use std::time::Clock;
use uc_bytes::Bytes;
use uc_oper::Counter;
use uc_query_read::{Answer, Query, answer_one};
use uc_query_shared::{Free, answer_all};
use uc_share::{Name, Version};

/// Number of queries that a worker draws at a time.
const PIECE: usize = 16;

/// Returns the number of a version's runs, and the number of their points.
pub(crate) fn totals(version: &Version) -> (u64, u64) {
    let mut points = 0_u64;
    for placed in version.runs() {
        points = points.saturating_add(placed.run().points());
    }
    (version.runs().len() as u64, points)
}

/// Returns the newest sequence number that a version keeps, or 0 before the first feed.
fn newest_keep(version: &Version) -> u64 {
    version.keeps().last().copied().unwrap_or(0)
}

impl<N, W, R> Bench<'_, N, W, R>
where
    N: Name + Send,
    W: Wait + Drop,
    R: Threads + Wait + Clock + Sync,
{
    /// Answers the queries as one batch. Times it.
    pub(crate) fn answer_batch(
        &self,
        readers: &mut Vec<Reads<N>>,
        told: &mut Told,
    ) -> Option<bool> {
        let own = mem::replace(readers, Vec::new(self.alloc));
        let workers = own.len();
        let start = self.now();
        let (back, answers) = answer_all(
            self.rt,
            self.alloc,
            own,
            self.queries,
            workers,
            PIECE,
            &Free,
        );
        told.part = self.since(start);
        *readers = back;
        told.tell_all(&answers);
        self.count_all(readers.last_mut()?, told)
    }

    /// Records the numbers of runs and points that the store shows. Returns false, which ends the actor.
    fn count_all(&self, reader: &mut Reads<N>, told: &mut Told) -> Option<bool> {
        let pin = self.store.pin(reader).ok()?;
        told.totals = totals(pin.version());
        Some(false)
    }

    /// Returns the answer to a lookup at the newest kept sequence number of a new pin, which is then released. There is no answer before
    /// the first feed.
    fn answer(&self, reader: &mut Reads<N>, key: Bytes) -> Option<Option<Answer>> {
        let pin = self.store.pin(reader).ok()?;
        let version = pin.version();
        let at = newest_keep(version);
        if at == 0 {
            yield_now();
            return Some(None);
        }
        Some(Some(answer_one::<Counter>(self.alloc, version, &Query::Get { key, at }).ok()?))
    }

    /// Returns true if an actor has looked up `lookups` keys or, if there are feeders, when these have ended.
    fn has_asked(&self, told: &Told) -> bool {
        if self.plan.feeders > 0 {
            self.is(STOPPED)
        } else {
            told.count >= self.plan.lookups
        }
    }

    /// Looks up a random key. Times it, and records the time while the store changes.
    pub(crate) fn ask(
        &self,
        reader: &mut Reads<N>,
        numbers: &mut Numbers,
        told: &mut Told,
    ) -> Option<bool> {
        if self.has_asked(told) {
            return Some(false);
        }
        let key = key_of(self.alloc, numbers.below(self.plan.keys))?;
        let start = self.now();
        let answer = self.answer(reader, key)?;
        let time = self.since(start);
        told.tell_one(&answer, self.is(CHANGING).then_some(time))
    }

    /// Pins `rounds` times. Returns the number of successful pins.
    fn pin_often(&self, reader: &mut Reads<N>) -> u64 {
        let mut pins = 0_u64;
        for _ in 0..self.plan.rounds {
            if self.store.pin(reader).is_ok() {
                pins = pins.wrapping_add(1);
            }
        }
        pins
    }

    /// Returns the time of one pin, if it succeeds.
    fn time_of_pin(&self, reader: &mut Reads<N>) -> Option<u64> {
        let start = self.now();
        let pin = self.store.pin(reader);
        let time = self.since(start);
        pin.ok()?;
        Some(time)
    }

    /// Pins once and times it, or pins `rounds` times. Counts only pins while the store changes. The actor ends with the installer, or at
    /// once if there is none.
    pub(crate) fn pin(&self, reader: &mut Reads<N>, told: &mut Told) -> Option<bool> {
        let phase = self.phase.load(Ordering::Acquire);
        if phase == STOPPED {
            return Some(false);
        }
        if self.plan.is_timed {
            let time = self.time_of_pin(reader)?;
            if phase == CHANGING {
                told.times.push(time).ok()?;
            }
        } else {
            let pins = self.pin_often(reader);
            if phase == CHANGING {
                told.count = told.count.saturating_add(pins);
            }
        }
        Some(self.plan.installers > 0)
    }
}
