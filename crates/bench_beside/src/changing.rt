//! Steps of actors that change a store: compactors, installers and feeders.
ghost use Rattle.std.specs.Prelude.{◌≡◌};

use crate::actor::{Place, Reads};
use crate::bench::{Bench, CHANGING, REFUSED, STOPPED};
use crate::told::Told;
use std::marker::{Send, Sync};
use std::sync::Wait;
use std::sync::atomic::Ordering;
use std::thread::{Threads, yield_now};
use std::time::Clock;
use uc_batch::Writes;
use uc_oper::Counter;
use uc_share::{Compactor, Held, Name, Stretch, Turn};

/// Number of runs at which a feed waits. RocksDB's flush waits at as many by default (`level0_slowdown_writes_trigger`).
const CROWDED: usize = 19;

/// The two newest runs.
const NEWEST: Stretch = Stretch { first: 0, count: 2 };

impl<N, W, R> Bench<'_, N, W, R>
where
    N: Name + Send,
    W: Wait + Drop,
    R: Threads + Wait + Clock + Sync,
{
    /// Takes a compactor's turn. The compactor ends when nothing is picked, but not before the feeders.
    pub(crate) fn compact(
        &self,
        compactor: &mut Compactor<Counter, N>,
        told: &mut Told,
    ) -> Option<bool> {
        let is_last = self.plan.feeders == 0 || self.is(STOPPED);
        match self.store.turn(self.rt, self.alloc, compactor).ok()? {
            Turn::Idle if is_last => return self.stop(),
            Turn::Idle | Turn::Late(_) => yield_now(),
            Turn::Installed => told.count = told.count.saturating_add(1),
        }
        Some(true)
    }

    /// Returns the number of runs that the store shows.
    fn runs(&self, reader: &mut Reads<N>) -> Option<usize> {
        let pin = self.store.pin(reader).ok()?;
        Some(pin.version().runs().len())
    }

    /// Compacts a claim and installs it. Times both.
    fn install_held(
        &self,
        reader: &mut Reads<N>,
        place: &mut Place<N>,
        held: Held<Counter, N>,
        told: &mut Told,
    ) -> Option<()>
        requires { held.seat.table ≡ N.table }
    {
        let start = self.now();
        let Ok(made) = held.compact(self.rt, self.alloc) else {
            return None;
        };
        let middle = self.now();
        match self.store.install(self.rt, self.alloc, held, made, reader) {
            Ok(seat) => place.put(seat),
            Err(_) => return None,
        }
        told.times.push(self.since(middle)).ok()?;
        told.compactions.push(middle.saturating_sub(start)).ok()
    }

    /// Compacts and installs the two newest runs.
    fn install_newest(
        &self,
        reader: &mut Reads<N>,
        place: &mut Place<N>,
        told: &mut Told,
    ) -> Option<()> {
        let pin = self.store.pin(reader).ok()?;
        let Some(seat) = place.take() else {
            return None;
        };
        match self.store.claim(seat, pin, reader, NEWEST) {
            Ok(held) => self.install_held(reader, place, held, told),
            Err(_) => None,
        }
    }

    /// Compacts and installs the two newest runs, once all actors have begun. The installer ends when one run is left.
    pub(crate) fn install(
        &self,
        reader: &mut Reads<N>,
        place: &mut Place<N>,
        told: &mut Told,
    ) -> Option<bool> {
        if !self.are_ready() {
            return Some(true);
        }
        if self.runs(reader)? < NEWEST.count {
            return self.stop();
        }
        self.phase.store(CHANGING, Ordering::Release);
        let start = self.now();
        self.install_newest(reader, place, told)?;
        told.part = told.part.saturating_add(self.since(start));
        told.count = told.count.saturating_add(1);
        Some(true)
    }

    /// Waits until there are fewer than `CROWDED` runs, or a call was refused. Returns true if it had to wait.
    fn await_room(&self, reader: &mut Reads<N>) -> Option<bool> {
        let mut waited = false;
        for _ in self.rt.forever() {
            if self.runs(reader)? < CROWDED || self.is(REFUSED) {
                return Some(waited);
            }
            waited = true;
            yield_now();
        }
        unreachable!()
    }

    /// Feeds a batch once there are few enough runs. Times the wait and the feed.
    fn feed_batch(&self, reader: &mut Reads<N>, batch: &Writes, told: &mut Told) -> Option<()> {
        let start = self.now();
        let waited = self.await_room(reader)?;
        self.store.feed(self.rt, self.alloc, batch, reader).ok()?;
        told.part = told.part.saturating_add(self.since(start));
        told.count = told.count.saturating_add(u64::from(waited));
        Some(())
    }

    /// Keeps the last sequence number, and releases the one kept before. Times the keep.
    fn keep(&self, reader: &mut Reads<N>, kept: &mut u64, told: &mut Told) -> Option<()> {
        let start = self.now();
        let seq = self.store.keep(self.rt, self.alloc, reader).ok()?;
        told.times.push(self.since(start)).ok()?;
        if seq != *kept {
            self.store.release(self.rt, self.alloc, *kept, reader).ok()?;
        }
        *kept = seq;
        Some(())
    }

    /// Feeds the next batch, and then keeps the last sequence number.
    pub(crate) fn feed(
        &self,
        reader: &mut Reads<N>,
        kept: &mut u64,
        told: &mut Told,
    ) -> Option<bool> {
        let Some(batch) = self.batches.get(told.times.len()) else {
            return self.stop();
        };
        self.feed_batch(reader, batch, told)?;
        self.keep(reader, kept, told)?;
        Some(true)
    }
}
