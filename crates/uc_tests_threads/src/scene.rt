//! [`Scene`]: a store that threads share, and the state of these threads.
ghost use Rattle.std.specs.Prelude.{◌≡◌};

use crate::dice::Dice;
use crate::done::Done;
use crate::drawn::{drawn_queries, writes_behind};
use crate::gate::Holding;
use crate::place::Place;
use crate::plain::Plain;
use crate::plan::Plan;
use std::alloc::Global;
use std::marker::{Model, Send, Sync};
use std::mem;
use std::sync::{RwLock, Wait};
use std::thread::{Threads, yield_now};
use uc_batch::Writes;
use uc_oper::Operator;
use uc_query_read::Query;
use uc_query_shared::answer_all;
use uc_share::{Compactor, FeedError, Held, Name, Pin, Reader, Seat, Store, Stretch, Turn};

/// Numbers with which a store opened.
#[derive(Clone, Copy)]
pub struct Start {
    /// Number of writes, and id of the next run.
    pub count: u64,
    pub first_id: u64,
    /// Sequence numbers that are kept from the opening on: a random one, and the last.
    pub first_keep: u64,
    pub last: u64,
}

/// The claim that a compactor makes.
#[derive(Clone, Copy)]
pub struct Claimed {
    /// Stretch to claim, and true if a pick is claimed instead, should there be one.
    pub stretch: Stretch,
    pub picks: bool,
    /// True if the claim is returned.
    pub gives_back: bool,
}

/// Returns the last sequence number that the store shows.
pub fn last_shown<O: Operator, N: Name>(reader: &mut Reader<O, N>) -> Option<u64> {
    let pin = reader.pin().ok()?;
    Some(pin.version().last())
}

/// A store, and the state that its threads share. A contract sees whether its snapshots stay, which is false.
pub struct Scene<'a, O: Operator, N: Name, W: Wait + Drop, R> {
    pub rt: &'a R,
    pub alloc: Global,
    pub store: &'a Store<O, N, W>,
    pub plan: Plan,
    pub start: Start,
    /// All writes that can be fed. They begin with those of the opening.
    pub writes: &'a Writes,
    /// The last kept sequence number. A querying thread holds the read lock while it queries there, so no thread releases it meanwhile.
    pub kept: RwLock<u64>,
    /// Queries at the gate.
    pub queries: &'a [Query],
    pub gate: Holding,
}

impl<'a, O: Operator, N: Name, W: Wait + Drop, R> Model for Scene<'a, O, N, W, R> {
    ghost use Rattle.std.specs.Prelude.{◌≡◌, Bool, false};

    ghost Value = { Bool };

    ghost view = { λ s. N.keeps_stay };

    ghost invariant = { λ s. (s.store.now.table ≡ N.table) × (N.keeps_stay ≡ false) };
}

impl<O: Operator, N: Name, W: Wait + Drop, R> Drop for Scene<'_, O, N, W, R> {
    fn drop(self) {
        let Scene {
            rt: _,
            alloc: _,
            store: _,
            plan: _,
            start: _,
            writes: _,
            kept: _,
            queries: _,
            gate: _,
        } = self;
    }
}

impl<O, N, W, R> Scene<'_, O, N, W, R>
where
    O: Operator + Sync,
    N: Name + Send,
    W: Wait + Drop,
    R: Threads + Wait + Sync,
{
    /// Compacts a claim, and installs it.
    fn install(
        &self,
        reader: &mut Reader<O, N>,
        place: &mut Place<N>,
        held: Held<O, N>,
        done: &mut Done,
    ) -> Option<()>
        requires { held.seat.table ≡ N.table }
    {
        let Ok(made) = held.compact(self.rt, self.alloc) else {
            return None;
        };
        match self.store.install(self.rt, self.alloc, held, made, reader) {
            Ok(seat) => place.put(seat),
            Err(_) => return None,
        }
        done.install();
        Some(())
    }

    /// Claims a stretch of a pin, and installs its compaction or returns the claim. Does nothing if the claim is refused.
    fn compact_stretch(
        &self,
        reader: &mut Reader<O, N>,
        place: &mut Place<N>,
        seat: Seat,
        pin: Pin<O, N>,
        claimed: Claimed,
        done: &mut Done,
    ) -> Option<()>
        requires { seat.table ≡ N.table }
    {
        match self.store.claim(seat, pin, reader, claimed.stretch) {
            Err((seat, _pin, _error)) => place.put(seat),
            Ok(held) if claimed.gives_back => place.put(self.store.abandon(held).0),
            Ok(held) => return self.install(reader, place, held, done),
        }
        Some(())
    }

    /// Claims a stretch of a pin, or its pick.
    pub fn compact_pin(
        &self,
        reader: &mut Reader<O, N>,
        place: &mut Place<N>,
        pin: Pin<O, N>,
        claimed: Claimed,
        done: &mut Done,
    ) -> Option<()> {
        let Some(mut seat) = place.take() else {
            return None;
        };
        let stretch = match self.store.pick(&pin, &mut seat) {
            Some(picked) if claimed.picks => picked,
            _ => claimed.stretch,
        };
        let claimed = Claimed { stretch, ..claimed };
        self.compact_stretch(reader, place, seat, pin, claimed, done)
    }

    /// Takes a compactor's turn, which must not be refused.
    pub fn take_turn(&self, compactor: &mut Compactor<O, N>, done: &mut Done) -> Option<()> {
        match self.store.turn(self.rt, self.alloc, compactor).ok()? {
            Turn::Installed => done.install(),
            Turn::Idle | Turn::Late(_) => yield_now(),
        }
        Some(())
    }

    /// Feeds the `count` writes after the last one that is shown. Does nothing if another feeder was faster, or if there are too many runs.
    pub fn feed(&self, reader: &mut Reader<O, N>, count: u64, done: &mut Done) -> Option<()> {
        let last = last_shown(reader)?;
        let writes = writes_behind(self.alloc, last, count)?;
        match self.store.feed(self.rt, self.alloc, &writes, reader) {
            Ok(runs) => done.feed(count, runs),
            Err(FeedError::Back(now)) if now > last => yield_now(),
            Err(FeedError::TooManyRuns) => yield_now(),
            Err(_) => return None,
        }
        Some(())
    }

    /// Keeps the last sequence number, and returns it.
    pub fn keep(&self, reader: &mut Reader<O, N>, done: &mut Done) -> Option<u64> {
        let seq = self.store.keep(self.rt, self.alloc, reader).ok()?;
        done.event();
        Some(seq)
    }

    /// Releases a sequence number, unless the store was opened with it or it is the one kept now.
    pub fn release(
        &self,
        reader: &mut Reader<O, N>,
        before: u64,
        kept: u64,
        done: &mut Done,
    ) -> Option<()> {
        if before != self.start.last && before != kept {
            self.store
                .release(self.rt, self.alloc, before, reader)
                .ok()?;
            done.event();
        }
        Some(())
    }

    /// Returns the plain writes, with this sequence number kept besides those of the opening.
    fn plain(&self, kept: u64) -> Plain<'_> {
        Plain {
            writes: self.writes,
            keeps: [self.start.first_keep, self.start.last, kept],
        }
    }

    /// Returns random queries, for a store that keeps this sequence number besides those of the opening.
    pub fn drawn(&self, dice: &mut Dice, kept: u64, count: u64) -> Option<Vec<Query>> {
        let keeps = [self.start.first_keep, self.start.last, kept];
        drawn_queries(self.alloc, dice, keeps, count)
    }

    /// Returns true if a new pin answers the queries as the plain writes do, with this sequence number kept.
    pub fn answers_pinned(
        &self,
        reader: &mut Reader<O, N>,
        queries: &[Query],
        kept: u64,
    ) -> Option<bool> {
        let pin = reader.pin().ok()?;
        let plain = self.plain(kept);
        Some(plain.are_given::<O>(self.alloc, pin.version(), queries))
    }

    /// Returns true if workers answer the queries as the plain writes do, with this sequence number kept.
    pub fn answers_all(
        &self,
        readers: &mut Vec<Reader<O, N>>,
        queries: &[Query],
        kept: u64,
        workers: usize,
        piece: usize,
    ) -> bool {
        let own = mem::replace(readers, Vec::new(self.alloc));
        let (back, answers) = answer_all(
            self.rt, self.alloc, own, queries, workers, piece, &self.gate,
        );
        *readers = back;
        self.plain(kept)
            .gives_all::<O>(self.alloc, queries, &answers)
    }
}
