//! [`Actor`]: a thread that feeds, compacts, keeps or queries in a store.
//!
//! Feeders race for the next sequence number. It determines the write, so the result is the same for any winner.
ghost use Rattle.std.specs.Prelude.{◌≡◌, All};

use crate::dice::Dice;
use crate::done::Done;
use crate::place::Place;
use crate::plan::MOST_FED;
use crate::scene::{Claimed, Scene, last_shown};
use std::marker::{Send, Sync};
use std::sync::{RwLock, Wait};
use std::thread::{Threads, map_vec, yield_now};
use uc_oper::Operator;
use uc_share::{Compactor, Name, Pin, Reader, Seat, Store, Stretch};

/// Number of times that the last sequence number is kept.
const KEEPS: u64 = 25;

/// Number of times that each querying actor queries.
const ASKS: u64 = 30;

/// Number of times that the keeper tries to feed the first write, since other feeders may be faster.
const TRIES: u64 = 1_000_000;

/// A thread's role in a store.
#[derive(Drop)]
pub enum Actor<O: Operator, N: Name> {
    /// Feeds random writes.
    Feeder(Reader<O, N>),
    /// Takes a compactor's turns.
    Turns(Compactor<O, N>),
    /// Claims the pick or a random stretch. Installs its compaction, or returns the claim.
    Draws(Reader<O, N>, Place<N>),
    /// Keeps the last sequence number, and releases the one that it kept before.
    Keeper(Reader<O, N>),
    /// Queries a pin.
    Pins(Reader<O, N>),
    /// Queries in batches.
    Batches(Vec<Reader<O, N>>),
    /// Waits until a worker reaches a piece at the gate. Then compacts and installs two runs of an older pin.
    Racer(Reader<O, N>, Place<N>, Option<Pin<O, N>>, usize),
    /// Queries by workers, one query in each piece, through the gate.
    Gated(Vec<Reader<O, N>>),
}

/// An actor, and its source of random numbers.
pub type Job<O, N> = (Actor<O, N>, Dice);

/// Adds a compactor with the next seat, if there is one. With `draws` it claims random stretches.
pub fn push_compactor<O: Operator, N: Name, W: Wait + Drop>(
    jobs: &mut Vec<Job<O, N>>,
    store: &Store<O, N, W>,
    readers: &mut Vec<Reader<O, N>>,
    seats: &mut Vec<Seat>,
    draws: bool,
    dice: Dice,
) -> Option<()>
    requires table { store.now.table ≡ N.table }
    requires seats { All (λ seat. seat.table ≡ N.table) seats.old.items }
    ensures { All (λ seat. seat.table ≡ N.table) seats.new.items }
{
    let reader = readers.pop()?;
    let Some(seat) = seats.pop() else {
        return Some(());
    };
    let actor = if draws {
        Actor::Draws(reader, Place::of(seat))
    } else {
        Actor::Turns(store.compactor(reader, seat))
    };
    jobs.push((actor, dice)).ok()
}

/// Adds an actor that installs two runs, from an index of the shown version on, if there is a seat.
pub fn push_racer<O: Operator, N: Name>(
    jobs: &mut Vec<Job<O, N>>,
    readers: &mut Vec<Reader<O, N>>,
    seats: &mut Vec<Seat>,
    first: usize,
) -> Option<()>
    requires { All (λ seat. seat.table ≡ N.table) seats.old.items }
    ensures { All (λ seat. seat.table ≡ N.table) seats.new.items }
{
    let mut reader = readers.pop()?;
    let pin = reader.pin().ok();
    let Some(seat) = seats.pop() else {
        return Some(());
    };
    let actor = Actor::Racer(reader, Place::of(seat), pin, first);
    jobs.push((actor, Dice::new(0))).ok()
}

/// Stores a sequence number under the lock `kept`. Returns the previous one.
fn replaced(rt: &impl Wait, kept: &RwLock<u64>, seq: u64) -> u64 {
    let mut kept = kept.write(rt);
    let before = *kept;
    *kept = seq;
    before
}

/// Returns the largest number of events that one of the readers has seen.
fn most_seen<O: Operator, N: Name>(readers: &[Reader<O, N>]) -> u64 {
    let mut most = 0_u64;
    for reader in readers {
        most = most.max(reader.front().len());
    }
    most
}

impl<O, N, W, R> Scene<'_, O, N, W, R>
where
    O: Operator + Sync,
    N: Name + Send,
    W: Wait + Drop,
    R: Threads + Wait + Sync,
{
    /// Claims the pick or a random stretch. Installs its compaction, which must not be refused, or returns the claim.
    fn claim_drawn(
        &self,
        reader: &mut Reader<O, N>,
        place: &mut Place<N>,
        dice: &mut Dice,
        done: &mut Done,
    ) -> Option<()> {
        let (first, more) = (dice.roll(16) as usize, dice.roll(6) as usize);
        let count = 2 + more;
        let claimed = Claimed {
            stretch: Stretch { first, count },
            picks: dice.roll(4) > 0,
            gives_back: dice.roll(4) == 0,
        };
        let pin = reader.pin().ok()?;
        self.compact_pin(reader, place, pin, claimed, done)
    }

    /// Feeds a write, unless there are already writes after those of the opening.
    fn feed_first(&self, reader: &mut Reader<O, N>, done: &mut Done) -> Option<()> {
        for _ in 0..TRIES {
            if last_shown(reader)? > self.start.last {
                return Some(());
            }
            self.feed(reader, 1, done)?;
            yield_now();
        }
        None
    }

    /// Keeps the last sequence number, publishes it in `kept`, and releases the previous one, at which no other thread queries any more.
    fn keep_and_release(&self, reader: &mut Reader<O, N>, done: &mut Done) -> Option<()> {
        self.feed_first(reader, done)?;
        let seq = self.keep(reader, done)?;
        let before = replaced(self.rt, &self.kept, seq);
        self.release(reader, before, seq, done)?;
        yield_now();
        Some(())
    }

    /// Queries a new pin. Returns true if the answers equal those of the plain writes.
    pub fn ask_pin(
        &self,
        reader: &mut Reader<O, N>,
        dice: &mut Dice,
        kept: u64,
        count: u64,
    ) -> Option<bool> {
        let queries = self.drawn(dice, kept, count)?;
        self.answers_pinned(reader, queries.as_slice(), kept)
    }

    /// Queries in a random batch, by a random number of workers. Returns true if the answers equal those of the plain writes.
    fn ask_batch(
        &self,
        readers: &mut Vec<Reader<O, N>>,
        dice: &mut Dice,
        kept: u64,
    ) -> Option<bool> {
        let most = if dice.roll(4) == 0 { 200 } else { 40 };
        let count = 1 + dice.roll(most);
        let queries = self.drawn(dice, kept, count)?;
        let workers = (dice.roll(readers.len() as u64) as usize).saturating_add(1);
        let piece = 1 + dice.roll(16) as usize;
        Some(self.answers_all(readers, queries.as_slice(), kept, workers, piece))
    }

    /// Queries a new pin at the kept sequence number. Acquires `kept`, so that the sequence number isn't released meanwhile.
    fn ask_kept_pin(&self, reader: &mut Reader<O, N>, dice: &mut Dice) -> Option<bool> {
        let count = 1 + dice.roll(12);
        let kept = self.kept.read(self.rt);
        self.ask_pin(reader, dice, *kept, count)
    }

    /// Queries in a batch at the kept sequence number. Acquires `kept`, so that the sequence number isn't released meanwhile.
    fn ask_kept_batch(&self, readers: &mut Vec<Reader<O, N>>, dice: &mut Dice) -> Option<bool> {
        let kept = self.kept.read(self.rt);
        self.ask_batch(readers, dice, *kept)
    }

    /// Waits until a worker has reached a piece at the gate. Then compacts and installs two runs of an older pin.
    fn race(
        &self,
        reader: &mut Reader<O, N>,
        place: &mut Place<N>,
        pin: &mut Option<Pin<O, N>>,
        first: usize,
        done: &mut Done,
    ) -> Option<()> {
        self.gate.wait_for_piece();
        let claimed = Claimed {
            stretch: Stretch { first, count: 2 },
            picks: false,
            gives_back: false,
        };
        let Some(pin) = pin.take() else {
            return None;
        };
        let came = self.compact_pin(reader, place, pin, claimed, done);
        self.gate.install();
        came
    }

    /// Queries with a worker for each reader, one query in each piece, through the gate. Records the number of events that the workers
    /// have seen.
    fn ask_at_gate(&self, readers: &mut Vec<Reader<O, N>>, done: &mut Done) -> Option<bool> {
        let workers = readers.len();
        let are_right = self.answers_all(readers, self.queries, self.start.last, workers, 1);
        done.seen = most_seen(readers.as_slice());
        Some(are_right)
    }

    /// Makes an actor's step. Returns `None` if a call was refused, and false if an answer differs from that of the plain writes.
    fn step(&self, actor: &mut Actor<O, N>, dice: &mut Dice, done: &mut Done) -> Option<bool> {
        match actor {
            Actor::Feeder(reader) => self.feed(reader, 1 + dice.roll(MOST_FED), done)?,
            Actor::Turns(compactor) => self.take_turn(compactor, done)?,
            Actor::Draws(reader, place) => self.claim_drawn(reader, place, dice, done)?,
            Actor::Keeper(reader) => self.keep_and_release(reader, done)?,
            Actor::Pins(reader) => return self.ask_kept_pin(reader, dice),
            Actor::Batches(readers) => return self.ask_kept_batch(readers, dice),
            Actor::Racer(reader, place, pin, first) => self.race(reader, place, pin, *first, done)?,
            Actor::Gated(readers) => return self.ask_at_gate(readers, done),
        }
        Some(true)
    }

    /// Returns the number of an actor's steps.
    fn steps_of(&self, actor: &Actor<O, N>) -> u64 {
        match actor {
            Actor::Feeder(_) => self.plan.feeds,
            Actor::Turns(_) | Actor::Draws(_, _) => self.plan.turns,
            Actor::Keeper(_) => KEEPS,
            Actor::Pins(_) | Actor::Batches(_) => ASKS,
            Actor::Racer(_, _, _, _) | Actor::Gated(_) => 1,
        }
    }

    /// Runs an actor until its last step, or until one fails.
    fn act(&self, mut actor: Actor<O, N>, mut dice: Dice) -> Done {
        let mut done = Done::nothing();
        for _ in 0..self.steps_of(&actor) {
            if self.step(&mut actor, &mut dice, &mut done) != Some(true) {
                done.is_right = false;
                break;
            }
        }
        done
    }
}

/// Returns the sum of the counts.
fn all_done(done: &[Done]) -> Done {
    let mut all = Done::nothing();
    for one in done {
        all.add(*one);
    }
    all
}

impl<O, N, W, R> Scene<'_, O, N, W, R>
where
    O: Operator + Send + Sync,
    N: Name + Send + Sync,
    W: Wait + Drop + Send,
    R: Threads + Wait + Sync,
{
    /// Runs all actors concurrently. Returns the sum of their counts, or `None` if one failed.
    pub fn act_at_once(&self, jobs: Vec<Job<O, N>>) -> Option<Done> {
        let work = |job: Job<O, N>| -> Done {
            let (actor, dice) = job;
            self.act(actor, dice)
        };
        let done = map_vec(self.rt, jobs, &work).ok()?;
        let all = all_done(done.as_slice());
        all.is_right.then_some(all)
    }
}
