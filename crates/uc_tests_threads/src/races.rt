//! Compactors that race, and workers that wait at a gate while a compaction is installed.
ghost use Rattle.std.specs.Prelude.{◌≡◌, All, false};
ghost use Rattle.uc_share.specs.Stores.{IsNamed};

use crate::actors::{Actor, Job, push_racer};
use crate::dice::Dice;
use crate::done::Done;
use crate::gate::Holding;
use crate::given::{queries_of, writes_of};
use crate::plan::{small, small_runs};
use crate::scene::{Scene, Start};
use std::alloc::Global;
use std::marker::{Brand, Send, Sync};
use std::sync::{RwLock, Wait};
use std::thread::Threads;
use uc_batch::Writes;
use uc_oper::Append;
use uc_query_read::Query;
use uc_share::{Name, Opening, Reader, Seat, Store, Version};

/// The operator: joins operands with a comma.
type Commas = Append<0x2C>;

/// A trial of compactors that install concurrently, and of workers that answer.
#[derive(Clone, Copy)]
struct Trial {
    /// Number of compactors: the first has the two newest runs, and the second the next two.
    racers: usize,
    /// Number of workers, which see all installs, and number of their queries.
    workers: usize,
    asked: usize,
    /// Piece that compactors wait for, and piece that is held until they have installed.
    told: usize,
    held: usize,
}

/// Two compactors install concurrently. There are no workers.
static RACE: Trial = Trial {
    racers: 2,
    workers: 0,
    asked: 0,
    told: 0,
    held: 0,
};

/// Two workers answer: the first piece is held until a worker has reached the second, and then until both compactors have installed. Then
/// one worker answers: its last piece is held until a compaction is installed.
static TRIALS: [Trial; 8] = [
    Trial {
        racers: 2,
        workers: 2,
        asked: 7,
        told: 1,
        held: 0,
    },
    Trial {
        racers: 1,
        workers: 1,
        asked: 1,
        told: 0,
        held: 0,
    },
    Trial {
        racers: 1,
        workers: 1,
        asked: 2,
        told: 1,
        held: 1,
    },
    Trial {
        racers: 1,
        workers: 1,
        asked: 3,
        told: 2,
        held: 2,
    },
    Trial {
        racers: 1,
        workers: 1,
        asked: 4,
        told: 3,
        held: 3,
    },
    Trial {
        racers: 1,
        workers: 1,
        asked: 5,
        told: 4,
        held: 4,
    },
    Trial {
        racers: 1,
        workers: 1,
        asked: 6,
        told: 5,
        held: 5,
    },
    Trial {
        racers: 1,
        workers: 1,
        asked: 7,
        told: 6,
        held: 6,
    },
];

/// Returns the trial without workers.
fn race() -> Trial {
    RACE
}

/// Returns the trials with workers.
fn trials() -> &'static [Trial] {
    &TRIALS
}

impl Trial {
    /// Returns the gate of the trial.
    fn gate(self) -> Holding {
        if self.workers == 0 {
            Holding::open()
        } else {
            Holding::new(self.told, self.held, self.racers as u64)
        }
    }

    /// Returns true if all compactors have installed, and the workers have seen that.
    fn is_done(self, done: Done) -> bool {
        let racers = self.racers as u64;
        done.installs == racers && (self.workers == 0 || done.seen == racers)
    }
}

/// Returns true if the version has two runs with the ids of the two installs: sequence numbers 3 and 4 in the newer, 1 and 2 in the older.
fn has_both(version: &Version) -> bool {
    let [newer, older] = version.runs() else {
        return false;
    };
    let ids = newer.id().min(older.id()) == 5 && newer.id().max(older.id()) == 6;
    let newest = newer.run().low_seq() == 3 && newer.run().high_seq() == 4;
    let oldest = older.run().low_seq() == 1 && older.run().high_seq() == 2;
    ids && newest && oldest
}

/// Returns true if two compactors have installed the four runs, and nothing else is shown.
fn shows_both<N: Name>(reader: &mut Reader<Commas, N>) -> Option<bool> {
    let pin = reader.pin().ok()?;
    Some(has_both(pin.version()))
}

/// Adds the compactors and the workers of a trial.
fn push_all<N: Name>(
    jobs: &mut Vec<Job<Commas, N>>,
    readers: &mut Vec<Reader<Commas, N>>,
    seats: &mut Vec<Seat>,
    trial: Trial,
) -> Option<()>
    requires { All (λ seat. seat.table ≡ N.table) seats.old.items }
{
    push_racer(jobs, readers, seats, 0)?;
    if trial.racers > 1 {
        push_racer(jobs, readers, seats, 2)?;
    }
    if trial.workers > 0 {
        let rest = readers.len().checked_sub(trial.workers)?;
        let workers = Actor::Gated(readers.split_off(rest).ok()?);
        jobs.push((workers, Dice::new(0))).ok()?;
    }
    Some(())
}

/// Runs a trial in a store. Returns true if it succeeds.
fn comes_right_in<N, W, R>(
    rt: &R,
    alloc: Global,
    store: &Store<Commas, N, W>,
    readers: &mut Vec<Reader<Commas, N>>,
    seats: &mut Vec<Seat>,
    trial: Trial,
    writes: &Writes,
    queries: &[Query],
) -> Option<bool>
where
    N: Name + Send + Sync,
    W: Wait + Drop + Send,
    R: Threads + Wait + Sync,
    requires table { store.now.table ≡ N.table }
    requires keeps { N.keeps_stay ≡ false }
    requires seats { All (λ seat. seat.table ≡ N.table) seats.old.items }
{
    let plan = small().first().copied()?;
    let mut late = readers.pop()?;
    let mut jobs = Vec::new(alloc);
    push_all(&mut jobs, readers, seats, trial)?;
    let scene = Scene {
        rt,
        alloc,
        store,
        plan,
        start: Start {
            count: 0,
            first_id: 0,
            first_keep: 2,
            last: writes.last(),
        },
        writes,
        kept: RwLock::new(0),
        queries,
        gate: trial.gate(),
    };
    let done = scene.act_at_once(jobs)?;
    let is_right = trial.is_done(done) && scene.gate.is_passed();
    Some(is_right && (trial.workers > 0 || shows_both(&mut late)?))
}

/// Names a store, and runs a trial there. Returns true if it succeeds.
fn comes_right_named<N, W, R>(
    rt: &R,
    handle: W,
    alloc: Global,
    opening: Opening<Commas>,
    trial: Trial,
    writes: &Writes,
    queries: &[Query],
) -> Option<bool>
where
    N: Name + Send + Sync,
    W: Wait + Drop + Send,
    R: Threads + Wait + Sync,
    requires name { IsNamed opening N.book N.table N.base }
    requires keeps { N.keeps_stay ≡ false }
{
    let (store, mut readers, mut seats) = opening.named::<N, W>(alloc, handle).ok()?;
    comes_right_in(
        rt,
        alloc,
        &store,
        &mut readers,
        &mut seats,
        trial,
        writes,
        queries,
    )
}

/// Runs a trial in a store of four writes, or of five if there are workers. Returns true if it succeeds.
fn comes_right<R: Threads + Wait + Sync>(rt: &R, alloc: Global, trial: Trial) -> Option<bool> {
    let writes = writes_of(alloc, trial.workers > 0)?;
    let queries = queries_of(alloc, trial.asked)?;
    let opening = Opening::open(alloc, &writes, &[2], small_runs(), 5, 2).ok()?;
    comes_right_named::<Brand, &R, R>(rt, rt, alloc, opening, trial, &writes, &queries)
}

#[test]
fn two_stretches_are_installed_at_once(rt: HostRuntime) {
    for _ in 0..100 {
        assert!(rt; comes_right(&rt, rt.alloc(), race()) == Some(true));
    }
}

#[test]
fn pieces_wait_and_are_pinned_behind_their_gate(rt: HostRuntime) {
    for trial in trials() {
        assert!(rt; comes_right(&rt, rt.alloc(), *trial) == Some(true));
    }
}
