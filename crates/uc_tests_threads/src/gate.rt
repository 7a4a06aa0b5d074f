//! [`Holding`]: a gate that holds a worker until installs have happened.
use std::sync::atomic::{AtomicBool, AtomicU64, Ordering};
use std::thread::yield_now;
use uc_query_shared::Gate;

/// Number of times that a thread looks before it gives up.
const LOOKS: u32 = 100_000_000;

/// A gate that reports when a worker reaches one piece, and holds the worker at a piece until a number of compactors have installed. Both
/// pieces may be the same.
#[derive(Drop)]
pub struct Holding {
    told: usize,
    held: usize,
    awaited: u64,
    come: AtomicU64,
    installed: AtomicU64,
    late: AtomicBool,
}

impl Holding {
    /// Returns a gate that reports the piece `told`, and holds `held` until `awaited` compactors have installed.
    pub fn new(told: usize, held: usize, awaited: u64) -> Holding {
        Holding {
            told,
            held,
            awaited,
            come: AtomicU64::new(0),
            installed: AtomicU64::new(0),
            late: AtomicBool::new(false),
        }
    }

    /// Returns a gate that holds no worker.
    pub fn open() -> Holding {
        let gate = Holding::new(usize::MAX, usize::MAX, 0);
        gate.come.store(1, Ordering::SeqCst);
        gate
    }

    /// Waits until `number` is at least `awaited`. Gives up after `LOOKS` tries, and records that.
    fn wait(&self, number: &AtomicU64, awaited: u64) {
        for _ in 0..LOOKS {
            if number.load(Ordering::SeqCst) >= awaited {
                return;
            }
            yield_now();
        }
        self.late.store(true, Ordering::SeqCst);
    }

    /// Waits until a worker has reached the reported piece.
    pub fn wait_for_piece(&self) {
        self.wait(&self.come, 1);
    }

    /// Counts a compactor's install.
    pub fn install(&self) {
        self.installed.fetch_add(1, Ordering::SeqCst);
    }

    /// Returns true if a worker has reached the reported piece, and no thread gave up.
    pub fn is_passed(&self) -> bool {
        self.come.load(Ordering::SeqCst) > 0 && !self.late.load(Ordering::SeqCst)
    }
}

impl Gate for Holding {
    fn at(&self, piece: usize) {
        if piece == self.told {
            self.come.store(1, Ordering::SeqCst);
        }
        if piece == self.held {
            self.wait(&self.installed, self.awaited);
        }
    }
}
