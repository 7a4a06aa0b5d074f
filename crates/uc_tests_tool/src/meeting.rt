//! [`Meeting`]: the points at which compactors wait for one another and for output.
use std::io;
use std::io::{ErrorKind, Write};
use std::sync::atomic::{AtomicBool, AtomicU64, Ordering};
use std::thread::yield_now;
use uc_tool_ask::TurnGate;

/// Number of times that a thread looks before it gives up.
const LOOKS: u32 = 100_000_000;

/// A count that threads increment and wait for.
#[derive(Drop)]
struct Count {
    number: AtomicU64,
    late: AtomicBool,
}

impl Count {
    /// Returns a count of zero.
    fn new() -> Count {
        Count {
            number: AtomicU64::new(0),
            late: AtomicBool::new(false),
        }
    }

    /// Increments the count, and returns it.
    fn raise(&self) -> u64 {
        self.number.fetch_add(1, Ordering::SeqCst).saturating_add(1)
    }

    /// Waits until the count is at least `number`. Gives up after `LOOKS` tries, and records that.
    fn wait_for(&self, number: u64) {
        for _ in 0..LOOKS {
            if self.number.load(Ordering::SeqCst) >= number {
                return;
            }
            yield_now();
        }
        self.late.store(true, Ordering::SeqCst);
    }

    /// Returns true if no thread gave up.
    fn is_in_time(&self) -> bool {
        !self.late.load(Ordering::SeqCst)
    }
}

/// The event that compactors wait for.
#[derive(Clone, Copy)]
pub(crate) enum Waits {
    /// No event.
    Never,
    /// Two compactors pick before either claims, so that both pick the same runs. The one that claims them waits until the other picks
    /// again.
    Claims,
    /// The compactor that picks first waits until the other has installed and picks again. Then the other waits until the first picks
    /// again.
    Moves,
    /// Nothing is printed before runs are claimed, and a compactor that has claimed runs waits until something is printed.
    Prints,
}

/// Counts of picks, claims and prints, for which compactors and the printing thread wait.
#[derive(Drop)]
pub(crate) struct Meeting {
    waits: Waits,
    picks: Count,
    claims: Count,
    prints: Count,
}

impl Meeting {
    /// Returns a meeting with counts of zero.
    pub(crate) fn new(waits: Waits) -> Meeting {
        Meeting {
            waits,
            picks: Count::new(),
            claims: Count::new(),
            prints: Count::new(),
        }
    }

    /// Counts a print, after it waited for a claim if it must.
    fn print(&self) {
        if let Waits::Prints = self.waits {
            self.claims.wait_for(1);
        }
        let _ = self.prints.raise();
    }

    /// Returns true if no thread gave up.
    pub(crate) fn is_in_time(&self) -> bool {
        self.picks.is_in_time() && self.claims.is_in_time() && self.prints.is_in_time()
    }
}

impl TurnGate for Meeting {
    fn picked(&self) {
        match (self.waits, self.picks.raise()) {
            (Waits::Claims, _) => self.picks.wait_for(2),
            (Waits::Moves, 1) => self.picks.wait_for(3),
            (Waits::Moves, 3) => self.picks.wait_for(4),
            _ => {}
        }
    }

    fn claimed(&self) {
        let _ = self.claims.raise();
        match self.waits {
            Waits::Claims => self.picks.wait_for(3),
            Waits::Prints => self.prints.wait_for(1),
            Waits::Never | Waits::Moves => {}
        }
    }
}

/// Output that a meeting counts.
#[derive(Drop)]
pub(crate) struct Page<'a> {
    pub(crate) text: Vec<u8>,
    pub(crate) meeting: &'a Meeting,
}

impl Write for Page<'_> {
    fn write(&mut self, buf: &[u8]) -> io::Result<usize> {
        self.meeting.print();
        if self.text.extend_from_slice(buf).is_err() {
            return Err(io::Error::from(ErrorKind::OutOfMemory));
        }
        Ok(buf.len())
    }

    fn flush(&mut self) -> io::Result<()> {
        Ok(())
    }
}
