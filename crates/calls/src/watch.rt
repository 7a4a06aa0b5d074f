//! [`Watch`]: the time of clocked calls.
use std::time::{Clock, Instant};

/// The time of a clocked call, summed over its repetitions.
///
/// A call is timed from its beginning to its end. A call with long arguments or a long answer restarts after its arguments are read, and
/// stops before its answer is written, so that only the library's work is timed.
#[derive(Clone, Copy, Drop)]
pub(crate) struct Watch {
    nanoseconds: u64,
    start: Option<Instant>,
}

/// Returns the nanoseconds since `start`, or 0 if there is no clock.
fn nanoseconds_since(clock: &impl Clock, start: Instant) -> u64 {
    match Instant::now(clock) {
        Ok(now) => u64::try_from(now.duration_since(start).as_nanos()).unwrap_or(u64::MAX),
        Err(_) => 0,
    }
}

impl Watch {
    /// Returns a watch at zero.
    pub(crate) fn new() -> Watch {
        Watch {
            nanoseconds: 0,
            start: None,
        }
    }

    /// Begins a clocked call.
    pub(crate) fn start(&mut self, clock: &impl Clock) {
        self.start = Instant::now(clock).ok();
    }

    /// Restarts the call, if it is clocked.
    pub(crate) fn restart(&mut self, clock: &impl Clock) {
        if self.start.is_some() {
            self.start(clock);
        }
    }

    /// Ends the call. Does nothing if it isn't clocked, or has ended.
    pub(crate) fn stop(&mut self, clock: &impl Clock) {
        if let Some(start) = self.start {
            let time = nanoseconds_since(clock, start);
            self.nanoseconds = self.nanoseconds.saturating_add(time);
            self.start = None;
        }
    }

    /// Returns the nanoseconds of all calls so far, and resets the watch.
    pub(crate) fn take(&mut self) -> u64 {
        let nanoseconds = self.nanoseconds;
        self.nanoseconds = 0;
        nanoseconds
    }
}
