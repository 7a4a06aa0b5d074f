//! [`Done`]: counts of the changes to a store.

/// Counts of the changes to a store. `is_right` is true if no call was refused and each answer equals that of the plain writes.
#[derive(Clone, Copy)]
pub struct Done {
    pub is_right: bool,
    /// Number of writes that were fed, and number of runs that they became.
    pub writes: u64,
    pub runs: u64,
    /// Number of events: feeds, installs, keeps and releases.
    pub events: u64,
    /// Number of installed compactions.
    pub installs: u64,
    /// Largest number of events that a reader had seen after the answers at a gate.
    pub seen: u64,
}

impl Done {
    /// Returns counts of zero.
    pub fn nothing() -> Done {
        Done {
            is_right: true,
            writes: 0,
            runs: 0,
            events: 0,
            installs: 0,
            seen: 0,
        }
    }

    /// Counts a keep or a release.
    pub fn event(&mut self) {
        self.events = self.events.saturating_add(1);
    }

    /// Counts a feed.
    pub fn feed(&mut self, writes: u64, runs: u64) {
        self.writes = self.writes.saturating_add(writes);
        self.runs = self.runs.saturating_add(runs);
        self.event();
    }

    /// Counts an install.
    pub fn install(&mut self) {
        self.installs = self.installs.saturating_add(1);
        self.event();
    }

    /// Adds the counts of another actor.
    pub fn add(&mut self, other: Done) {
        self.is_right = self.is_right && other.is_right;
        self.writes = self.writes.saturating_add(other.writes);
        self.runs = self.runs.saturating_add(other.runs);
        self.events = self.events.saturating_add(other.events);
        self.installs = self.installs.saturating_add(other.installs);
        self.seen = self.seen.max(other.seen);
    }
}
