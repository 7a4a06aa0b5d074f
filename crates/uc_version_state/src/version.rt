//! [`Version`]: the contents of a store at one point in time.
ghost use Rattle.std.specs.Prelude.{◌≡◌};
ghost use Rattle.uc_version_state.specs.Versions.{IsVersion};

use crate::placed::Placed;
use std::marker::Model;

/// The contents of a store at one point in time (RocksDB wiki, "Universal Compaction", "Snapshot"): sorted runs, the newest first;
/// the keeps, at which reads are made; the last sequence number; the number of the next run; and the size in bytes at which a
/// memtable is flushed.
pub struct Version {
    pub(crate) runs: Vec<Placed>,
    pub(crate) keeps: Vec<u64>,
    pub(crate) last: u64,
    pub(crate) next_id: u64,
    limit: u64,
}

impl Model for Version {
    ghost use Rattle.uc_version_state.specs.Versions.{Stored};
    ghost use Rattle.uc_version_state.specs.HeldVersions.{stored, HoldsVersion};

    ghost Value = { Stored };

    ghost view = { stored };

    ghost invariant = { HoldsVersion };
}

// A destructor of its own: where a value is dropped, the proof of a caller has one call, and not one for each field.
impl Drop for Version {
    fn drop(self) {
        let Version {
            runs: _,
            keeps: _,
            last: _,
            next_id: _,
            limit: _,
        } = self;
    }
}

impl Version {
    /// A version of these runs, the newest first, and keeps, which rise. A memtable is flushed from `limit` bytes on.
    pub fn new(runs: Vec<Placed>, keeps: Vec<u64>, last: u64, next_id: u64, limit: u64) -> Version
        requires { IsVersion
            (record { runs = runs.items; keeps = keeps.items; last = last; next_id = next_id; limit = limit }) }
        ensures { result ≡
            record { runs = runs.items; keeps = keeps.items; last = last; next_id = next_id; limit = limit } }
    {
        Version {
            runs,
            keeps,
            last,
            next_id,
            limit,
        }
    }

    /// Its runs, the newest first.
    pub fn runs(&self) -> &[Placed]
        ensures { result.now ≡ self.now.runs }
    {
        &self.runs
    }

    /// The sequences of reads, which rise.
    pub fn keeps(&self) -> &[u64]
        ensures { result.now ≡ self.now.keeps }
    {
        &self.keeps
    }

    /// The last sequence; 0 if nothing was written.
    pub fn last(&self) -> u64
        ensures { result ≡ self.now.last }
    {
        self.last
    }

    /// The number that the next run gets.
    pub fn next_id(&self) -> u64
        ensures { result ≡ self.now.next_id }
    {
        self.next_id
    }

    /// From how many bytes on a memtable is flushed: 1 or more. No event changes it.
    pub fn limit(&self) -> u64
        ensures { result ≡ self.now.limit }
    {
        self.limit
    }

    /// The invariant of every version: its runs are runs and come newest first, no two have one slot or one id, and its
    /// keeps rise. Proof step: does nothing when it runs.
    pub fn recall(&self)
        ensures { IsVersion self.now }
    {
        let _ = &self.last;
    }
}
