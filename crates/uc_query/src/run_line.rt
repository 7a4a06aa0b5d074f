//! [`RunLine`]: what a run holds, and the fields that a report prints of it and of all runs.
ghost use Rattle.std.specs.Prelude.{◌≡◌, map};
ghost use Rattle.uc_query.specs.Reports as reports;

use crate::figure::{Field, Figure};
use uc_fold::Totals;
use uc_version_state::Placed;

/// The figures of a run, and where it stands.
#[derive(Clone, Copy, Debug, PartialEq, Eq)]
pub struct RunLine {
    /// Its number, which no other run of the store ever has.
    pub id: u64,
    /// Its slot.
    pub slot: usize,
    /// The number of points: writes of a single key.
    pub points: u64,
    /// The number of fragments: stretches of keys that range deletions cover.
    pub fragments: u64,
    /// Its size in bytes, with 8 for each sequence, held at 2^64 - 1.
    pub size: u64,
    /// The least sequence of its range.
    pub low: u64,
    /// The greatest.
    pub high: u64,
}

impl RunLine {
    /// A run in numbers.
    pub(crate) fn of(placed: &Placed) -> RunLine
        ensures { result ≡ reports.line_of placed.now }
    {
        let run = placed.run();
        RunLine {
            id: placed.id(),
            slot: placed.slot(),
            points: run.points(),
            fragments: run.fragments().len() as u64,
            size: run.size(),
            low: run.low_seq(),
            high: run.high_seq(),
        }
    }

    /// Its share of the totals.
    pub(crate) fn totals(&self) -> Totals
        ensures { result ≡ reports.totals_of self.now }
    {
        Totals {
            points: self.points,
            fragments: self.fragments,
            size: self.size,
        }
    }

    /// Its fields in a report, in the order of print. Its number stands before them.
    pub fn fields(&self) -> [Field; 5]
        ensures { map (λ f. (f.0.now, f.1)) result ≡ reports.run_fields self.now }
    {
        [
            ("slot", Figure::Number(self.slot as u64)),
            ("points", Figure::Number(self.points)),
            ("fragments", Figure::Number(self.fragments)),
            ("size", Figure::Number(self.size)),
            ("seqs", Figure::Range(self.low, self.high)),
        ]
    }
}

/// The fields of all runs together, in the order of print. How many runs there are stands before them.
pub fn total_fields(total: &Totals) -> [Field; 3]
    ensures { map (λ f. (f.0.now, f.1)) result ≡ reports.total_fields total.now }
{
    [
        ("points", Figure::Number(total.points)),
        ("fragments", Figure::Number(total.fragments)),
        ("size", Figure::Number(total.size)),
    ]
}
