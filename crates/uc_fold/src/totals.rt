//! [`Totals`]: how much some runs hold; and [`Sums`], which adds them.
ghost use Rattle.std.specs.Prelude.{◌≡◌, Ok};
ghost use Rattle.uc_fold.specs.Adding.{IsHeld, nothing, added, adding_lawful};

use crate::joins::Joins;
use std::alloc::{AllocError, Global};

/// The sums over some runs.
#[derive(Clone, Copy, Debug, PartialEq, Eq)]
pub struct Totals {
    /// Points: writes of a single key.
    pub points: u64,
    /// Fragments: stretches of keys that range deletions cover.
    pub fragments: u64,
    /// Bytes.
    pub size: u64,
}

/// Adds totals. Sums saturate at 2^64 - 1, and never fail.
pub enum Sums {}

impl Joins for Sums {
    type Part = Totals;

    ghost fits = { IsHeld };

    ghost unit = { nothing };

    ghost join = { added };

    ghost lawful = { adding_lawful };

    /// Zero of each.
    fn unit() -> Totals {
        Totals {
            points: 0,
            fragments: 0,
            size: 0,
        }
    }

    /// The sums of both. It doesn't allocate, so it never fails.
    fn join(_: Global, older: Totals, newer: Totals) -> Result<Totals, AllocError>
        ensures { result ≡ Ok (added older newer) }
    {
        Ok(Totals {
            points: older.points.saturating_add(newer.points),
            fragments: older.fragments.saturating_add(newer.fragments),
            size: older.size.saturating_add(newer.size),
        })
    }
}
