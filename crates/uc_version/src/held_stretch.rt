//! [`HeldStretch`]: the stretch of a claim that is held.
ghost use Rattle.std.specs.Prelude.{◌≡◌};

use uc_claims::MOST_SLOTS;
use uc_version_state::Stretch;

/// The most claims that are held at once: each has two slots or more.
pub const MOST_CLAIMS: usize = MOST_SLOTS / 2;

/// The stretch of a claim that is held: its present place, and the ids of its newest and its oldest run.
#[derive(Clone, Copy, Debug, PartialEq, Eq)]
pub struct HeldStretch {
    /// The number of newer runs before it.
    pub first: usize,
    /// The number of its runs.
    pub count: usize,
    /// The id of its newest run.
    pub newest: u64,
    /// The id of its oldest run.
    pub oldest: u64,
}

impl HeldStretch {
    /// Its place.
    pub fn place(&self) -> Stretch
        ensures { result ≡ record { first = self.now.first; count = self.now.count } }
    {
        Stretch {
            first: self.first,
            count: self.count,
        }
    }
}
