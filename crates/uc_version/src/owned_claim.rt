//! [`OwnedClaim`]: the right to compact a stretch.
ghost use Rattle.std.specs.Prelude.{◌≡◌};

use std::marker::Model;

/// The right to compact a stretch of an [`Owned`](crate::Owned) store: its number, and the ids of the newest and the
/// oldest run of the stretch. Give it back by [`abandon`](crate::Owned::abandon) or [`install`](crate::Owned::install):
/// if it is dropped, its runs stay claimed for good.
#[derive(Drop)]
pub struct OwnedClaim {
    pub(crate) number: usize,
    pub(crate) newest: u64,
    pub(crate) oldest: u64,
}

impl Model for OwnedClaim {
    ghost use Rattle.uc_version.specs.Claiming.{Claim};

    ghost Value = { Claim };

    ghost view = { λ c. record { number = c.number; newest = c.newest; oldest = c.oldest } };
}

impl OwnedClaim {
    /// Its number, from 0: the least that no other held claim had when it was made.
    pub fn number(&self) -> usize
        ensures { result ≡ self.now.number }
    {
        self.number
    }

    /// The claim again, for a job that gives it back and is kept.
    pub(crate) fn again(&self) -> OwnedClaim
        ensures { result ≡ self.now }
    {
        OwnedClaim {
            number: self.number,
            newest: self.newest,
            oldest: self.oldest,
        }
    }
}
