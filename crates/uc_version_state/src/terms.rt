//! [`Terms`]: what a compaction requires of a version.
ghost use Rattle.std.specs.Prelude.{◌≡◌};
ghost use Rattle.std.specs.List.Sorted.{IsStrictlySortedBy};
ghost use Rattle.std.specs.Ordering.{nat_cmp};

use std::marker::Model;

/// The terms that a compaction requires of a version: the keeps that it was made for, whether it was made for the oldest run of
/// all, and the greatest sequence of its inputs.
#[derive(Drop)]
pub struct Terms<'a> {
    pub(crate) keeps: &'a [u64],
    pub(crate) oldest: bool,
    pub(crate) high: u64,
}

impl<'a> Model for Terms<'a> {
    ghost use Rattle.std.specs.List.Sorted.{IsStrictlySortedBy};
    ghost use Rattle.std.specs.Ordering.{nat_cmp};
    ghost use Rattle.uc_version_state.specs.Installs as installs;

    ghost Value = { installs.Terms };

    ghost view = { λ t. record { keeps = t.keeps.now; oldest = t.oldest; high = t.high } };

    ghost invariant = { λ t. IsStrictlySortedBy nat_cmp t.keeps.now };
}

impl<'a> Terms<'a> {
    /// The terms of a compaction. Its keeps rise.
    pub fn new(keeps: &'a [u64], oldest: bool, high: u64) -> Terms<'a>
        requires { IsStrictlySortedBy nat_cmp keeps.now }
        ensures { result ≡ record { keeps = keeps.now; oldest = oldest; high = high } }
    {
        Terms {
            keeps,
            oldest,
            high,
        }
    }
}
