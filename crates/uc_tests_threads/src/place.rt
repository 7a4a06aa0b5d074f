//! [`Place`]: a seat of the store `N`.
ghost use Rattle.std.specs.Prelude.{◌≡◌, IfSome};
ghost use Rattle.std.proofs.Props.{props};

use std::marker::PhantomData;
use uc_share::{Name, Seat};

/// A seat of the store `N`, which may be in use by a claim.
pub struct Place<N: Name> {
    seat: Option<Seat>,
    of: PhantomData<N>,
    ghost free: { IfSome seat (λ seat. seat.table ≡ N.table) } by { Prim.hlevel props },
}

impl<N: Name> Drop for Place<N> {
    fn drop(self) {
        let Place { seat: _, of: _ } = self;
    }
}

impl<N: Name> Place<N> {
    /// Returns a free seat.
    pub fn of(seat: Seat) -> Place<N>
        requires { seat.table ≡ N.table }
    {
        Place {
            seat: Some(seat),
            of: PhantomData,
        }
    }

    /// Takes the seat, if it is free.
    pub fn take(&mut self) -> Option<Seat>
        ensures { IfSome result (λ seat. seat.table ≡ N.table) }
    {
        self.seat.take()
    }

    /// Puts the seat back.
    pub fn put(&mut self, seat: Seat)
        requires { seat.table ≡ N.table }
    {
        self.seat = Some(seat);
    }
}
