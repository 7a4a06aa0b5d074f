//! [`Place`]: a seat of a store that threads share, and its claim.
ghost use Rattle.std.specs.Prelude.{◌≡◌, All, IfOk, IfSome};
ghost use Rattle.std.proofs.Props.{props};

use crate::out::Halt;
use std::alloc::{AllocError, Global};
use uc_oper::Append;
use uc_share::{Held, Name, Seat};

/// The operator of a store that threads share: joins operands with a comma.
pub(crate) type Commas = Append<0x2C>;

/// A seat of the store `N`: free, with a claim, or lost because its claim was dropped.
pub(crate) struct Place<N: Name> {
    seat: Option<Seat>,
    held: Option<Held<Commas, N>>,
    ghost free: { IfSome seat (λ seat. seat.table ≡ N.table) } by { Prim.hlevel props },
    ghost claimed: { IfSome held (λ held. held.seat.table ≡ N.table) } by { Prim.hlevel props },
}

impl<N: Name> Drop for Place<N> {
    fn drop(self) {
        let Place { seat: _, held: _ } = self;
    }
}

impl<N: Name> Place<N> {
    /// Returns a free seat.
    fn of(seat: Seat) -> Place<N>
        requires { seat.table ≡ N.table }
    {
        Place {
            seat: Some(seat),
            held: None,
        }
    }

    /// Returns the seat if it is free.
    pub(crate) fn take_seat(&mut self) -> Result<Seat, Halt>
        ensures { IfOk result (λ seat. seat.table ≡ N.table) }
    {
        match self.seat.take() {
            Some(seat) => Ok(seat),
            None => Err(Halt::Refused),
        }
    }

    /// Puts the seat back.
    pub(crate) fn put_seat(&mut self, seat: Seat)
        requires { seat.table ≡ N.table }
    {
        self.seat = Some(seat);
    }

    /// Returns the claimed stretch.
    pub(crate) fn claim(&self) -> Result<&Held<Commas, N>, Halt> {
        match &self.held {
            Some(held) => Ok(held),
            None => Err(Halt::Refused),
        }
    }

    /// Removes and returns the claim.
    pub(crate) fn take_claim(&mut self) -> Result<Held<Commas, N>, Halt>
        ensures { IfOk result (λ held. held.seat.table ≡ N.table) }
    {
        match self.held.take() {
            Some(held) => Ok(held),
            None => Err(Halt::Refused),
        }
    }

    /// Puts a claim here.
    pub(crate) fn put_claim(&mut self, held: Held<Commas, N>)
        requires { held.seat.table ≡ N.table }
    {
        self.held = Some(held);
    }
}

impl<N: Name> Place<N> {
    /// Writes flags: whether the seat is free, and whether there is a claim.
    pub(crate) fn has(&self) -> (bool, bool) {
        (self.seat.is_some(), self.held.is_some())
    }
}

/// Returns places for free seats.
pub(crate) fn places_of<N: Name>(
    alloc: Global,
    seats: Vec<Seat>,
) -> Result<Vec<Place<N>>, AllocError>
    requires { All (λ seat. seat.table ≡ N.table) seats.items }
{
    let mut places = Vec::with_capacity(alloc, seats.len())?;
    for seat in seats {
        places.push(Place::of(seat))?;
    }
    Ok(places)
}
