//! [`Taken`]: the slots of a stretch, before anybody has looked whether its runs still stand.
ghost use Rattle.std.specs.Prelude.{◌≡◌, ◌≤◌, [], IfOk, IfErr, OnOk, length};
ghost use Rattle.uc_claims.specs.Holding.{free_seat};
ghost use Rattle.uc_claims.specs.declared.table.TheConstants.{MOST_SLOTS};
ghost use Rattle.uc_version_state.specs.Versions.{Stored};
ghost use Rattle.uc_share.specs.Claims.{claim_of, claimed_runs, IsClaim, IsClaimRefused};

use crate::name::Name;
use crate::pin::Pin;
use crate::words::Words;
use std::marker::Model;
use uc_claims::{HeldSlots, Seat};
use uc_oper::Operator;
use uc_version_compact::{ClaimError, runs_of, stretch_runs};
use uc_version_state::{Placed, Stretch};

/// The slots of a stretch of a pinned version, taken. Nobody has looked yet whether its runs still stand: a
/// [`Held`](crate::Held) is made of it by that look alone.
#[derive(Drop)]
pub(crate) struct Taken<O: Operator, N: Name> {
    slots: HeldSlots,
    pin: Pin<O, N>,
    stretch: Stretch,
}

impl<O: Operator, N: Name> Model for Taken<O, N> {
    ghost use Rattle.uc_share.specs.Claims.{Claim, IsClaim};

    ghost Value = { Claim };

    ghost view = { λ t. record { seat = t.slots; pin = t.pin; stretch = t.stretch } };

    ghost invariant = { λ t. IsClaim (record { seat = t.slots; pin = t.pin; stretch = t.stretch }) };
}

impl<O: Operator, N: Name> Taken<O, N> {
    /// Takes the slots of a stretch, or none of them. It takes no memory, and looks at nothing that is shown.
    pub(crate) fn take(
        words: &Words,
        seat: Seat,
        pin: Pin<O, N>,
        stretch: Stretch,
    ) -> Result<Taken<O, N>, (Seat, Pin<O, N>, ClaimError)>
        requires { seat.table ≡ words.now }
        ensures ok { IfOk result (λ taken. taken ≡ claim_of seat pin stretch) }
        ensures err { IfErr result (λ refused. (refused.0 ≡ seat) × (refused.1 ≡ pin)) }
        ensures refused { IfErr result (λ refused. (v : Stored) → IsClaimRefused seat pin stretch v refused.2) }
        ensures was_empty { OnOk result (seat.slots ≡ []) }
    {
        pin.version().recall();
        let runs = match runs_of(pin.version().runs(), stretch) {
            Err(error) => return Err((seat, pin, error)),
            Ok(runs) => runs,
        };
        match words.take(seat, runs) {
            Err((seat, busy)) => Err((seat, pin, ClaimError::Busy(busy.0))),
            Ok(slots) => Ok(Taken {
                slots,
                pin,
                stretch,
            }),
        }
    }

    /// Gives them back.
    pub(crate) fn give(self, words: &Words) -> (Seat, Pin<O, N>)
        requires { self.seat.table ≡ words.now }
        ensures seat { result.0 ≡ free_seat self.seat.table self.seat.whole }
        ensures pin { result.1 ≡ self.pin }
    {
        let Taken {
            slots,
            pin,
            stretch: _,
        } = self;
        (words.give(slots), pin)
    }

    /// The stretch is two runs or more, which the pinned version has. It does nothing.
    pub(crate) fn recall(&self)
        ensures { IsClaim self.now }
    {
        let _ = &self.stretch;
    }

    /// The seat with the slots.
    pub(crate) fn slots(&self) -> &HeldSlots
        ensures { result.now ≡ self.now.seat }
    {
        &self.slots
    }

    /// The version that was pinned.
    pub(crate) fn pin(&self) -> &Pin<O, N>
        ensures { result.now ≡ self.now.pin }
    {
        &self.pin
    }

    /// The stretch of it.
    pub(crate) fn stretch(&self) -> Stretch
        ensures { result ≡ self.now.stretch }
    {
        self.stretch
    }

    /// Its runs, as they were pinned.
    pub(crate) fn runs(&self) -> &[Placed]
        ensures runs { result.now ≡ claimed_runs self.now }
        ensures two { 2 ≤ length result.now }
        ensures few { length result.now ≤ MOST_SLOTS }
    {
        self.recall();
        self.pin.version().recall();
        stretch_runs(self.pin.version(), self.stretch)
    }
}
