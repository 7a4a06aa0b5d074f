//! A seat with the slots that it holds.
ghost use Rattle.std.specs.Prelude.{◌≡◌, ◌↔◌, [], IsTrue, IfSome, IfNone, Contains};
ghost use Rattle.uc_claims.specs.Holding.{free_seat};

use crate::rule::Claimant;
use crate::seat::Seat;
use crate::slot_set::SlotSet;
use atomic_table::Seat as Token;
use std::marker::Model;

/// A seat and the slots that it holds. While it lives, no other seat of its table gets one of them.
///
/// Contracts see it as a `Holding`, whose list has the slots in the order in which they were taken. Give it back by
/// [`ClaimTable::give`](crate::ClaimTable::give): if it is dropped, its slots stay taken for good.
#[derive(Drop)]
pub struct HeldSlots {
    pub(crate) token: Token<(), Claimant>,
    // The slots of the list; the list itself exists in proofs alone.
    pub(crate) set: SlotSet,
}

impl Model for HeldSlots {
    ghost use Rattle.std.specs.Prelude.{◌≡◌, []};
    ghost use Rattle.uc_claims.specs.Holding.{Holding};

    ghost Value = { Holding };

    ghost use Rattle.uc_claims.specs.Claims.{Recorded};

    ghost view = { λ h. record { table = h.token.table_id; whole = h.token.me.0.whole; slots = h.token.me.0.slots } };

    ghost invariant = { λ h. (h.token.me.1 ≡ []) × Recorded h.token.table_id.words h.set.groups h.token.me.0.slots };
}

impl HeldSlots {
    /// A seat that holds nothing yet.
    pub(crate) fn none(seat: Seat) -> HeldSlots
        ensures held { result ≡ free_seat seat.table seat.whole }
        ensures same { result ≡ seat }
    {
        let Seat { token } = seat;
        HeldSlots {
            token,
            set: SlotSet::none(),
        }
    }

    /// The seat alone, once it holds nothing.
    pub(crate) fn into_seat(self) -> Seat
        requires { self.slots ≡ [] }
        ensures seat { result ≡ free_seat self.table self.whole }
        ensures same { result ≡ self }
    {
        let HeldSlots { token, set: _ } = self;
        Seat { token }
    }

    /// One of the slots held here, if there is any.
    pub(crate) fn any(&self) -> Option<usize>
        ensures some { IfSome result (λ slot. Contains self.now.slots slot) }
        ensures none { IfNone result (self.now.slots ≡ []) }
    {
        self.set.any()
    }

    /// Whether the slot is among those held here. It is `false` for a slot that the table doesn't have.
    pub fn has(&self, slot: usize) -> bool
        ensures { IsTrue result ↔ Contains self.now.slots slot }
    {
        self.set.has(slot)
    }
}
