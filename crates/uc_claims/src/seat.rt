//! The token by which a thread acts at a table.
use crate::rule::Claimant;
use atomic_table::Seat as Token;
use std::marker::Model;

/// A place at one [`ClaimTable`](crate::ClaimTable), which holds no slot. It has no bytes and may go to
/// another thread.
///
/// Contracts see it as a `Holding`: its table, whether it is whole, and its list of slots, which is empty.
/// The seat that a new table comes with is whole until it is split, and is then the only seat.
#[derive(Drop)]
pub struct Seat {
    pub(crate) token: Token<(), Claimant>,
}

impl Model for Seat {
    ghost use Rattle.std.specs.Prelude.{◌≡◌, []};
    ghost use Rattle.uc_claims.specs.Holding.{Holding};

    ghost Value = { Holding };

    ghost view = { λ s. record { table = s.token.table_id; whole = s.token.me.0.whole; slots = s.token.me.0.slots } };

    ghost invariant = { λ s. (s.token.me.1 ≡ []) × (s.token.me.0.slots ≡ []) };
}
