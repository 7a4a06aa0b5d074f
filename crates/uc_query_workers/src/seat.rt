//! The token by which a thread draws pieces.
use crate::rule::Drawer;
use atomic_table::Seat as Token;
use std::marker::Model;

/// A place at one [`PieceCounter`](crate::PieceCounter), with the numbers that were taken by it. It has no bytes and may be moved
/// to another thread.
///
/// Contracts see it as a `Drawing`: its counter, the parts of all seats together, its own, and its list of numbers.
#[derive(Drop)]
pub struct PieceSeat {
    pub(crate) token: Token<(), Drawer>,
}

impl Model for PieceSeat {
    ghost use Rattle.std.specs.Prelude.{◌≡◌, []};
    ghost use Rattle.uc_query_workers.specs.Draws.{Drawing};

    ghost Value = { Drawing };

    ghost view = { λ s. record {
      table = s.token.table_id;
      all = s.token.me.0.all;
      parts = s.token.me.0.parts;
      numbers = s.token.me.0.numbers;
    } };

    ghost invariant = { λ s. s.token.me.1 ≡ [] };
}
