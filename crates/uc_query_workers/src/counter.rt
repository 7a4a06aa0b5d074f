//! The counter of pieces, and all that is done with it.
ghost use Rattle.std.specs.Prelude.{◌≡◌, ℕ, ◌+◌, ◌<◌, ◌≤◌, ◌^◌, ◌++◌, [], ◌∷◌, IfOk, IfSome, IfNone};
ghost use Rattle.std.specs.List.{AllByRecursion};
ghost use Rattle.uc_query_workers.specs.Draws.{times, past};

use crate::rule::{Draw, DrawRule, Drawer, IntoOne, Look, OnePart, Shares};
use crate::seat::PieceSeat;
use atomic_table::Table;
use std::alloc::{AllocError, Global};
use std::marker::Model;

/// The only word of a counter.
const DRAWS: usize = 0;

/// The number of draws so far, from which threads that share it by reference draw pieces.
///
/// Contracts see its identity, `table`, which its seats carry too, and how many `pieces` and `workers` there are.
#[derive(Drop)]
pub struct PieceCounter {
    table: Table<(), Drawer, Shares, DrawRule, Global>,
    pieces: u64,
}

impl Model for PieceCounter {
    ghost use Rattle.std.specs.Prelude.{◌≡◌, ◌+◌, ◌<◌, ◌^◌};
    ghost use Rattle.uc_query_workers.specs.Draws.{Counter, IsLaid};

    ghost Value = { Counter };

    ghost view = { λ c. record {
      table = c.table.shared.table_id;
      pieces = c.table.shared.key.pieces;
      workers = c.table.shared.key.workers;
    } };

    ghost invariant = { λ c. IsLaid c.pieces c.table.shared.key c.table.shared.table_id };
}

impl PieceCounter {
    /// A counter from which nothing is taken yet, with a seat that has the parts of all workers. No other call allocates.
    pub fn new(
        alloc: Global,
        pieces: u64,
        workers: u64,
    ) -> Result<(PieceCounter, PieceSeat), AllocError>
        requires { pieces + workers < 2 ^ 64 }
        ensures counter { IfOk result (λ made. (made.0.pieces ≡ pieces) × (made.0.workers ≡ workers)) }
        ensures seat { IfOk result (λ made.
            made.1 ≡ record { table = made.0.table; all = workers; parts = workers; numbers = [] }) }
    {
        let (table, token) = Table::of_words(alloc, &[0], &Shares { pieces, workers })?;
        Ok((PieceCounter { table, pieces }, PieceSeat { token }))
    }

    /// A seat with one of the parts of another, which has one part less then. The other has taken nothing yet.
    pub fn split(&self, seat: &mut PieceSeat) -> PieceSeat
        requires table { seat.old.table ≡ self.now.table }
        requires parts { 0 < seat.old.parts }
        requires none_drawn { seat.old.numbers ≡ [] }
        ensures one { result ≡ record seat.old { parts = 1 } }
        ensures rest { (seat.new.parts + 1 ≡ seat.old.parts) × (seat.new ≡ record seat.old { parts = seat.new.parts }) }
    {
        let token = self.table.shared.split_seat::<OnePart>(&mut seat.token);
        PieceSeat { token }
    }

    /// Takes in another seat: its parts, and after the seat's own numbers those that the other drew. The seat that does so
    /// has a part itself.
    pub fn join(&self, seat: &mut PieceSeat, other: PieceSeat)
        requires part { 0 < seat.old.parts }
        requires seat { seat.old.table ≡ self.now.table }
        requires other { other.table ≡ self.now.table }
        ensures both { seat.new ≡ record seat.old {
          parts = seat.old.parts + other.parts;
          numbers = seat.old.numbers ++ other.numbers;
        } }
        ensures ends { past self.now.pieces seat.new.numbers ≡
            past self.now.pieces seat.old.numbers + past self.now.pieces other.numbers }
    {
        let PieceSeat { token } = other;
        self.table
            .shared
            .join_seat::<IntoOne>(&mut seat.token, token);
    }

    /// Takes the next piece, by one addition, if one is left. A seat may reach the end once for each of its parts, and takes no
    /// more then. The result, a piece or none, is appended to the seat's numbers, which rise.
    pub fn draw(&self, seat: &mut PieceSeat) -> Option<u64>
        requires table { seat.old.table ≡ self.now.table }
        requires may { past self.now.pieces seat.old.numbers < seat.old.parts }
        ensures piece { IfSome result (λ piece.
            (piece < self.now.pieces) × (seat.new ≡ record seat.old { numbers = seat.old.numbers ++ piece ∷ [] })) }
        ensures end { IfNone result ((number : ℕ) × (self.now.pieces ≤ number)
            × (seat.new ≡ record seat.old { numbers = seat.old.numbers ++ number ∷ [] })) }
        ensures rising { IfSome result (λ piece. AllByRecursion (λ number. number < piece) seat.old.numbers) }
        ensures goes_on { IfSome result (λ _.
            past self.now.pieces seat.new.numbers ≡ past self.now.pieces seat.old.numbers) }
        ensures ends { IfNone result
            (past self.now.pieces seat.new.numbers ≡ past self.now.pieces seat.old.numbers + 1) }
    {
        let number = self
            .table
            .shared
            .fetch_add::<Draw>(&mut seat.token, DRAWS, 1);
        if number < self.pieces {
            Some(number)
        } else {
            None
        }
    }

    /// States that each piece was taken once: a seat that has all parts, and that reached the end, has the number of each in its
    /// list. It reads the word, and nothing changes.
    pub fn recall_all_drawn(&self, seat: &mut PieceSeat)
        requires table { seat.old.table ≡ self.now.table }
        requires all { (0 < seat.old.parts) × (seat.old.parts ≡ seat.old.all) }
        requires end { 0 < past self.now.pieces seat.old.numbers }
        ensures same { seat.new ≡ seat.old }
        ensures once { (piece : ℕ) → piece < self.now.pieces → times piece seat.old.numbers ≡ 1 }
    {
        let _ = self.table.shared.load::<Look>(&mut seat.token, DRAWS);
    }
}
