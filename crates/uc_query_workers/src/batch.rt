//! [`Batch`]: queries, cut into pieces.
ghost use Rattle.std.specs.Prelude.{◌≡◌, ◌*◌, ◌^◌, ◌<◌, ◌≤◌, length};
ghost use Rattle.uc_query_workers.specs.Pieces as pieces;
ghost use Rattle.uc_query_workers.specs.Pieces.{AreNumbers};

use std::marker::Model;
use uc_query_read::Query;

/// Queries, cut into pieces of `piece` queries; the last one may have fewer. A contract sees it as these.
#[derive(Drop)]
pub struct Batch<'a> {
    queries: &'a [Query],
    piece: usize,
}

impl<'a> Model for Batch<'a> {
    ghost use Rattle.std.specs.Prelude.{◌<◌};
    ghost use Rattle.uc_query_workers.specs.Pieces.{Batch};

    ghost Value = { Batch };

    ghost view = { λ b. record { queries = b.queries.now; piece = b.piece } };

    ghost invariant = { λ b. 0 < b.piece };
}

impl<'a> Batch<'a> {
    /// Queries, in pieces of `piece`.
    pub fn new(queries: &'a [Query], piece: usize) -> Batch<'a>
        requires { 0 < piece }
        ensures { result ≡ record { queries = queries.now; piece = piece } }
    {
        Batch { queries, piece }
    }

    /// The number of queries.
    pub fn len(&self) -> usize
        ensures { result ≡ length self.now.queries }
    {
        self.queries.len()
    }

    /// The number of pieces.
    pub fn pieces(&self) -> usize
        ensures numbers { AreNumbers self.now result }
        ensures enough { length self.now.queries ≤ result * self.now.piece }
        ensures bound { result < 2 ^ 63 }
    {
        self.queries.len().div_ceil(self.piece)
    }

    /// The piece with a number, from 0.
    pub fn piece_of(&self, number: usize) -> &[Query]
        requires { number * self.now.piece < length self.now.queries }
        ensures { result.now ≡ pieces.piece_of self.now number }
    {
        let rest = &self.queries[number * self.piece..];
        &rest[..self.piece.min(rest.len())]
    }
}
