//! [`Compactor`]: compacts a store by [`Store::turn`].
ghost use Rattle.std.specs.Prelude.{◌≡◌, Some, IfOk, IfErr, IfSome};
ghost use mathlib.Core.List.{IsPrefix};
ghost use Rattle.uc_version_state.specs.Histories.{MayFollow};
ghost use Rattle.uc_share.specs.Turns.{CameOf, FailedFor, turning};

use crate::name::Name;
use crate::reader::Reader;
use crate::store::Store;
use crate::turn::Turn;
use crate::turn_gate::{TurnGate, Ungated};
use std::alloc::Global;
use std::marker::{Model, Sync};
use std::sync::Wait;
use std::thread::Threads;
use uc_claims::Seat;
use uc_oper::Operator;
use uc_version_compact::InstallError;

/// A compactor of a store: a reader and a seat of it. Contracts see the seat, which is there between turns, and what the reader has
/// seen of the history.
pub struct Compactor<O: Operator, N: Name> {
    reader: Reader<O, N>,
    seat: Option<Seat>,
}

impl<O: Operator, N: Name> Model for Compactor<O, N> {
    ghost use Rattle.std.specs.Prelude.{◌≡◌, ◌≢◌, None, IfSome};
    ghost use Rattle.uc_share.specs.Turns.{Seated};

    ghost Value = { Seated };

    ghost view = { λ c. record { seat = c.seat; seen = c.reader } };

    ghost invariant = { λ c. (c.seat ≢ None) × IfSome c.seat (λ seat. seat.table ≡ N.table) };
}

// A destructor of its own: where a value is dropped, the proof of a caller has one call, and not one for each field.
impl<O: Operator, N: Name> Drop for Compactor<O, N> {
    fn drop(self) {
        let Compactor { reader: _, seat: _ } = self;
    }
}

impl<O: Operator, N: Name> Compactor<O, N> {
    /// Returns its reader, when it stops compacting. The seat is released.
    pub fn into_reader(self) -> Reader<O, N>
        ensures { result ≡ self.seen }
    {
        let Compactor { reader, seat: _ } = self;
        reader
    }
}

impl<O: Operator, N: Name, W: Wait + Drop> Store<O, N, W> {
    /// A compactor with a reader and a seat of this store.
    pub fn compactor(&self, reader: Reader<O, N>, seat: Seat) -> Compactor<O, N>
        requires { seat.table ≡ self.now.table }
        ensures { result ≡ record { seat = Some seat; seen = reader } }
    {
        self.recall_table();
        Compactor {
            reader,
            seat: Some(seat),
        }
    }
}

impl<O: Operator + Sync, N: Name, W: Wait + Drop> Store<O, N, W> {
    /// A compactor's turn, as [`compact_once`](Store::compact_once) takes one.
    pub fn turn(
        &self,
        rt: &(impl Threads + Wait + Sync),
        alloc: Global,
        compactor: &mut Compactor<O, N>,
    ) -> Result<Turn, InstallError>
        ensures seat { compactor.new.seat ≡ compactor.old.seat }
        ensures seen { IsPrefix compactor.old.seen compactor.new.seen }
        ensures legal { MayFollow O.meaning N.base compactor.new.seen }
        ensures came { IfSome compactor.old.seat (λ seat. IfOk result
            (CameOf O.meaning (turning self.now.options N.base seat compactor.old.seen compactor.new.seen))) }
        ensures failed { IfSome compactor.old.seat (λ seat. IfErr result
            (FailedFor (turning self.now.options N.base seat compactor.old.seen compactor.new.seen))) }
    {
        self.turn_through(rt, alloc, compactor, &Ungated)
    }

    /// Takes a turn as [`turn`](Store::turn) does, and calls a gate between the steps, by which tests hold the compactor up.
    pub fn turn_through<G: TurnGate>(
        &self,
        rt: &(impl Threads + Wait + Sync),
        alloc: Global,
        compactor: &mut Compactor<O, N>,
        gate: &G,
    ) -> Result<Turn, InstallError>
        ensures seat { compactor.new.seat ≡ compactor.old.seat }
        ensures seen { IsPrefix compactor.old.seen compactor.new.seen }
        ensures legal { MayFollow O.meaning N.base compactor.new.seen }
        ensures came { IfSome compactor.old.seat (λ seat. IfOk result
            (CameOf O.meaning (turning self.now.options N.base seat compactor.old.seen compactor.new.seen))) }
        ensures failed { IfSome compactor.old.seat (λ seat. IfErr result
            (FailedFor (turning self.now.options N.base seat compactor.old.seen compactor.new.seen))) }
    {
        self.recall_table();
        let Some(seat) = compactor.seat.take() else {
            unreachable!()
        };
        let (seat, came) = self.compact_once_through(rt, alloc, seat, &mut compactor.reader, gate);
        compactor.seat = Some(seat);
        came
    }
}
