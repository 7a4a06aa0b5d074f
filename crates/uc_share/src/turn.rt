//! [`Turn`]: what came of a compactor's turn, and [`Store::compact_once`], which takes one.
ghost use Rattle.std.specs.Prelude.{◌≡◌, ◌≢◌, IfOk, IfErr, OnOk, fold};
ghost use mathlib.Core.List.{IsPrefix};
ghost use Rattle.uc_claims.specs.Holding.{free_seat};
ghost use Rattle.uc_version_state.specs.Histories.{MayFollow, after};
ghost use Rattle.uc_version_compact.specs.Compacting.{compaction_at};
ghost use Rattle.uc_version_compact.specs.declared.install_error.InstallError.TheVariants.{Memory};
ghost use Rattle.uc_share.specs.Claims.{claimed_runs};
ghost use Rattle.uc_share.specs.Installing.{event_of, EndsWith, IsOwnRefusal, ShowsRefusal};
ghost use Rattle.uc_share.specs.Turns as turns;
ghost use Rattle.uc_share.specs.Turns.{CameOf, FailedFor, turning};

use crate::held::Held;
use crate::name::Name;
use crate::reader::Reader;
use crate::store::Store;
use crate::turn_gate::{TurnGate, Ungated};
use std::alloc::Global;
use std::marker::Sync;
use std::sync::Wait;
use std::thread::Threads;
use uc_claims::Seat;
use uc_oper::Operator;
use uc_version_compact::{ClaimError, InstallError};

/// The outcome of a compactor's turn.
#[derive(Clone, Copy, Debug, PartialEq, Eq)]
pub enum Turn {
    /// Nothing is picked of the version that was pinned.
    Idle,
    /// Another compactor was faster: what was picked is claimed already (`Busy`), or was replaced (`Moved`).
    Late(ClaimError),
    /// The picked stretch is compacted and installed.
    Installed,
}

/// The outcome of a turn whose claim fails: another compactor was faster, or allocation failed.
fn refused_turn(error: ClaimError) -> Result<Turn, InstallError>
    ensures { result ≡ turns.refused_turn error }
{
    match error {
        ClaimError::Memory => Err(InstallError::Memory),
        _ => Ok(Turn::Late(error)),
    }
}

impl<O: Operator + Sync, N: Name, W: Wait + Drop> Store<O, N, W> {
    /// A compactor's turn: it pins what is shown, claims the stretch that is picked of it, compacts this, and installs the
    /// compaction. The seat comes back as it was, whatever comes of the turn: a claim that isn't installed is abandoned.
    ///
    /// `Err` is `Memory`, or `Stale` or `IdsSpent` if the compaction isn't installed for that. It waits as [`install`](Store::install) does.
    pub fn compact_once(
        &self,
        rt: &(impl Threads + Wait + Sync),
        alloc: Global,
        seat: Seat,
        reader: &mut Reader<O, N>,
    ) -> (Seat, Result<Turn, InstallError>)
        requires { seat.table ≡ self.now.table }
        ensures seat { result.0 ≡ seat }
        ensures seen { IsPrefix reader.old reader.new }
        ensures legal { MayFollow O.meaning N.base reader.new }
        ensures came { IfOk result.1 (CameOf O.meaning (turning self.now.options N.base seat reader.old reader.new)) }
        ensures failed { IfErr result.1 (FailedFor (turning self.now.options N.base seat reader.old reader.new)) }
    {
        self.compact_once_through(rt, alloc, seat, reader, &Ungated)
    }

    /// Takes a turn as [`compact_once`](Store::compact_once) does, and calls a gate between the steps.
    pub(crate) fn compact_once_through<G: TurnGate>(
        &self,
        rt: &(impl Threads + Wait + Sync),
        alloc: Global,
        mut seat: Seat,
        reader: &mut Reader<O, N>,
        gate: &G,
    ) -> (Seat, Result<Turn, InstallError>)
        requires { seat.table ≡ self.now.table }
        ensures seat { result.0 ≡ seat }
        ensures seen { IsPrefix reader.old reader.new }
        ensures legal { MayFollow O.meaning N.base reader.new }
        ensures came { IfOk result.1 (CameOf O.meaning (turning self.now.options N.base seat reader.old reader.new)) }
        ensures failed { IfErr result.1 (FailedFor (turning self.now.options N.base seat reader.old reader.new)) }
    {
        let Ok(pin) = self.pin(reader) else {
            return (seat, Err(InstallError::Memory));
        };
        let Some(stretch) = self.pick(&pin, &mut seat) else {
            return (seat, Ok(Turn::Idle));
        };
        gate.picked();
        match self.claim(seat, pin, reader, stretch) {
            Err((seat, _pin, error)) => (seat, refused_turn(error)),
            Ok(held) => {
                gate.claimed();
                self.compact_held(rt, alloc, held, reader)
            }
        }
    }

    /// Compacts a claim and installs the result, without a comparison of points: the inputs are the claimed runs. If either fails,
    /// the claim is abandoned.
    fn compact_held(
        &self,
        rt: &(impl Threads + Wait + Sync),
        alloc: Global,
        held: Held<O, N>,
        reader: &mut Reader<O, N>,
    ) -> (Seat, Result<Turn, InstallError>)
        requires { held.seat.table ≡ self.now.table }
        ensures seat { result.0 ≡ free_seat held.seat.table held.seat.whole }
        ensures seen { IsPrefix reader.old reader.new }
        ensures legal { MayFollow O.meaning N.base reader.new }
        ensures ok { IfOk result.1 (λ turn. turn ≡ Turn.Installed) }
        ensures installed { OnOk result.1 (EndsWith reader.old
            (event_of O.meaning (claimed_runs held) (compaction_at held.pin.version held.stretch)) reader.new) }
        ensures refused { IfErr result.1 (λ error. error ≢ Memory → ShowsRefusal (fold after N.base reader.new)
            (claimed_runs held) (compaction_at held.pin.version held.stretch) error) }
        ensures own { IfErr result.1 IsOwnRefusal }
    {
        reader.recall();
        let Ok(made) = held.compact(rt, alloc) else {
            return (self.abandon(held).0, Err(InstallError::Memory));
        };
        match self.replace_inputs(rt, alloc, &held, &made, reader) {
            Ok(()) => (self.abandon(held).0, Ok(Turn::Installed)),
            Err(error) => (self.abandon(held).0, Err(error)),
        }
    }
}
