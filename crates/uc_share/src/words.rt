//! [`Words`]: the claim words of a store.
ghost use Rattle.std.specs.Prelude.{◌≡◌, ◌<◌, ◌≤◌, All, Contains, IfOk, IfErr, IsOk, [], length, true, false};
ghost use Rattle.std.specs.List.{AllByRecursion};
ghost use Rattle.uc_claims.specs.Holding.{free_seat, AreDistinct};
ghost use Rattle.uc_claims.specs.declared.table.TheConstants.{MOST_SLOTS};
ghost use Rattle.uc_version_state.specs.Versions as versions;

use std::alloc::{AllocError, Global};
use std::marker::Model;
use uc_claims::{Busy, ClaimTable, HeldSlots, MOST_SLOTS, Seat};
use uc_version_compact::slots_of;
use uc_version_state::Placed;

/// The claim words of a store, one for each slot of its runs. Its seats are split off as it is made, and none is split or joined
/// from then on: a seat comes back from slots by giving them, and from nothing else. Contracts see its table.
#[derive(Drop)]
pub(crate) struct Words {
    table: ClaimTable,
}

impl Model for Words {
    ghost use Rattle.std.specs.Prelude.{◌≡◌};
    ghost use Rattle.atomic_table.specs.Seated.{TableId};
    ghost use Rattle.uc_claims.specs.declared.table.TheConstants.{MOST_SLOTS};

    ghost Value = { TableId };

    ghost view = { λ w. w.table.table };

    ghost invariant = { λ w. w.table.count ≡ MOST_SLOTS };
}

/// `count` seats of one table. One seat alone is the whole one that the table came with, and several are split off it.
fn split_seats(
    alloc: Global,
    table: &ClaimTable,
    seat: Seat,
    count: usize,
) -> Result<Vec<Seat>, AllocError>
    requires { seat ≡ free_seat table.now.table true }
    ensures seats { IfOk result (λ seats.
        (length seats.items ≡ count) × All (λ seat. seat.table ≡ table.now.table) seats.items) }
    ensures alone { count ≡ 1 → IfOk result (λ seats. All (λ seat. seat.whole ≡ true) seats.items) }
{
    let mut seats = Vec::with_capacity(alloc, count)?;
    if count == 0 {
        return Ok(seats);
    }
    let mut rest = seat;
    for _ in 1..count {
        let (one, other) = table.split(rest);
        seats.push(one)?;
        rest = other;
    }
    seats.push(rest)?;
    Ok(seats)
}

impl Words {
    /// Free words for all slots, and `seats` seats. One seat alone is whole.
    pub(crate) fn new(alloc: Global, seats: usize) -> Result<(Words, Vec<Seat>), AllocError>
        ensures seats { IfOk result (λ made.
            (length made.1.items ≡ seats) × All (λ seat. seat.table ≡ made.0) made.1.items) }
        ensures alone { seats ≡ 1 → IfOk result (λ made. All (λ seat. seat.whole ≡ true) made.1.items) }
    {
        let (table, seat) = ClaimTable::new(alloc, MOST_SLOTS)?;
        let seats = split_seats(alloc, &table, seat, seats)?;
        Ok((Words { table }, seats))
    }

    /// Whether the slot is taken, at some point during the call.
    pub(crate) fn busy(&self, seat: &mut Seat, slot: usize) -> bool
        requires table { seat.old.table ≡ self.now }
        requires below { slot < MOST_SLOTS }
        ensures seat { seat.new ≡ seat.old }
        ensures whole { seat.old.whole ≡ true → result ≡ false }
    {
        self.table.busy(seat, slot)
    }

    /// Takes the slots of runs, the newest first, or none of them if one is taken, which is named. A whole seat
    /// takes what it asks for.
    pub(crate) fn take(&self, seat: Seat, runs: &[Placed]) -> Result<HeldSlots, (Seat, Busy)>
        requires table { seat.table ≡ self.now }
        requires few { length runs.now ≤ MOST_SLOTS }
        requires below { AllByRecursion (λ slot. slot < MOST_SLOTS) (versions.slots_of runs.now) }
        requires distinct { AreDistinct (versions.slots_of runs.now) }
        ensures ok { IfOk result (λ held. held ≡ record seat { slots = versions.slots_of runs.now }) }
        ensures err { IfErr result (λ refused.
            (refused.0 ≡ seat) × Contains (versions.slots_of runs.now) refused.1.0) }
        ensures was_empty { seat.slots ≡ [] }
        ensures whole { seat.whole ≡ true → IsOk result }
    {
        let slots = slots_of(runs);
        self.table.take(seat, &slots[..runs.len()])
    }

    /// Gives slots back.
    pub(crate) fn give(&self, slots: HeldSlots) -> Seat
        requires { slots.table ≡ self.now }
        ensures { result ≡ free_seat slots.table slots.whole }
    {
        self.table.give(slots)
    }
}
