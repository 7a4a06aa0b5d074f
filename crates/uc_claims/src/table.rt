//! The table of claim words, and all that is done with it.
ghost use Rattle.std.specs.Prelude.{◌≡◌, ℕ, ◌<◌, ◌≤◌, ◌++◌, true, false, [], ◌∷◌, All, Contains, IfOk};
ghost use Rattle.std.specs.Prelude.{IfErr, IsOk, OnOk, MatchBool, nat_lt, slice_index, slice_index_or};
ghost use Rattle.std.specs.Slots.{slots_items, slots_len, IsFull};
ghost use Rattle.std.specs.Bool.{OnTrue, OnFalse};
ghost use Rattle.uc_claims.specs.Claims.{ShowsTaken};
ghost use Rattle.uc_claims.specs.Holding.{free_seat, AreDistinct, without, NoneHeld, IsFirstHeld};

use crate::busy::Busy;
use crate::held_slots::HeldSlots;
use crate::rule::{ClaimRule, Claimant, Exchange, Give, InTwo, IntoOne, Look};
use crate::seat::Seat;
use atomic_table::{Closed, Table};
use std::alloc::{AllocError, Global};
use std::marker::Model;

/// The most slots that a table may have.
pub const MOST_SLOTS: usize = 256;

/// A claim word while nobody has its slot.
const FREE: u64 = 0;

/// A claim word while somebody has its slot.
const TAKEN: u64 = 1;

/// A word for each slot, by which threads claim slots. Threads share it by reference.
///
/// Contracts see its identity, `table`, which its tokens carry too, and its number of slots, `count`.
pub struct ClaimTable {
    table: Table<(), Claimant, usize, ClaimRule, Global>,
}

impl Model for ClaimTable {
    ghost use Rattle.uc_claims.specs.Holding.{Slots, IsLaid};

    ghost Value = { Slots };

    ghost view = { λ t. record { table = t.table.shared.table_id; count = t.table.shared.table_id.words } };

    ghost invariant = { λ t. IsLaid t.table.shared.key t.table.shared.table_id };
}

// A destructor of its own: where a value is dropped, the proof of a caller has one call, and not one for each field.
impl Drop for ClaimTable {
    fn drop(self) {
        let ClaimTable { table: _ } = self;
    }
}

impl ClaimTable {
    /// A table of `count` free slots, numbered from 0, with a whole seat. No other call allocates.
    pub fn new(alloc: Global, count: usize) -> Result<(ClaimTable, Seat), AllocError>
        requires some { 0 < count }
        requires few { count ≤ MOST_SLOTS }
        ensures table { IfOk result (λ r. r.0.count ≡ count) }
        ensures seat { IfOk result (λ r. r.1 ≡ free_seat r.0.table true) }
    {
        let words = [FREE; MOST_SLOTS];
        let (table, token) = Table::of_words(alloc, &words[..count], &count)?;
        Ok((ClaimTable { table }, Seat { token }))
    }

    /// Splits a seat in two, neither of them whole.
    pub fn split(&self, mut seat: Seat) -> (Seat, Seat)
        requires { seat.table ≡ self.now.table }
        ensures left { result.0 ≡ free_seat self.now.table false }
        ensures right { result.1 ≡ free_seat self.now.table false }
    {
        let token = self.table.shared.split_seat::<InTwo>(&mut seat.token);
        (seat, Seat { token })
    }

    /// Joins two seats into one. It is not whole, since slots may have been dropped since.
    pub fn join(&self, mut seat: Seat, other: Seat) -> Seat
        requires seat { seat.table ≡ self.now.table }
        requires other { other.table ≡ self.now.table }
        ensures { result ≡ free_seat self.now.table false }
    {
        let Seat { token } = other;
        self.table
            .shared
            .join_seat::<IntoOne>(&mut seat.token, token);
        seat
    }

    /// Takes the slots in the order of the list: all of them or none.
    ///
    /// At the first slot that is already taken it gives the earlier ones back, and returns that slot with the seat as it was. A
    /// whole seat never fails.
    ///
    /// On failure the contract says only that the slot was requested, since it knows nothing of other seats' lists. The tests of
    /// two seats and of four threads check that the slot is taken.
    pub fn take(&self, seat: Seat, slots: &[usize]) -> Result<HeldSlots, (Seat, Busy)>
        requires table { seat.table ≡ self.now.table }
        requires below { All (λ slot. slot < self.now.count) slots.now }
        requires distinct { AreDistinct slots.now }
        ensures was_empty { seat.slots ≡ [] }
        ensures ok { IfOk result (λ held. held ≡ record seat { slots = slots.now }) }
        ensures busy { IfErr result (λ refused. (refused.0 ≡ seat) × Contains slots.now refused.1.0) }
        ensures whole { seat.whole ≡ true → IsOk result }
    {
        let mut held = HeldSlots::none(seat);
        match self.take_more_in_place(&mut held, slots) {
            Ok(()) => Ok(held),
            Err(busy) => Err((held.into_seat(), busy)),
        }
    }

    /// Takes further slots in the same way, after those that are held.
    ///
    /// At the first slot that is already taken, by any seat, it gives the earlier ones back, and returns that slot with what was
    /// held before. A whole seat fails exactly if it holds one of the requested slots; the first such slot is returned.
    pub fn take_more(
        &self,
        mut held: HeldSlots,
        slots: &[usize],
    ) -> Result<HeldSlots, (HeldSlots, Busy)>
        requires table { held.table ≡ self.now.table }
        requires below { All (λ slot. slot < self.now.count) slots.now }
        requires distinct { AreDistinct slots.now }
        ensures ok { IfOk result (λ more. more ≡ record held { slots = held.slots ++ slots.now }) }
        ensures apart { OnOk result (NoneHeld slots.now held.slots) }
        ensures busy { IfErr result (λ refused. (refused.0 ≡ held) × Contains slots.now refused.1.0) }
        ensures whole { held.whole ≡ true → IfErr result (λ refused. IsFirstHeld slots.now held.slots refused.1.0) }
    {
        match self.take_more_in_place(&mut held, slots) {
            Ok(()) => Ok(held),
            Err(busy) => Err((held, busy)),
        }
    }

    /// [`take_more`](ClaimTable::take_more) in place, for an owner that can't move out what it holds. On failure it changes
    /// nothing.
    pub fn take_more_in_place(&self, held: &mut HeldSlots, slots: &[usize]) -> Result<(), Busy>
        requires table { held.old.table ≡ self.now.table }
        requires below { All (λ slot. slot < self.now.count) slots.now }
        requires distinct { AreDistinct slots.now }
        ensures ok { OnOk result (held.new ≡ record held.old { slots = held.old.slots ++ slots.now }) }
        ensures apart { OnOk result (NoneHeld slots.now held.old.slots) }
        ensures busy { IfErr result (λ busy. (held.new ≡ held.old) × Contains slots.now busy.0) }
        ensures whole { held.old.whole ≡ true → IfErr result (λ busy. IsFirstHeld slots.now held.old.slots busy.0) }
    {
        for (taken, &slot) in slots.iter().enumerate() {
            if !self.try_take(held, slot) {
                self.give_some_in_place(held, &slots[..taken]);
                return Err(Busy(slot));
            }
        }
        Ok(())
    }

    /// Gives some of the slots back. The others stay held, in their order.
    pub fn give_some(&self, mut held: HeldSlots, slots: &[usize]) -> HeldSlots
        requires table { held.table ≡ self.now.table }
        requires distinct { AreDistinct slots.now }
        requires held { All (Contains held.slots) slots.now }
        ensures { result ≡ record held { slots = without slots.now held.slots } }
    {
        self.give_some_in_place(&mut held, slots);
        held
    }

    /// [`give_some`](ClaimTable::give_some) in place, for an owner that can't move out what it holds.
    pub fn give_some_in_place(&self, held: &mut HeldSlots, slots: &[usize])
        requires table { held.old.table ≡ self.now.table }
        requires distinct { AreDistinct slots.now }
        requires held { All (Contains held.old.slots) slots.now }
        ensures { held.new ≡ record held.old { slots = without slots.now held.old.slots } }
    {
        for &slot in slots {
            self.free(held, slot);
        }
    }

    /// Gives all slots back.
    pub fn give(&self, mut held: HeldSlots) -> Seat
        requires { held.table ≡ self.now.table }
        ensures { result ≡ free_seat held.table held.whole }
    {
        while let Some(slot) = held.any() {
            self.free(&mut held, slot);
        }
        held.into_seat()
    }

    /// Whether the slot is taken, at some point during the call. The seat is unchanged.
    ///
    /// For a whole seat the answer is `false`: there is no other seat, and it holds no slot itself. For another seat the answer may
    /// be out of date when it arrives.
    pub fn busy(&self, seat: &mut Seat, slot: usize) -> bool
        requires table { seat.old.table ≡ self.now.table }
        requires below { slot < self.now.count }
        ensures seat { seat.new ≡ seat.old }
        ensures whole { seat.old.whole ≡ true → result ≡ false }
    {
        self.table.shared.load::<Look>(&mut seat.token, slot) != FREE
    }

    /// Ends the table, and returns which slots are still in some seat's list: that of a seat dropped with its slots, or
    /// left over. Flags past the table's last slot are false.
    ///
    /// For a whole seat all are false. For another seat the contract allows any flags for the table's slots, since it
    /// knows nothing of other seats' lists. The test `dropped_slots_stay_taken` checks that a flag is true exactly if
    /// the slot's word is 1.
    pub fn close(self, seat: Seat) -> [bool; MOST_SLOTS]
        requires { seat.table ≡ self.table }
        ensures flags { ShowsTaken self.count seat.whole result }
        ensures past { (slot : ℕ) → self.count ≤ slot → slice_index_or result slot false ≡ false }
        ensures whole { seat.whole ≡ true → All (λ taken. taken ≡ false) result }
    {
        let ClaimTable { table } = self;
        let Seat { token } = seat;
        let count = table.word_count();
        let closed = table.close_with(token);
        let flags = taken_flags(&closed, count);
        closed.free();
        flags
    }

    /// Takes one slot, if it is free: a won or a lost exchange.
    fn try_take(&self, held: &mut HeldSlots, slot: usize) -> bool
        requires table { held.old.table ≡ self.now.table }
        requires below { slot < self.now.count }
        ensures held { MatchBool result
            (held.new ≡ record held.old { slots = held.old.slots ++ slot ∷ [] })
            (held.new ≡ held.old) }
        ensures won { OnTrue result (¬ Contains held.old.slots slot) }
        ensures lost { OnFalse result (held.old.whole ≡ true → Contains held.old.slots slot) }
    {
        let found = self
            .table
            .shared
            .compare_exchange::<Exchange>(&mut held.token, slot, FREE, TAKEN);
        if found != FREE {
            return false;
        }
        held.set.add(slot);
        true
    }

    /// Gives one slot back.
    fn free(&self, held: &mut HeldSlots, slot: usize)
        requires table { held.old.table ≡ self.now.table }
        requires held { Contains held.old.slots slot }
        ensures { held.new ≡ record held.old { slots = without (slot ∷ []) held.old.slots } }
    {
        self.table.shared.store::<Give>(&mut held.token, slot, FREE);
        held.set.remove(slot);
    }
}

/// The words of a closed table that are not 0, as flags.
fn taken_flags(closed: &Closed<(), Global>, count: usize) -> [bool; MOST_SLOTS]
    requires counts { (count ≡ slots_len closed.now.words) × (count ≤ MOST_SLOTS) }
    requires full { IsFull closed.now.words }
    ensures { (slot : ℕ) →
        slice_index_or result slot false ≡
        nat_lt 0 (slice_index (slots_items closed.now.words) slot) }
{
    let mut flags = [false; MOST_SLOTS];
    for slot in 0..count {
        flags[slot] = closed.word(slot) != FREE;
    }
    flags
}
