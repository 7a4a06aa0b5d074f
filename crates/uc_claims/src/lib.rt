//! Slots that threads claim for a compaction, by one atomic word for each slot.
//!
//! A [`ClaimTable`] has a word for each of its slots: 0 while the slot is free, 1 while somebody has it. A thread acts
//! through a [`Seat`], a token without bytes: it takes slots, which turns the seat into [`HeldSlots`], and gives them
//! back. No call takes a lock or waits for another thread. Proved for every interleaving of any number of seats: a word
//! counts how often its slot is in the lists of all seats, which is at most once. So no slot is ever in two seats'
//! lists ([`laws::no_slot_in_two_lists`]).
//!
//! Read `rule.rt` first, for the rule and the kinds of step that keep it, then `table.rt`.
//!
//! An `Err(AllocError)` comes only if an allocation fails.
//!
//! Tests: `tests/slots.py`, `uc_tests_threads`.
#![tactic(auto)]

mod busy;
mod held_slots;
pub mod laws;
mod rule;
mod seat;
mod slot_set;
mod table;

pub use busy::Busy;
pub use held_slots::HeldSlots;
pub use seat::Seat;
pub use table::{ClaimTable, MOST_SLOTS};
