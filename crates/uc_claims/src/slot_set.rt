//! [`SlotSet`]: a set of slots, one bit each.
ghost use Rattle.std.specs.Prelude.{◌≡◌, ◌≢◌, ℕ, ◌<◌, ◌↔◌, IsTrue, IfSome, IfNone};
ghost use Rattle.std.specs.Int.{bit_at};
ghost use Rattle.uc_claims.specs.Claims.{slot_bit};

use crate::table::MOST_SLOTS;

/// The number of slots in a group.
const BITS: usize = 64;

/// The number of groups.
const GROUPS: usize = MOST_SLOTS / BITS;

/// A set of slots. Each take and give moves it, so it is only a few numbers.
#[derive(Drop)]
pub(crate) struct SlotSet {
    groups: [u64; GROUPS],
}

impl SlotSet {
    /// The set without slots.
    pub(crate) fn none() -> SlotSet
        ensures { (slot : ℕ) → slot_bit result.groups slot ≡ 0 }
    {
        SlotSet {
            groups: [0; GROUPS],
        }
    }

    /// Whether the slot is in the set. It is `false` for a slot that no table has.
    pub(crate) fn has(&self, slot: usize) -> bool
        ensures { IsTrue result ↔ (slot_bit self.now.groups slot ≡ 1) }
    {
        match self.groups.get(slot / BITS) {
            Some(bits) => has_bit(*bits, slot % BITS),
            None => false,
        }
    }

    /// Puts the slot into the set.
    pub(crate) fn add(&mut self, slot: usize)
        requires { slot < MOST_SLOTS }
        ensures same { slot_bit self.new.groups slot ≡ 1 }
        ensures others { (k : ℕ) → k ≢ slot → slot_bit self.new.groups k ≡ slot_bit self.old.groups k }
    {
        self.groups[slot / BITS] = with_bit(self.groups[slot / BITS], slot % BITS);
    }

    /// Takes the slot out of the set.
    pub(crate) fn remove(&mut self, slot: usize)
        requires { slot < MOST_SLOTS }
        ensures same { slot_bit self.new.groups slot ≡ 0 }
        ensures others { (k : ℕ) → k ≢ slot → slot_bit self.new.groups k ≡ slot_bit self.old.groups k }
    {
        self.groups[slot / BITS] = without_bit(self.groups[slot / BITS], slot % BITS);
    }

    /// One of the slots in the set, if there is any.
    pub(crate) fn any(&self) -> Option<usize>
        ensures some { IfSome result (λ slot. slot_bit self.now.groups slot ≡ 1) }
        ensures none { IfNone result ((slot : ℕ) → slot_bit self.now.groups slot ≡ 0) }
    {
        for (group, bits) in self.groups.iter().enumerate() {
            if *bits != 0 {
                return Some(group * BITS + lowest_bit(*bits));
            }
        }
        None
    }
}

/// Whether a bit of a group is set.
fn has_bit(bits: u64, place: usize) -> bool
    requires { place < BITS }
    ensures { IsTrue result ↔ (bit_at bits place ≡ 1) }
{
    bits & (1 << place) != 0
}

/// A group with one bit set.
fn with_bit(bits: u64, place: usize) -> u64
    requires { place < BITS }
    ensures same { bit_at result place ≡ 1 }
    ensures others { (k : ℕ) → k ≢ place → bit_at result k ≡ bit_at bits k }
{
    bits | (1 << place)
}

/// A group with one bit not set.
fn without_bit(bits: u64, place: usize) -> u64
    requires { place < BITS }
    ensures same { bit_at result place ≡ 0 }
    ensures others { (k : ℕ) → k < BITS → k ≢ place → bit_at result k ≡ bit_at bits k }
{
    bits & !(1 << place)
}

/// The least bit of a group that is set.
fn lowest_bit(bits: u64) -> usize
    requires { 0 < bits }
    ensures { (result < BITS) × (bit_at bits result ≡ 1) }
{
    bits.trailing_zeros() as usize
}
