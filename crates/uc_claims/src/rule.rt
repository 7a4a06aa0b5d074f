//! The rule of the claim words, and the seven kinds of step that keep it.
//!
//! Each word is 0 or 1, and counts how often its slot is in the lists of all seats together. A slot past the last word
//! is in no list. A whole seat, one that was never split, is the only seat.
//!
//! | Kind of step | Made by | What it does |
//! |---|---|---|
//! | won exchange | `ClaimTable::try_take` | the word goes from 0 to 1, and the slot is appended to the seat's list |
//! | lost exchange | `ClaimTable::try_take` | the word was 1 and stays, and so does the list |
//! | give | `ClaimTable::free` | the word goes from 1 to 0, and the slot leaves the seat's list |
//! | look | `ClaimTable::busy` | reads the word, and changes nothing |
//! | split | `ClaimTable::split` | the seat is not whole any more, and there is a new seat with an empty list |
//! | join | `ClaimTable::join` | one seat takes in the list of the other, whose list is then empty |
//! | close | `ClaimTable::close` | reads all words once no thread shares the table |
//!
//! A step changes the list of the one seat that makes it; split and join change those of the two that they name. A seat
//! that is dropped keeps its list among the lists, so its slots stay taken.
use atomic_table::{Join, Play, Split, TableRule};
use std::collections::LinkedList;

/// The state of a seat: whether it was never split, and the slots that it holds, in the order in which they
/// were taken. It exists in proofs alone, and no value of it is made.
pub struct Claimant {
    pub whole: bool,
    pub slots: LinkedList<usize>,
}

/// The rule over the words and the seats' states. Its parameter is the number of slots.
pub struct ClaimRule;

impl TableRule<(), Claimant, usize> for ClaimRule {
    ghost use Rattle.uc_claims.specs.Claims.{newcomer, Claims};

    ghost holds = { λ count s. Claims count s.words s.views };

    ghost first = { λ _. newcomer };
}

/// An exchange of 0 for 1, won or lost.
pub(crate) struct Exchange;

impl Play<(), Claimant> for Exchange {
    ghost use Rattle.uc_claims.specs.Claims.{Exchanged};

    ghost then = { Exchanged };
}

/// A store of 0.
pub(crate) struct Give;

impl Play<(), Claimant> for Give {
    ghost use Rattle.uc_claims.specs.Claims.{Gave};

    ghost then = { Gave };
}

/// A load.
pub(crate) struct Look;

impl Play<(), Claimant> for Look {
    ghost use Rattle.uc_claims.specs.Claims.{Looked};

    ghost then = { Looked };
}

/// The seat keeps its list, and the new one has none. Neither is whole.
pub(crate) struct InTwo;

impl Split<Claimant> for InTwo {
    ghost use Rattle.uc_claims.specs.Claims.{claimant};
    ghost use Rattle.std.specs.Prelude.{false, []};

    ghost left = { λ v. claimant false v.slots };

    ghost right = { λ _. claimant false [] };
}

/// The seat takes in the other's list, and the other has none.
pub(crate) struct IntoOne;

impl Join<Claimant> for IntoOne {
    ghost use Rattle.uc_claims.specs.Claims.{claimant};
    ghost use Rattle.std.specs.Prelude.{false, [], ◌++◌};

    ghost both = { λ v w. claimant false (v.slots ++ w.slots) };

    ghost spent = { claimant false [] };
}
