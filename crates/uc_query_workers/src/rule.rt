//! The rule of the counter of pieces, and the four kinds of step that keep it.
//!
//! The word is the number of draws. The lists of all seats together hold the numbers below it, each once. A seat has parts,
//! as many in all as there are workers: a split gives one of them to the new seat, and a join adds them. A seat without parts
//! has an empty list, and each list has at most as many numbers at or above the number of pieces as its seat has parts.
//!
//! | Kind of step | Made by | What it does |
//! |---|---|---|
//! | draw | `PieceCounter::draw` | the word grows by one, and what it was is appended to the seat's list |
//! | look | `PieceCounter::recall_all_drawn` | reads the word, and changes nothing |
//! | split | `PieceCounter::split` | the seat has a part less, and there is a new seat with one part and an empty list |
//! | join | `PieceCounter::join` | one seat takes in the parts and the list of the other, which has none then |
use atomic_table::{Join, Play, Split, TableRule};
use std::collections::LinkedList;

/// The state of a seat: the number of parts of all seats together, its own parts, and the numbers that it drew, in their order.
/// It exists in proofs alone, and no value of it is made.
pub struct Drawer {
    pub all: u64,
    pub parts: u64,
    pub numbers: LinkedList<u64>,
}

/// The number of pieces to draw, and of workers that draw them.
#[derive(Clone, Copy, Drop)]
pub struct Shares {
    pub pieces: u64,
    pub workers: u64,
}

/// The rule over the word and the seats' states. Its parameters are the numbers of pieces and workers.
pub struct DrawRule;

impl TableRule<(), Drawer, Shares> for DrawRule {
    ghost use Rattle.uc_query_workers.specs.Draws.{first_drawer, Draws};

    ghost holds = { λ shares s. Draws shares s.words s.views };

    ghost first = { λ shares. first_drawer shares.workers };
}

/// An addition of one.
pub(crate) struct Draw;

impl Play<(), Drawer> for Draw {
    ghost use Rattle.uc_query_workers.specs.Draws.{Drew};

    ghost then = { Drew };
}

/// A load.
pub(crate) struct Look;

impl Play<(), Drawer> for Look {
    ghost use Rattle.uc_query_workers.specs.Draws.{Looked};

    ghost then = { Looked };
}

/// The seat gives one of its parts to the new one, which has taken nothing.
pub(crate) struct OnePart;

impl Split<Drawer> for OnePart {
    ghost use Rattle.uc_query_workers.specs.Draws.{one_part_less, one_part};

    ghost left = { one_part_less };

    ghost right = { one_part };
}

/// The seat takes in the other's parts and its list, and the other has none.
pub(crate) struct IntoOne;

impl Join<Drawer> for IntoOne {
    ghost use Rattle.uc_query_workers.specs.Draws.{joined, spent};

    ghost both = { joined };

    ghost spent = { spent };
}
