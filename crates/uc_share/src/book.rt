//! [`Book`]: a store's history, and the right to add to it.
ghost use Rattle.std.specs.Prelude.{◌≡◌, ◌++◌, ◌∷◌, [], None};
ghost use Rattle.std.specs.Bool.{OnTrue, OnFalse};
ghost use Rattle.uc_share.specs.Rules.{head_of};

use crate::front::Front;
use crate::name::Name;
use crate::rule::Law;
use logbook::{Plain, Seen, Start, Word};
use std::marker::Model;
use uc_version_state::Event;

/// The most events of a history: more than a store that runs for a thousand years has.
const MOST_EVENTS: u64 = 1 << 61;

/// A history without an event, which has no name yet.
#[derive(Drop)]
pub struct EmptyHistory {
    head: Word<Event, u64, Law>,
    pub(crate) seen: Seen<Event, u64, Law>,
    pub ghost empty: { seen.log ≡ [] },
    pub ghost head_is: { head ≡ head_of seen.book },
}

impl EmptyHistory {
    /// A history without an event.
    pub fn new() -> EmptyHistory {
        let (seen, mut first, _second) = Seen::open(Start::alone(), 0, 0);
        EmptyHistory {
            head: Word::tracked(0, &mut first),
            seen,
        }
    }

    /// The history under its name.
    pub fn named<N: Name>(self) -> Book<N>
        requires { self.seen.book ≡ N.book }
        ensures { result ≡ [] }
    {
        let EmptyHistory { head, seen } = self;
        Book {
            head,
            front: Front::of(0, seen),
        }
    }
}

/// A store's history, and the right to add to it. There is one of a store, which stands with what shows readers the versions, so
/// an event enters the history nowhere else. Contracts see it as its events.
#[derive(Drop)]
pub struct Book<N: Name> {
    head: Word<Event, u64, Law>,
    front: Front<N>,
}

impl<N: Name> Model for Book<N> {
    ghost use Rattle.std.specs.Prelude.{◌≡◌, List};
    ghost use Rattle.uc_share.specs.Rules.{head_of};
    ghost use Rattle.uc_version_state.specs.declared.event.Event.{Event};

    ghost Value = { List Event };

    ghost view = { λ b. b.front };

    ghost invariant = { λ b. b.head ≡ head_of N.book };
}

impl<N: Name> Book<N> {
    /// All of its events.
    pub fn front(&self) -> &Front<N>
        ensures { result.now ≡ self.now }
    {
        &self.front
    }

    /// Adds the event that `about` describes, and returns whether it did. It does not if there are [`MOST_EVENTS`], or if an event
    /// was added elsewhere, which nobody can do.
    pub(crate) fn add<X, M: Plain<X, Event, u64>>(&mut self, about: &X) -> bool
        requires { M.state about.now ≡ None }
        ensures added { OnTrue result (self.new ≡ self.old ++ M.ask about.now ∷ []) }
        ensures as_it_was { OnFalse result (self.new ≡ self.old) }
    {
        let mut front = self.front.again();
        if front.len() >= MOST_EVENTS || !front.add::<X, M>(&self.head, about) {
            return false;
        }
        self.front = front;
        true
    }
}
