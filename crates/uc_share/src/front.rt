//! [`Front`]: a beginning of a store's history that was seen.
ghost use Rattle.std.specs.Prelude.{◌≡◌, ◌<◌, ◌≤◌, ◌^◌, ◌++◌, ◌∷◌, [], None, length, ◌↔◌, IsTrue};
ghost use Rattle.std.specs.Bool.{OnTrue};
ghost use mathlib.Core.List.{IsPrefix};
ghost use Rattle.uc_share.specs.Rules.{head_of};

use crate::name::Name;
use crate::rule::{Add, Law, Nothing};
use logbook::{Offer, Plain, Seen, Word};
use std::marker::{Model, PhantomData};
use uc_version_state::Event;

/// A beginning of the history that was seen. Contracts see it as its events, of which no list is kept.
#[derive(Drop)]
pub struct Front<N: Name> {
    pub(crate) count: u64,
    pub(crate) seen: Seen<Event, u64, Law>,
    pub(crate) of: PhantomData<N>,
}

impl<N: Name> Model for Front<N> {
    ghost use Rattle.std.specs.Prelude.{◌≡◌, List, length};
    ghost use Rattle.uc_version_state.specs.declared.event.Event.{Event};

    ghost Value = { List Event };

    ghost view = { λ f. f.seen.log };

    ghost invariant = { λ f. (f.count ≡ length f.seen.log) × (f.seen.book ≡ N.book) };
}

impl<N: Name> Front<N> {
    /// The part of a history that was seen, which has `count` events.
    pub(crate) fn of(count: u64, seen: Seen<Event, u64, Law>) -> Front<N>
        requires count { count ≡ length seen.log }
        requires book { seen.book ≡ N.book }
        ensures { result ≡ seen.log }
    {
        Front {
            count,
            seen,
            of: PhantomData,
        }
    }

    /// The number of events.
    pub fn len(&self) -> u64
        ensures { result ≡ length self.now }
    {
        self.count
    }

    /// A copy.
    pub fn again(&self) -> Front<N>
        ensures { result ≡ self.now }
    {
        Front {
            count: self.count,
            seen: self.seen.again(),
            of: PhantomData,
        }
    }

    /// Of two fronts of one history the one that isn't longer begins the other. It does nothing.
    pub fn recall_prefix(&self, other: &Front<N>)
        requires { length self.now ≤ length other.now }
        ensures { IsPrefix self.now other.now }
    {
        let mut both = self.seen.again();
        both.learn(&other.seen);
    }

    /// Whether two fronts of one history have seen the same.
    pub fn is_same(&self, other: &Front<N>) -> bool
        ensures { IsTrue result ↔ (self.now ≡ other.now) }
    {
        if self.len() != other.len() {
            return false;
        }
        self.recall_prefix(other);
        true
    }

    /// Adds the event that `about` says to all that was seen, by the word that counts the history, and says whether it did. It
    /// does not if the history is longer.
    pub(crate) fn add<X, M: Plain<X, Event, u64>>(
        &mut self,
        head: &Word<Event, u64, Law>,
        about: &X,
    ) -> bool
        requires head { head.now ≡ head_of N.book }
        requires plain { M.state about.now ≡ None }
        requires room { length self.old < 2 ^ 62 }
        ensures { OnTrue result (self.new ≡ self.old ++ M.ask about.now ∷ []) }
    {
        let mut offer: Offer<Event, u64, Law, Nothing> = self.seen.plain::<Nothing, X, M>(about);
        let mut pen = self.seen.no_pen();
        let count = self.count;
        let found = head.compare_exchange::<Add, Nothing>(
            count,
            count + 1,
            &mut self.seen,
            &mut offer,
            &mut pen,
        );
        self.count = if found == count { count + 1 } else { found };
        found == count
    }
}
