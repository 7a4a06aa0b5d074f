//! [`Pin`]: a version that a reader holds on to.
ghost use Rattle.std.specs.Prelude.{◌≡◌, ◌≤◌, length};
ghost use mathlib.Core.List.{IsPrefix};
ghost use Rattle.uc_share.specs.Fronts.{moment, IsMoment};

use crate::front::Front;
use crate::name::Name;
use crate::share::Share;
use std::marker::{Model, PhantomData};
use uc_oper::Operator;
use uc_version_state::Version;

/// A version that a reader holds on to, whatever is shown later, with the history that leads to it. Contracts see both, and not
/// where the version is shared.
pub struct Pin<O: Operator, N: Name> {
    share: Share,
    front: Front<N>,
    of: PhantomData<O>,
}

impl<O: Operator, N: Name> Model for Pin<O, N> {
    ghost use Rattle.uc_share.specs.Fronts.{Moment, moment, IsMoment};

    ghost Value = { Moment };

    ghost view = { λ p. moment N.book p.share p.front };

    ghost invariant = { λ p. IsMoment O.meaning N.keeps_stay N.book N.base (moment N.book p.share p.front) };
}

// A destructor of its own: where a value is dropped, the proof of a caller has one call, and not one for each field.
impl<O: Operator, N: Name> Drop for Pin<O, N> {
    fn drop(self) {
        let Pin {
            share: _,
            front: _,
            of: _,
        } = self;
    }
}

impl<O: Operator, N: Name> Pin<O, N> {
    /// Holds on to a version, to which this history leads.
    pub(crate) fn new(share: Share, front: Front<N>) -> Pin<O, N>
        requires { IsMoment O.meaning N.keeps_stay N.book N.base (moment N.book share front) }
        ensures { result ≡ moment N.book share front }
    {
        Pin {
            share,
            front,
            of: PhantomData,
        }
    }

    /// The version.
    pub fn version(&self) -> &Version
        ensures { result.now ≡ self.now.version }
    {
        self.share.version()
    }

    /// The history that leads to it.
    pub fn front(&self) -> Front<N>
        ensures { result ≡ self.now.events }
    {
        self.front.again()
    }

    /// The version is the one after its history, which is legal after the store's opening. It does nothing.
    pub fn recall(&self)
        ensures { IsMoment O.meaning N.keeps_stay N.book N.base self.now }
    {
        let _ = &self.share;
    }

    /// A history that isn't shorter begins with the pin's. It does nothing.
    pub fn recall_prefix(&self, front: &Front<N>)
        requires { length self.now.events ≤ length front.now }
        ensures { IsPrefix self.now.events front.now }
    {
        self.front.recall_prefix(front);
    }
}
