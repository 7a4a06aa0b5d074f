//! [`Shown`]: what readers are shown.
ghost use Rattle.std.specs.Prelude.{◌≡◌, IfOk};
ghost use Rattle.std.specs.Arc.{arc_value};
ghost use Rattle.uc_share.specs.Fronts.{moment, IsMoment};

use crate::front::Front;
use crate::name::Name;
use crate::pin::Pin;
use crate::rule::Law;
use crate::share::Shares;
use left_right::Absorb;
use logbook::Seen;
use std::alloc::AllocError;
use std::marker::{Model, PhantomData};
use std::sync::Arc;
use uc_oper::Operator;
use uc_version_state::{Event, Version};

/// The version that readers are shown, with the history that leads to it from the store's opening. Contracts see both, and which
/// store's history it is. That it leads there is the rule of what is shown. Each reader has a share of the version of its own.
#[derive(Drop)]
pub struct Shown {
    shares: Arc<Shares>,
    count: u64,
    seen: Seen<Event, u64, Law>,
}

impl Model for Shown {
    ghost use Rattle.std.specs.Prelude.{◌≡◌, length};
    ghost use Rattle.std.specs.Arc.{arc_value};
    ghost use Rattle.uc_share.specs.Fronts.{Moment, moment};

    ghost Value = { Moment };

    ghost view = { λ s. moment s.seen.book (arc_value s.shares) s.seen.log };

    ghost invariant = { λ s. s.count ≡ length s.seen.log };
}

impl Shown {
    /// A version, shared out, with the history that leads to it.
    pub(crate) fn new<N: Name>(shares: Arc<Shares>, front: Front<N>) -> Shown
        ensures { result ≡ moment N.book (arc_value shares) front }
    {
        let Front { count, seen, of: _ } = front;
        Shown {
            shares,
            count,
            seen,
        }
    }

    /// A copy, which has the same shares. It fails only if too many hold them.
    pub(crate) fn again(&self) -> Result<Shown, AllocError>
        ensures { IfOk result (λ copy. copy ≡ self.now) }
    {
        Ok(Shown {
            shares: self.shares.clone()?,
            count: self.count,
            seen: self.seen.again(),
        })
    }

    /// The number of readers that have a share of their own.
    pub(crate) fn readers(&self) -> usize {
        self.shares.readers()
    }

    /// A pin of the version for the reader with this number. It fails only if its pins of this version are too many.
    pub(crate) fn pin<O: Operator, N: Name>(&self, number: usize) -> Result<Pin<O, N>, AllocError>
        requires { IsMoment O.meaning N.keeps_stay N.book N.base self.now }
        ensures { IfOk result (λ pin. pin ≡ self.now) }
    {
        let share = self.shares.of(number).again()?;
        Ok(Pin::new(share, self.front::<N>()))
    }

    /// The version.
    pub fn version(&self) -> &Version
        ensures { result.now ≡ self.now.version }
    {
        self.shares.version()
    }

    /// The history that leads to it.
    pub fn front<N: Name>(&self) -> Front<N>
        requires { self.now.book ≡ N.book }
        ensures { result ≡ self.now.events }
    {
        Front::of(self.count, self.seen.again())
    }
}

/// The next version takes the place of the shown one, whole.
impl Absorb<Shown> for Shown {
    type State = Shown;

    ghost state = { λ s. s };

    ghost applied = { λ old next. next };

    fn absorb_first(&mut self, operation: &Shown, _other: &Shown) -> Result<(), AllocError> {
        let next = operation.again()?;
        *self = next;
        Ok(())
    }
}
