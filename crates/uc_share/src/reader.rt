//! [`Reader`]: what pins versions.
ghost use Rattle.std.specs.Prelude.{◌≡◌, ◌≤◌, [], length, fold, true, IfOk, OnErr};
ghost use mathlib.Core.List.{IsPrefix};
ghost use Rattle.left_right.specs.Sides.{view};
ghost use Rattle.uc_version_state.specs.Histories.{KeepsStay, MayFollow, after};
ghost use Rattle.uc_share.specs.Fronts.{moment};

use crate::front::Front;
use crate::name::Name;
use crate::pin::Pin;
use crate::rule::{Rises, Sees};
use crate::shown::Shown;
use left_right::reader;
use std::alloc::AllocError;
use std::marker::Model;
use std::sync::Wait;
use uc_oper::Operator;

/// A reader's place at what is shown.
pub(crate) type Place<O, N> = reader::Reader<Shown, u64, Rises<O, N>>;

/// A thread's reader. It pins versions, and has seen a beginning of the store's history. Contracts see that beginning: the
/// events since the version that the store was opened with. It is legal after every history with which that version stands.
pub struct Reader<O: Operator, N: Name> {
    place: Option<Place<O, N>>,
    front: Front<N>,
    number: usize,
}

impl<O: Operator, N: Name> Model for Reader<O, N> {
    ghost use Rattle.std.specs.Prelude.{◌≤◌, ◌≢◌, List, None, length, IfSome};
    ghost use Rattle.left_right.specs.Sides as sides;
    ghost use Rattle.uc_version_state.specs.declared.event.Event.{Event};
    ghost use Rattle.uc_share.specs.Fronts.{AreSeen};

    ghost Value = { List Event };

    ghost view = { λ r. r.front };

    ghost invariant = { λ r. (r.place ≢ None) × IfSome r.place (λ p. length r.front ≤ sides.view p.place)
        × AreSeen O.meaning N.keeps_stay N.base r.front };
}

// A destructor of its own: where a value is dropped, the proof of a caller has one call, and not one for each field.
impl<O: Operator, N: Name> Drop for Reader<O, N> {
    fn drop(self) {
        let Reader {
            place: _,
            front: _,
            number: _,
        } = self;
    }
}

/// Looks at what is shown, and pins it for the reader with this number. It waits for nobody.
fn look<O: Operator, N: Name>(
    place: Place<O, N>,
    number: usize,
) -> (Place<O, N>, Result<Pin<O, N>, AllocError>)
    ensures rises { view place.place ≤ view result.0.place }
    ensures all { IfOk result.1 (λ pin. view result.0.place ≡ length pin.events) }
{
    match place.enter_as::<Sees<O, N>>() {
        Err(place) => (place, Err(AllocError)),
        Ok(reading) => {
            let pin = reading.get().pin::<O, N>(number);
            (reading.leave(), pin)
        }
    }
}

impl<O: Operator, N: Name> Reader<O, N> {
    /// A reader that has seen the store's opening. Of its number only the speed depends: readers of one number have one share of
    /// each version.
    pub(crate) fn new(place: Place<O, N>, front: Front<N>, number: usize) -> Reader<O, N>
        requires { front ≡ [] }
        ensures { result ≡ [] }
    {
        Reader {
            place: Some(place),
            front,
            number,
        }
    }

    /// The events that it has seen are legal, and no keep came or went in them if the store's keeps stay. It does nothing.
    pub fn recall(&self)
        ensures legal { MayFollow O.meaning N.base self.now }
        ensures keeps { N.keeps_stay ≡ true → KeepsStay self.now }
    {
        let _ = &self.front;
    }

    /// The part of the history that it has seen.
    pub fn front(&self) -> &Front<N>
        ensures { result.now ≡ self.now }
    {
        &self.front
    }

    /// Pins the current version: the one after a history that begins with all that this reader had seen. It never waits. Fails if
    /// the version has too many owners, and the reader has seen no more then.
    pub fn pin(&mut self) -> Result<Pin<O, N>, AllocError>
        ensures seen { IsPrefix self.old self.new }
        ensures legal { MayFollow O.meaning N.base self.new }
        ensures pinned { IfOk result (λ pin. pin ≡ moment N.book (fold after N.base self.new) self.new) }
        ensures refused { OnErr result (self.new ≡ self.old) }
    {
        self.recall();
        let Some(place) = self.place.take() else {
            unreachable!()
        };
        let (place, pin) = look(place, self.number);
        self.place = Some(place);
        let pin = pin?;
        let front = pin.front();
        self.front.recall_prefix(&front);
        self.front = front;
        Ok(pin)
    }

    /// Pins the current version, as [`pin`](Reader::pin) does. A failed pin is tried again.
    pub(crate) fn pin_at_last(&mut self, rt: &impl Wait) -> Pin<O, N>
        ensures seen { IsPrefix self.old self.new }
        ensures legal { MayFollow O.meaning N.base self.new }
        ensures pinned { result ≡ moment N.book (fold after N.base self.new) self.new }
    {
        self.recall();
        for _ in rt.forever() {
            if let Ok(pin) = self.pin() {
                return pin;
            }
        }
        unreachable!()
    }

    /// Pins until it has seen `shown`, the front of what is shown. If the caller has the publisher, nothing else can be shown, so
    /// that the first turn is the last; a failed pin is tried again.
    pub fn sees(&mut self, rt: &impl Wait, shown: &Front<N>)
        ensures seen { IsPrefix self.old self.new }
        ensures legal { MayFollow O.meaning N.base self.new }
        ensures all { self.new ≡ shown.now }
    {
        self.recall();
        for _ in rt.forever() {
            if self.pin().is_ok() && self.front.is_same(shown) {
                return;
            }
        }
    }
}
