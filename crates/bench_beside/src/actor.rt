//! [`Actor`]: a thread that uses a store.
ghost use Rattle.std.specs.Prelude.{◌≡◌, All, IfSome};
ghost use Rattle.std.proofs.Props.{props};

use crate::drawn::Numbers;
use crate::plan::Plan;
use std::alloc::Global;
use std::marker::PhantomData;
use std::sync::Wait;
use uc_oper::Counter;
use uc_share::{Compactor, Name, Reader, Seat, Store};

/// A reader of a store of counters.
pub(crate) type Reads<N> = Reader<Counter, N>;

/// A seat of the store `N`, which may be in use by a claim.
pub(crate) struct Place<N: Name> {
    seat: Option<Seat>,
    of: PhantomData<N>,
    ghost free: { IfSome seat (λ seat. seat.table ≡ N.table) } by { Prim.hlevel props },
}

impl<N: Name> Drop for Place<N> {
    fn drop(self) {
        let Place { seat: _, of: _ } = self;
    }
}

impl<N: Name> Place<N> {
    /// Returns a free seat.
    fn of(seat: Seat) -> Place<N>
        requires { seat.table ≡ N.table }
    {
        Place {
            seat: Some(seat),
            of: PhantomData,
        }
    }

    /// Takes the seat, if it is free.
    pub(crate) fn take(&mut self) -> Option<Seat>
        ensures { IfSome result (λ seat. seat.table ≡ N.table) }
    {
        self.seat.take()
    }

    /// Puts the seat back.
    pub(crate) fn put(&mut self, seat: Seat)
        requires { seat.table ≡ N.table }
    {
        self.seat = Some(seat);
    }
}

/// A thread's role in a store.
#[derive(Drop)]
pub(crate) enum Actor<N: Name> {
    /// Compacts picks until nothing is picked and, if there are feeders, these have ended.
    Compactor(Compactor<Counter, N>),
    /// Compacts all runs into one, two at a time.
    Installer(Reads<N>, Place<N>),
    /// Answers the queries as one batch.
    Batch(Vec<Reads<N>>),
    /// Feeds the batches, and keeps the last sequence number. The number is the one kept last.
    Feeder(Reads<N>, u64),
    /// Looks up random keys.
    Drawer(Reads<N>, Numbers),
    /// Pins.
    Pinner(Reads<N>),
}

/// Adds a compactor or an installer with the next seat, if there is one.
fn push_changer<N: Name, W: Wait + Drop>(
    actors: &mut Vec<Actor<N>>,
    store: &Store<Counter, N, W>,
    plan: Plan,
    readers: &mut Vec<Reads<N>>,
    seats: &mut Vec<Seat>,
) -> Option<()>
    requires table { store.now.table ≡ N.table }
    requires seats { All (λ seat. seat.table ≡ N.table) seats.old.items }
    ensures { All (λ seat. seat.table ≡ N.table) seats.new.items }
{
    let Some(seat) = seats.pop() else {
        return Some(());
    };
    let reader = readers.pop()?;
    let actor = if plan.installers > 0 {
        Actor::Installer(reader, Place::of(seat))
    } else {
        Actor::Compactor(store.compactor(reader, seat))
    };
    actors.push(actor).ok()
}

/// Returns an actor that answers a batch by the last `count` of these readers.
pub(crate) fn batch_of<N: Name>(readers: &mut Vec<Reads<N>>, count: usize) -> Option<Actor<N>> {
    let rest = readers.len().checked_sub(count)?;
    Some(Actor::Batch(readers.split_off(rest).ok()?))
}

/// Returns the actor of a reader, by its index among the feeders, the actors that look up keys, and those that pin.
fn actor_at<N: Name>(plan: Plan, place: usize, reader: Reads<N>) -> Actor<N> {
    if place < plan.feeders {
        Actor::Feeder(reader, 0)
    } else if place < plan.feeders.saturating_add(plan.drawers) {
        Actor::Drawer(reader, Numbers::new((place as u64).wrapping_add(1)))
    } else {
        Actor::Pinner(reader)
    }
}

/// Adds the actors that answer a batch, feed, look up keys and pin.
fn push_readers<N: Name>(
    actors: &mut Vec<Actor<N>>,
    plan: Plan,
    readers: &mut Vec<Reads<N>>,
) -> Option<()> {
    if plan.batch > 0 {
        actors.push(batch_of(readers, plan.batch)?).ok()?;
    }
    for place in 0..plan.lone_readers() {
        actors.push(actor_at(plan, place, readers.pop()?)).ok()?;
    }
    Some(())
}

/// Returns the actors of a plan. Those that compact or install come first, and are two at most.
pub(crate) fn actors_of<N: Name, W: Wait + Drop>(
    alloc: Global,
    store: &Store<Counter, N, W>,
    plan: Plan,
    readers: &mut Vec<Reads<N>>,
    seats: &mut Vec<Seat>,
) -> Option<Vec<Actor<N>>>
    requires table { store.now.table ≡ N.table }
    requires seats { All (λ seat. seat.table ≡ N.table) seats.old.items }
{
    let mut actors = Vec::new(alloc);
    push_changer(&mut actors, store, plan, readers, seats)?;
    push_changer(&mut actors, store, plan, readers, seats)?;
    push_readers(&mut actors, plan, readers)?;
    Some(actors)
}
