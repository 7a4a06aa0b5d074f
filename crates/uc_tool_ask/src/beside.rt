//! [`Beside`]: what is done to a store while queries are answered.
ghost use denote.Param.Send.{IsSync, IsSend};
ghost use Rattle.std.specs.Prelude.{◌≡◌};

use crate::crew::all_installs;
use crate::feeder::{Feeder, feed_all};
use std::alloc::Global;
use std::marker::{Send, Sync};
use std::mem;
use std::sync::Wait;
use std::thread::{Threads, join};
use uc_oper::Operator;
use uc_share::{Compactor, Name, Store, TurnGate};

/// The counts of changes of a store while its queries were answered.
#[derive(Clone, Copy, Debug, PartialEq, Eq)]
pub struct Beside {
    /// The number of installs that its compactors made.
    pub installs: u64,
    /// The number of writes that were fed to it.
    pub fed: u64,
    /// The number of writes that weren't fed, since the store rejected one, or allocation failed.
    pub left: u64,
}

impl Beside {
    /// Nothing was done.
    pub(crate) fn nothing() -> Beside
        ensures { result ≡ record { installs = 0; fed = 0; left = 0 } }
    {
        Beside {
            installs: 0,
            fed: 0,
            left: 0,
        }
    }
}

/// The threads that run with the workers: a crew of compactors, and a feeder, if there is one.
#[derive(Drop)]
pub(crate) struct Helpers<O: Operator, N: Name> {
    pub(crate) crew: Vec<Compactor<O, N>>,
    pub(crate) feeder: Option<Feeder<O, N>>,
}

/// Lets a crew compact while a feeder feeds, if there is one. Where no thread can be made, the crew compacts first. All have
/// ended then, and none is left.
pub(crate) fn work_beside<O, N, W, G, R>(
    rt: &R,
    alloc: Global,
    store: &Store<O, N, W>,
    gate: &G,
    helpers: &mut Helpers<O, N>,
) -> Beside
where
    O: Operator + Send + Sync,
    N: Name + Send + Sync,
    W: Wait + Drop + Send,
    G: TurnGate,
    R: Threads + Wait + Sync,
{
    let Some(feeder) = helpers.feeder.take() else {
        return Beside {
            installs: all_installs(rt, alloc, store, gate, &mut helpers.crew),
            fed: 0,
            left: 0,
        };
    };
    let Feeder { mut reader, writes } = feeder;
    let count = writes.len() as u64;
    let mut crew = mem::replace(&mut helpers.crew, Vec::new(alloc));
    let (fed, installs) = join(
        rt,
        move || -> u64 { feed_all(rt, alloc, store, &mut reader, writes) },
        move || -> u64 { all_installs(rt, alloc, store, gate, &mut crew) },
    );
    Beside {
        installs,
        fed,
        left: count.saturating_sub(fed),
    }
}
