//! A crew of compactors, which compact what is picked, as long as anything is.
ghost use denote.Param.Send.{IsSync, IsSend};
ghost use Rattle.std.specs.Prelude.{◌≡◌, ◌+◌, ◌≤◌, All, OnOk, vec_len};

use std::alloc::{AllocError, Global};
use std::marker::{Send, Sync};
use std::mem;
use std::sync::Wait;
use std::thread::{Threads, map_vec};
use uc_oper::Operator;
use uc_share::{Compactor, Name, Reader, Seat, Store, Turn, TurnGate};

/// The most turns of a compactor.
const TURNS: usize = 256;

/// A crew for the seats of a store, each with one of the readers. As many readers are left as there were more.
pub(crate) fn crew_of<O: Operator, N: Name, W: Wait + Drop>(
    alloc: Global,
    store: &Store<O, N, W>,
    readers: &mut Vec<Reader<O, N>>,
    seats: Vec<Seat>,
) -> Result<Vec<Compactor<O, N>>, AllocError>
    requires tables { All (λ seat. seat.table ≡ store.now.table) seats.items }
    requires enough { vec_len seats ≤ vec_len readers.old }
    ensures { OnOk result (vec_len readers.new + vec_len seats ≡ vec_len readers.old) }
{
    let mut crew = Vec::with_capacity(alloc, seats.len())?;
    for seat in seats {
        let Some(reader) = readers.pop() else {
            unreachable!()
        };
        crew.push(store.compactor(reader, seat))?;
    }
    Ok(crew)
}

/// The number of compactions that a compactor installs: it takes turns until nothing is picked, a compaction isn't installed, or its turns
/// are over.
fn installs_of<O: Operator + Sync, N: Name, W: Wait + Drop, G: TurnGate>(
    rt: &(impl Threads + Wait + Sync),
    alloc: Global,
    store: &Store<O, N, W>,
    gate: &G,
    mut compactor: Compactor<O, N>,
) -> u64 {
    let mut installs = 0_u64;
    for _ in 0..TURNS {
        match store.turn_through(rt, alloc, &mut compactor, gate) {
            Ok(Turn::Installed) => installs = installs.saturating_add(1),
            Ok(Turn::Late(_)) => {}
            Ok(Turn::Idle) | Err(_) => return installs,
        }
    }
    installs
}

/// The number of compactions that a crew of compactors installs, each in a thread of its own if one can be made, and else after another.
/// All have ended then, and the crew is empty. None is counted if the list of numbers has no memory.
pub(crate) fn all_installs<O, N, W, G, R>(
    rt: &R,
    alloc: Global,
    store: &Store<O, N, W>,
    gate: &G,
    crew: &mut Vec<Compactor<O, N>>,
) -> u64
where
    O: Operator + Send + Sync,
    N: Name + Send + Sync,
    W: Wait + Drop + Send,
    G: TurnGate,
    R: Threads + Wait + Sync,
{
    let crew = mem::replace(crew, Vec::new(alloc));
    let work = |compactor: Compactor<O, N>| -> u64 {
        installs_of(rt, alloc, store, gate, compactor)
    };
    match map_vec(rt, crew, &work) {
        Err(_) => 0,
        Ok(installs) => installs
            .iter()
            .fold(0_u64, |sum, made| sum.saturating_add(*made)),
    }
}
