//! A player of calls of the libraries, for the tests in `tests/`. Reads and writes numbers and bytes.
//!
//! Standard input is a scene, an operator and calls, each as bytes. Each call is answered by a line of output. The program compares nothing
//! and expects nothing: `tests/play.py` encodes the calls and decodes the answers. Read `talk.rt` first, which describes the list of
//! calls, then `input.rt` and `out.rt`, which describe their encoding. In this crate "Reads" means arguments of the call, and "Writes"
//! means its answer.
//!
//! If allocation fails in a call, its answer says so, and the state must be as before. `marks.rt` shows a preloaded library
//! (`faults/refuse.c`) which requests for memory belong to a call. A call can be clocked instead: `watch.rt` measures its time for the
//! scripts in `bench/`.
//!
//! A scene is the state that calls work with. `desk.rt` has memtables and runs, `shop.rt` a store with one owner, `hall_calls.rt` a store
//! that threads share, `slots.rt` a table of slots, and `sheet.rt` only effects and plain writes.
#![tactic(auto)]

mod asked;
mod beginning;
mod built;
mod compactions;
mod desk;
mod formats;
mod gathered;
mod hall;
mod hall_calls;
mod hall_changes;
mod hall_pins;
mod input;
mod installs;
mod lists;
mod marks;
mod merges;
mod opening;
mod out;
mod owner;
mod places;
mod plain;
mod readers;
mod reads;
mod replies;
mod rows;
mod runs;
mod said;
mod sheet;
mod shop;
mod slot_lists;
mod slots;
mod steps;
mod store_reads;
mod talk;
mod versions;
mod watch;

use crate::input::Input;
use crate::talk::Talk;
use std::alloc::Global;
use std::io::{self, Read};
use std::marker::Sync;
use std::sync::Wait;
use std::thread::Threads;
use std::time::Clock;
use uc_oper::{Append, Counter, Maximum, Tail};

/// Makes all calls of memtables and runs, under an operator.
fn desk_by(
    rt: &(impl Threads + Clock + Sync + Print),
    alloc: Global,
    operator: u64,
    talk: &mut Talk<'_>,
) -> io::Result<()> {
    match operator {
        0 => desk::play_all::<Append<44>>(rt, alloc, talk),
        _ => desk::play_all::<Counter>(rt, alloc, talk),
    }
}

/// Makes all calls of a store with one owner, under an operator.
fn shop_by(
    rt: &(impl Threads + Clock + Sync + Print),
    alloc: Global,
    operator: u64,
    talk: &mut Talk<'_>,
) -> io::Result<()> {
    match operator {
        0 => shop::play_all::<Append<44>>(rt, alloc, talk),
        1 => shop::play_all::<Counter>(rt, alloc, talk),
        2 => shop::play_all::<Maximum>(rt, alloc, talk),
        _ => shop::play_all::<Tail<4>>(rt, alloc, talk),
    }
}

/// Makes all calls of effects and plain writes, under an operator.
fn sheet_by(
    rt: &(impl Threads + Clock + Sync + Print),
    alloc: Global,
    operator: u64,
    talk: &mut Talk<'_>,
) -> io::Result<()> {
    match operator {
        2 => sheet::play_all::<Maximum>(rt, alloc, talk),
        3 => sheet::play_all::<Tail<0>>(rt, alloc, talk),
        4 => sheet::play_all::<Tail<1>>(rt, alloc, talk),
        5 => sheet::play_all::<Tail<4>>(rt, alloc, talk),
        _ => sheet::play_all::<Tail<1000>>(rt, alloc, talk),
    }
}

/// Makes all calls of a scene. A scene has only the operators that its tests use, since each operator is compiled separately.
fn play(
    rt: &(impl Threads + Wait + Clock + Sync + Print),
    alloc: Global,
    (scene, operator): (u64, u64),
    talk: &mut Talk<'_>,
) -> io::Result<()> {
    match scene {
        0 => desk_by(rt, alloc, operator, talk),
        1 => shop_by(rt, alloc, operator, talk),
        2 => slots::play_all(rt, alloc, talk),
        3 => hall_calls::play_all(rt, alloc, talk),
        _ => sheet_by(rt, alloc, operator, talk),
    }
}

fn main(rt: HostRuntime) -> io::Result<()> {
    let alloc = rt.alloc();
    let mut bytes = Vec::new(alloc);
    rt.stdin().read_to_end(&mut bytes)?;
    let mut calls = Input::new(&bytes);
    let (scene, operator) = (calls.number(), calls.number());
    play(&rt, alloc, (scene, operator), &mut Talk::new(alloc, calls)?)
}
