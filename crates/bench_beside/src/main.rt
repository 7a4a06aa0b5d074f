//! Threads that share a store concurrently, for `bench/share`, `bench/shared`, `bench/live` and `bench/claims`.
//!
//! Standard input is a flag, a log of counters, and measurements (`input.rt` describes the encoding). A measurement is a 0 and the numbers
//! of a `Plan` (`plan.rt`), or a 1 and the number of threads, their layout and their rounds (`claims.rt`). A store begins with the log. If
//! it has feeders, it begins empty, and the log's first batches are fed. For each store the program prints a line: the numbers of runs and
//! points with which it opens, and a record of each actor (`told.rt`), beginning with those that change the store. `bench/beside` makes the
//! plans and reads the lines.
//!
//! If the flag is set, a line has only results that are the same in each run: whether a compaction was installed, and checksums of the
//! answers meanwhile and at the end. The answers must not depend on the actors that compact and answer.
#![tactic(auto)]

mod actor;
mod bench;
mod changing;
mod claims;
mod crew;
mod drawn;
mod input;
mod out;
mod plan;
mod reading;
mod told;

use crate::claims::{Claims, claimed};
use crate::crew::played;
use crate::input::Input;
use crate::out::Out;
use crate::plan::Plan;
use std::alloc::Global;
use std::io::{self, ErrorKind, Read};
use std::marker::Sync;
use std::sync::Wait;
use std::thread::Threads;
use std::time::Clock;
use uc_batch::{Mode, read_writes};

/// Measures all stores of a plan.
fn measure(
    rt: &(impl Threads + Wait + Clock + Sync + Print),
    alloc: Global,
    log: &[u8],
    plan: Plan,
    out: &mut Out,
) -> Option<()> {
    let writes = read_writes(alloc, log, Mode::TornTail).ok()?;
    for _ in 0..plan.stores {
        played(rt, alloc, &writes, plan, out)?;
        out.print(rt).ok()?;
    }
    Some(())
}

/// Measures the claims of threads. Writes the nanoseconds and the number of successful takes, unless only repeatable results are printed.
fn measure_claims(
    rt: &(impl Threads + Clock + Sync + Print),
    alloc: Global,
    input: &mut Input<'_>,
    is_few: bool,
    out: &mut Out,
) -> Option<()> {
    let threads = input.number();
    let claims = Claims {
        layout: input.number(),
        rounds: input.number(),
    };
    let (nanoseconds, won) = claimed(rt, alloc, threads, claims)?;
    if !is_few {
        out.number(nanoseconds);
        out.number(won);
    }
    out.print(rt).ok()
}

/// Makes all measurements.
fn measure_all(
    rt: &(impl Threads + Wait + Clock + Sync + Print),
    alloc: Global,
    input: &mut Input<'_>,
) -> Option<()> {
    let (is_few, log) = (input.flag(), input.bytes());
    let mut out = Out::new(alloc);
    for _ in 0..u64::MAX {
        if input.is_empty() {
            break;
        }
        if input.flag() {
            measure_claims(rt, alloc, input, is_few, &mut out)?;
        } else {
            measure(rt, alloc, log, Plan::of(input, is_few), &mut out)?;
        }
    }
    Some(())
}

fn main(rt: HostRuntime) -> io::Result<()> {
    let alloc = rt.alloc();
    let mut bytes = Vec::new(alloc);
    rt.stdin().read_to_end(&mut bytes)?;
    match measure_all(&rt, alloc, &mut Input::new(&bytes)) {
        Some(()) => Ok(()),
        None => Err(io::Error::from(ErrorKind::Other)),
    }
}
