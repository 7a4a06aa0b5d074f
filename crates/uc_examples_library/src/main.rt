//! Counts visits on, from the log on standard input: in a live store, which the README shows, in one that shows its runs, and in one that
//! threads share.
#![tactic(auto)]

mod one_owner;
mod owned;
mod threads;
mod visits;

use anyhow::Result;
use std::io::Read;
use std::marker::Brand;
use uc_store::{Alone, LiveOptions, LiveStore, Options, open_shared};

fn main(rt: HostRuntime) -> Result<()> {
    let alloc = rt.alloc();
    let mut log = Vec::new(alloc);
    rt.stdin().read_to_end(&mut log)?;
    let (mut store, _) = LiveStore::open(alloc, &log, LiveOptions::usual())?.into_parts();
    let (before, now) = one_owner::count(alloc, &mut store)?;
    println!(rt; "{before} visits at the snapshot, {now} now")?;
    let (before, now) = owned::count(alloc, &log)?;
    println!(rt; "{before} visits in the log, {now} with one more")?;
    let (before, now) = owned::count_in_threads(&rt, alloc, &log)?;
    println!(rt; "{before} visits in its pieces, {now} with one more")?;
    let opened = open_shared(&Alone, alloc, &log, &[], Options::usual(), 4, 1)?;
    let before = threads::count::<Brand, _>(&rt, alloc, opened.opening)?;
    println!(rt; "{before} visits at the snapshot, with 50 batches fed meanwhile")?;
    Ok(())
}
