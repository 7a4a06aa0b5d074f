//! [`Shop`]: the state of calls of a store with one owner.
use crate::input::Input;
use crate::installs::Workers;
use crate::out::Out;
use crate::owner::Held;
use crate::steps::step;
use crate::talk::Talk;
use crate::{opening, versions};
use std::alloc::Global;
use std::io;
use std::marker::Sync;
use std::thread::Threads;
use std::time::Clock;
use uc_oper::Operator;
use uc_version::{CompactError, OpenError, Owned};
use uc_version_compact::ClaimError;

/// A store, its claims, and its workers.
struct Shop<O: Operator> {
    store: Option<Owned<O>>,
    claims: Vec<Held<O>>,
    workers: Workers,
}

impl<O: Operator> Drop for Shop<O> {
    fn drop(self) {
        let Shop {
            store: _,
            claims: _,
            workers: _,
        } = self;
    }
}

/// Reads the kind of workers.
pub(crate) fn workers(call: &mut Input<'_>) -> Workers {
    match call.number() {
        0 => Workers::Alone,
        1 => Workers::Threads,
        _ => Workers::Parts,
    }
}

impl<O: Operator> Shop<O> {
    /// Replaces the store. The new one has no claims.
    fn renew(&mut self, store: Owned<O>, workers: Workers) {
        self.store = Some(store);
        self.claims.clear();
        self.workers = workers;
    }
}

/// Reads the kind of workers, and the beginning of a store. Opens the store. Writes true, or the reason why it isn't opened.
fn open<O: Operator>(
    rt: &(impl Threads + Clock + Sync),
    alloc: Global,
    shop: &mut Shop<O>,
    call: &mut Input<'_>,
    out: &mut Out,
) {
    let workers = workers(call);
    match opening::open::<O>(rt, alloc, call, out) {
        Ok(store) => {
            shop.renew(store, workers);
            out.flag(true);
        }
        Err(OpenError::Memory) => out.want(),
        Err(error) => {
            out.flag(false);
            out.text(alloc, &error);
        }
    }
}

/// Writes the messages of errors that no call can cause.
fn write_errors(alloc: Global, out: &mut Out) {
    out.text(alloc, &OpenError::BadCount);
    out.text(alloc, &OpenError::Memory);
    out.text(alloc, &CompactError::NotClaimed(ClaimError::Busy(3)));
    out.text(alloc, &CompactError::IdsSpent);
    out.text(alloc, &CompactError::Memory);
}

/// Makes a call of the store, if there is one.
fn play_store<O: Operator + Sync>(
    rt: &(impl Threads + Clock + Sync),
    alloc: Global,
    shop: &mut Shop<O>,
    kind: u64,
    call: &mut Input<'_>,
    out: &mut Out,
) {
    let terms = (kind, shop.workers);
    match &mut shop.store {
        Some(store) => step(rt, alloc, store, &mut shop.claims, terms, call, out),
        None => out.refuse(),
    }
}

/// Makes a call.
fn play<O: Operator + Sync>(
    rt: &(impl Threads + Clock + Sync),
    alloc: Global,
    shop: &mut Shop<O>,
    call: &mut Input<'_>,
    out: &mut Out,
) {
    let kind = call.number();
    match kind {
        0 => open(rt, alloc, shop, call, out),
        20 => versions::pick(alloc, call, out),
        23 => write_errors(alloc, out),
        _ => play_store(rt, alloc, shop, kind, call, out),
    }
}

/// Makes all calls.
fn play_at<O: Operator + Sync>(
    rt: &(impl Threads + Clock + Sync + Print),
    alloc: Global,
    shop: &mut Shop<O>,
    talk: &mut Talk<'_>,
) -> io::Result<()> {
    for _ in 0..u64::MAX {
        let Some(mut call) = talk.next(rt, alloc) else {
            break;
        };
        play(rt, alloc, shop, &mut call, talk.answer());
        talk.end(rt, alloc, call)?;
    }
    Ok(())
}

/// Makes all calls, beginning without a store.
pub(crate) fn play_all<O: Operator + Sync>(
    rt: &(impl Threads + Clock + Sync + Print),
    alloc: Global,
    talk: &mut Talk<'_>,
) -> io::Result<()> {
    let mut shop = Shop::<O> {
        store: None,
        claims: Vec::new(alloc),
        workers: Workers::Alone,
    };
    play_at(rt, alloc, &mut shop, talk)
}
