//! Lists of calls of a store with one owner.
ghost use Rattle.std.specs.Prelude.{◌↔◌, IsTrue};
ghost use Rattle.std.specs.List.{AllByRecursion};
ghost use Rattle.uc_query.specs.Turns.{HasName};

use crate::input::Input;
use crate::out::Out;
use crate::replies::{write_refused, write_replies};
use crate::said::{self, Spelled};
use crate::versions::stretch;
use std::alloc::{AllocError, Global};
use std::marker::Sync;
use std::thread::Threads;
use uc_batch::Writes;
use uc_bytes::{Items, Write};
use uc_oper::Operator;
use uc_query::{Call, run_calls};
use uc_query_read::Query;
use uc_query_workers::AskError;
use uc_version::{MOST_CLAIMS, Owned};

/// Reads the name of a claim. The greatest number stands for a name that doesn't exist.
pub(crate) fn name(call: &mut Input<'_>) -> u8 {
    u8::try_from(call.number()).unwrap_or(u8::MAX)
}

/// Reads a batch: the number of workers, the number of queries in a piece, and the queries.
fn batch(alloc: Global, call: &mut Input<'_>) -> Result<Call, AllocError> {
    let (workers, piece) = (call.place(), call.place());
    let queries = Items::from(said::list::<Query>(alloc, call)?);
    Ok(Call::Ask(queries, workers, piece))
}

/// Reads writes whose sequence numbers ascend. Refuses others.
fn feed(alloc: Global, call: &mut Input<'_>) -> Result<Call, AllocError> {
    match Writes::of(said::list::<Write>(alloc, call)?) {
        Some(writes) => Ok(Call::Feed(writes)),
        None => Ok(no_call(call)),
    }
}

/// A malformed call, for which the whole list is refused.
fn no_call(call: &mut Input<'_>) -> Call {
    call.spoil();
    Call::Pick
}

impl Spelled for Call {
    /// Reads a call of a list: its kind, and the arguments of that kind.
    fn read(alloc: Global, call: &mut Input<'_>) -> Result<Call, AllocError> {
        match call.number() {
            3 => Ok(Call::Claim(name(call), stretch(call))),
            5 => Ok(Call::Install(name(call))),
            6 => Ok(Call::Abandon(name(call))),
            7 => Ok(Call::Compact(stretch(call))),
            8 => Ok(Call::Pick),
            9 => Ok(Call::Report),
            10 => batch(alloc, call),
            12 => feed(alloc, call),
            13 => Ok(Call::Keep),
            14 => Ok(Call::Release(call.number())),
            _ => Ok(no_call(call)),
        }
    }
}

/// Returns true if the name of a call exists.
fn has_name(call: &Call) -> bool
    ensures { IsTrue result ↔ HasName call.now }
{
    match call {
        Call::Claim(name, _) | Call::Install(name) | Call::Abandon(name) => {
            usize::from(*name) < MOST_CLAIMS
        }
        _ => true,
    }
}

/// Returns true if the names of all calls exist.
fn have_names(calls: &[Call]) -> bool
    ensures { IsTrue result ↔ AllByRecursion HasName calls.now }
{
    calls.iter().all(has_name)
}

/// Writes the reason why queries are refused.
pub(crate) fn write_stopped(alloc: Global, out: &mut Out, error: &AskError) {
    match error {
        AskError::Memory => out.want(),
        other => write_refused(alloc, out, 20, other),
    }
}

/// Makes the calls of a list. Writes their replies, or the reason why the list stops.
fn make<O: Operator + Sync>(
    rt: &(impl Threads + Sync),
    alloc: Global,
    store: &mut Owned<O>,
    (calls, are_read): (&[Call], bool),
    out: &mut Out,
) {
    if !are_read || !have_names(calls) {
        return out.refuse();
    }
    match run_calls(rt, alloc, store, calls) {
        Ok(replies) => {
            out.number(10);
            write_replies(alloc, out, &replies);
        }
        Err(error) => write_stopped(alloc, out, &error),
    }
}

/// Reads the number of calls, and the calls. Makes them.
pub(crate) fn play<O: Operator + Sync>(
    rt: &(impl Threads + Sync),
    alloc: Global,
    store: &mut Owned<O>,
    call: &mut Input<'_>,
    out: &mut Out,
) {
    match said::list::<Call>(alloc, call) {
        Ok(calls) => make(rt, alloc, store, (&calls, !call.is_short()), out),
        Err(_) => out.want(),
    }
}
