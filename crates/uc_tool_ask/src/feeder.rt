//! [`Feeder`]: a thread that feeds a log's last writes to a store while queries are answered.
ghost use Rattle.std.specs.Prelude.{◌≡◌, ◌≤◌, ◌∷◌, [], true, take, vec_len};
ghost use mathlib.Core.List.{IsPrefix};
ghost use Rattle.uc_version_state.specs.declared.event.Event.TheVariants.{Flushed};
ghost use Rattle.uc_share.specs.Installing.{EndsWith};
ghost use Rattle.uc_tool_ask.specs.Feeding.{AreFed};

use std::alloc::Global;
use std::sync::Wait;
use uc_batch::{Write, Writes};
use uc_oper::Operator;
use uc_share::{Name, Reader, Store};

/// A feeder: a reader of the store, and the writes that come to it, the oldest first.
#[derive(Drop)]
pub(crate) struct Feeder<O: Operator, N: Name> {
    pub(crate) reader: Reader<O, N>,
    pub(crate) writes: Vec<Write>,
}

/// A feeder of these writes, if a reader is left besides those that the workers need.
pub(crate) fn feeder_of<O: Operator, N: Name>(
    workers: usize,
    readers: &mut Vec<Reader<O, N>>,
    writes: Vec<Write>,
) -> Option<Feeder<O, N>>
    requires { workers ≤ vec_len readers.old }
    ensures { workers ≤ vec_len readers.new }
{
    if readers.len() <= workers {
        return None;
    }
    let reader = readers.pop()?;
    Some(Feeder { reader, writes })
}

/// Feeds one write, and says whether the store took it: then its event is the last that the reader has seen.
fn feed_one<O: Operator, N: Name, W: Wait + Drop>(
    rt: &impl Wait,
    alloc: Global,
    store: &Store<O, N, W>,
    reader: &mut Reader<O, N>,
    write: Write,
) -> bool
    ensures seen { IsPrefix reader.old reader.new }
    ensures fed { result ≡ true → EndsWith reader.old (Flushed (write ∷ [])) reader.new }
{
    let mut list = Vec::new(alloc);
    if list.push(write).is_err() {
        return false;
    }
    match Writes::of(list) {
        None => false,
        Some(writes) => store.feed(rt, alloc, &writes, reader).is_ok(),
    }
}

/// Feeds writes one by one, until one fails, and returns the number of those that were fed: the events of just these are among the
/// new ones that the reader has seen after the call.
pub(crate) fn feed_all<O: Operator, N: Name, W: Wait + Drop>(
    rt: &impl Wait,
    alloc: Global,
    store: &Store<O, N, W>,
    reader: &mut Reader<O, N>,
    writes: Vec<Write>,
) -> u64
    ensures count { result ≤ vec_len writes }
    ensures fed { AreFed (take result writes.items) reader.old reader.new }
{
    let mut fed = 0_u64;
    for write in writes {
        if !feed_one(rt, alloc, store, reader, write) {
            return fed;
        }
        fed += 1;
    }
    fed
}
