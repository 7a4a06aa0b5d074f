//! Writes that are fed to a store that threads share, and snapshots that come and go.
ghost use Rattle.std.specs.Prelude.{◌≡◌, IfErr, IfOk, OnOk, false, fold, length, map};
ghost use mathlib.Core.List.{IsPrefix};
ghost use Rattle.uc_run.specs.Flush.{flushed};
ghost use Rattle.uc_version_state.specs.Flushes.{memtables};
ghost use Rattle.uc_version_state.specs.Histories.{MayFollow, after};
ghost use Rattle.uc_version_state.specs.declared.event.Event.TheVariants.{Flushed, Kept, Released};
ghost use Rattle.uc_share.specs.Installing.{EndsWith};
ghost use Rattle.uc_share.specs.Live.{IsFeedRefused, IsReleaseRefused};

use crate::name::Name;
use crate::pin::Pin;
use crate::reader::Reader;
use crate::store::Store;
use std::alloc::{AllocError, Global};
use std::sync::Wait;
use uc_batch::Writes;
use uc_oper::Operator;
use uc_run::Run;
use uc_version_open::{Alone, flush_writes};
use uc_version_state::{FeedError, ReleaseError};

impl<O: Operator, N: Name, W: Wait + Drop> Store<O, N, W> {
    /// Feeds writes: they fill memtables, and each becomes a run before all others, for all readers atomically. Returns the number
    /// of new runs. The last sequence number becomes theirs; keeps and claims stay. An empty list changes nothing, and is an event
    /// too.
    ///
    /// Fails, in this order, if the first write isn't above the last sequence number, if a run would have no slot, if run IDs are
    /// exhausted, or if allocation fails. The version that the reader then has seen shows it: nothing was fed.
    ///
    /// It checks a pinned version first, so most failures are returned before anything is flushed. It flushes the writes before it
    /// takes the lock, and reads no key or value after that. It waits for other threads that publish, and for readers of the
    /// previous version. It costs two copies of each key and value and a sort of what is fed.
    pub fn feed(
        &self,
        rt: &impl Wait,
        alloc: Global,
        writes: &Writes,
        reader: &mut Reader<O, N>,
    ) -> Result<u64, FeedError>
        ensures seen { IsPrefix reader.old reader.new }
        ensures legal { MayFollow O.meaning N.base reader.new }
        ensures fed { OnOk result (EndsWith reader.old (Flushed writes.now.list) reader.new) }
        ensures count { IfOk result (λ count. count ≡ length (memtables N.base.limit writes.now.list)) }
        ensures refused { IfErr result (IsFeedRefused (fold after N.base reader.new) writes.now.list) }
    {
        let runs = runs_to_feed(rt, alloc, writes, reader)?;
        let count = runs.len() as u64;
        let mut desk = self.desk.lock(rt);
        desk.feed(rt, alloc, writes, runs, reader)?;
        Ok(count)
    }

    /// Takes a snapshot: the last sequence becomes a keep, if it isn't one, for all readers at once. Returns it. Keeps aren't
    /// counted: one release ends a keep that was taken twice. It waits as [`feed`](Store::feed) does.
    pub fn keep(
        &self,
        rt: &impl Wait,
        alloc: Global,
        reader: &mut Reader<O, N>,
    ) -> Result<u64, AllocError>
        requires { N.keeps_stay ≡ false }
        ensures seen { IsPrefix reader.old reader.new }
        ensures legal { MayFollow O.meaning N.base reader.new }
        ensures kept { OnOk result (EndsWith reader.old Kept reader.new) }
        ensures last { IfOk result (λ seq. seq ≡ (fold after N.base reader.new).last) }
    {
        let mut desk = self.desk.lock(rt);
        desk.keep(rt, alloc, reader)
    }

    /// Releases a snapshot: the sequence number is no longer a keep, for all readers atomically. Fails if it is none, which the
    /// version that the reader then has seen shows, or if allocation fails. It waits as [`feed`](Store::feed) does.
    pub fn release(
        &self,
        rt: &impl Wait,
        alloc: Global,
        seq: u64,
        reader: &mut Reader<O, N>,
    ) -> Result<(), ReleaseError>
        requires { N.keeps_stay ≡ false }
        ensures seen { IsPrefix reader.old reader.new }
        ensures legal { MayFollow O.meaning N.base reader.new }
        ensures released { OnOk result (EndsWith reader.old (Released seq) reader.new) }
        ensures refused { IfErr result (IsReleaseRefused (fold after N.base reader.new) seq) }
    {
        let mut desk = self.desk.lock(rt);
        desk.release(rt, alloc, seq, reader)
    }
}

/// No event changes from how many bytes on a memtable is flushed. It does nothing.
fn recall_limit<O: Operator, N: Name>(pin: &Pin<O, N>)
    ensures { pin.now.version.limit ≡ N.base.limit }
{
    pin.recall();
}

/// The runs of the memtables that writes fill, the oldest first, unless the current version rejects the writes.
fn runs_to_feed<O: Operator, N: Name>(
    rt: &impl Wait,
    alloc: Global,
    writes: &Writes,
    reader: &mut Reader<O, N>,
) -> Result<Vec<Run>, FeedError>
    ensures seen { IsPrefix reader.old reader.new }
    ensures legal { MayFollow O.meaning N.base reader.new }
    ensures runs { IfOk result (λ runs. runs.items ≡ map flushed (memtables N.base.limit writes.now.list)) }
    ensures refused { IfErr result (IsFeedRefused (fold after N.base reader.new) writes.now.list) }
{
    let pin = reader.pin_at_last(rt);
    recall_limit(&pin);
    pin.version().recall();
    if let Some(error) = pin.version().feed_refusal(writes.list()) {
        return Err(error);
    }
    Ok(flush_writes(&Alone, alloc, pin.version().limit(), writes.list())?)
}
