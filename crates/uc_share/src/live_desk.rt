//! Feeds of writes, and snapshots that are taken and released, under a store's lock.
ghost use Rattle.std.specs.Prelude.{◌≡◌, IfErr, IfOk, OnOk, false, fold, map, option_map};
ghost use mathlib.Core.List.{IsPrefix};
ghost use Rattle.uc_run.specs.Flush.{flushed};
ghost use Rattle.uc_version_state.specs.Flushes.{memtables};
ghost use Rattle.uc_version_state.specs.Histories.{MayFollow, after};
ghost use Rattle.uc_version_state.specs.declared.event.Event.TheVariants.{Flushed, Kept, Released};
ghost use Rattle.uc_share.specs.Fronts.{after_event};
ghost use Rattle.uc_share.specs.Installing.{EndsWith};
ghost use Rattle.uc_share.specs.Live.{IsFeedRefused, IsReleaseRefused};

use crate::desk::Desk;
use crate::name::Name;
use crate::publisher::Publisher;
use crate::reader::Reader;
use std::alloc::{AllocError, Global};
use std::sync::Wait;
use uc_batch::Writes;
use uc_oper::Operator;
use uc_run::Run;
use uc_version_state::{FeedError, ReleaseError, no_refusal_is_leave_to_feed};

impl<O: Operator, N: Name, W: Wait + Drop> Desk<O, N, W> {
    /// Feeds writes whose memtables are flushed, the oldest first, and updates the reader. It publishes exactly one event, or
    /// fails, changes nothing that is shown, and lets the reader see the version that shows why. It reads no key or value.
    pub(crate) fn feed<R: Wait>(
        &mut self,
        rt: &R,
        alloc: Global,
        writes: &Writes,
        runs: Vec<Run>,
        reader: &mut Reader<O, N>,
    ) -> Result<(), FeedError>
        requires { runs.items ≡ map flushed (memtables N.base.limit writes.now.list) }
        ensures published { OnOk result
            (self.new.publisher ≡ option_map (after_event (Flushed writes.now.list)) self.old.publisher) }
        ensures unchanged { IfErr result (λ _. self.new.publisher ≡ self.old.publisher) }
        ensures seen { IsPrefix reader.old reader.new }
        ensures legal { MayFollow O.meaning N.base reader.new }
        ensures fed { OnOk result (EndsWith reader.old (Flushed writes.now.list) reader.new) }
        ensures refused { IfErr result (IsFeedRefused (fold after N.base reader.new) writes.now.list) }
    {
        let Some(publisher) = self.publisher.take() else {
            unreachable!()
        };
        let (publisher, done) = fed(rt, alloc, publisher, writes, runs, reader);
        self.publisher = Some(publisher);
        done
    }

    /// Keeps the last sequence, and shows the reader: one publication of exactly its event, or want of memory, which changes
    /// nothing that is shown. Returns the sequence.
    pub(crate) fn keep<R: Wait>(
        &mut self,
        rt: &R,
        alloc: Global,
        reader: &mut Reader<O, N>,
    ) -> Result<u64, AllocError>
        requires { N.keeps_stay ≡ false }
        ensures published { OnOk result
            (self.new.publisher ≡ option_map (after_event Kept) self.old.publisher) }
        ensures unchanged { IfErr result (λ _. self.new.publisher ≡ self.old.publisher) }
        ensures seen { IsPrefix reader.old reader.new }
        ensures legal { MayFollow O.meaning N.base reader.new }
        ensures kept { OnOk result (EndsWith reader.old Kept reader.new) }
        ensures last { IfOk result (λ seq. seq ≡ (fold after N.base reader.new).last) }
    {
        let Some(publisher) = self.publisher.take() else {
            unreachable!()
        };
        let (publisher, done) = kept(rt, alloc, publisher, reader);
        self.publisher = Some(publisher);
        done
    }

    /// Releases a keep and updates the reader. It publishes exactly one event, or fails, changes nothing that is shown, and lets
    /// the reader see the version that shows why.
    pub(crate) fn release<R: Wait>(
        &mut self,
        rt: &R,
        alloc: Global,
        seq: u64,
        reader: &mut Reader<O, N>,
    ) -> Result<(), ReleaseError>
        requires { N.keeps_stay ≡ false }
        ensures published { OnOk result
            (self.new.publisher ≡ option_map (after_event (Released seq)) self.old.publisher) }
        ensures unchanged { IfErr result (λ _. self.new.publisher ≡ self.old.publisher) }
        ensures seen { IsPrefix reader.old reader.new }
        ensures legal { MayFollow O.meaning N.base reader.new }
        ensures released { OnOk result (EndsWith reader.old (Released seq) reader.new) }
        ensures refused { IfErr result (IsReleaseRefused (fold after N.base reader.new) seq) }
    {
        let Some(publisher) = self.publisher.take() else {
            unreachable!()
        };
        let (publisher, done) = released(rt, alloc, publisher, seq, reader);
        self.publisher = Some(publisher);
        done
    }
}

/// Shows the reader all that is shown.
fn catch_up<O: Operator, N: Name, W: Wait + Drop>(
    rt: &impl Wait,
    publisher: &Publisher<O, N, W>,
    reader: &mut Reader<O, N>,
)
    ensures seen { IsPrefix reader.old reader.new }
    ensures legal { MayFollow O.meaning N.base reader.new }
    ensures all { reader.new ≡ publisher.now.events }
    ensures version { fold after N.base reader.new ≡ publisher.now.version }
{
    publisher.recall();
    reader.sees(rt, &publisher.shown().front::<N>());
}

/// Shows readers the next version, after a feed.
fn fed<O: Operator, N: Name, W: Wait + Drop, R: Wait>(
    rt: &R,
    alloc: Global,
    publisher: Publisher<O, N, W>,
    writes: &Writes,
    runs: Vec<Run>,
    reader: &mut Reader<O, N>,
) -> (Publisher<O, N, W>, Result<(), FeedError>)
    requires { runs.items ≡ map flushed (memtables N.base.limit writes.now.list) }
    ensures published { OnOk result.1 (result.0 ≡ after_event (Flushed writes.now.list) publisher) }
    ensures unchanged { IfErr result.1 (λ _. result.0 ≡ publisher) }
    ensures seen { IsPrefix reader.old reader.new }
    ensures legal { MayFollow O.meaning N.base reader.new }
    ensures fed { OnOk result.1 (EndsWith reader.old (Flushed writes.now.list) reader.new) }
    ensures refused { IfErr result.1 (IsFeedRefused (fold after N.base reader.new) writes.now.list) }
{
    no_refusal_is_leave_to_feed();
    catch_up(rt, &publisher, reader);
    let refusal = publisher
        .shown()
        .version()
        .flushed_refusal(writes.list(), runs.len());
    if let Some(error) = refusal {
        return (publisher, Err(error));
    }
    let (publisher, done) = publisher.publish_feed(alloc, writes, runs);
    if done.is_err() {
        return (publisher, Err(FeedError::Memory));
    }
    catch_up(rt, &publisher, reader);
    (publisher, Ok(()))
}

/// Shows readers the next version, after a keep.
fn kept<O: Operator, N: Name, W: Wait + Drop, R: Wait>(
    rt: &R,
    alloc: Global,
    publisher: Publisher<O, N, W>,
    reader: &mut Reader<O, N>,
) -> (Publisher<O, N, W>, Result<u64, AllocError>)
    requires { N.keeps_stay ≡ false }
    ensures published { OnOk result.1 (result.0 ≡ after_event Kept publisher) }
    ensures unchanged { IfErr result.1 (λ _. result.0 ≡ publisher) }
    ensures seen { IsPrefix reader.old reader.new }
    ensures legal { MayFollow O.meaning N.base reader.new }
    ensures kept { OnOk result.1 (EndsWith reader.old Kept reader.new) }
    ensures last { IfOk result.1 (λ seq. seq ≡ (fold after N.base reader.new).last) }
{
    catch_up(rt, &publisher, reader);
    let (publisher, done) = publisher.publish_keep(alloc);
    if done.is_err() {
        return (publisher, Err(AllocError));
    }
    catch_up(rt, &publisher, reader);
    let last = publisher.shown().version().last();
    (publisher, Ok(last))
}

/// Shows readers the next version, after a release.
fn released<O: Operator, N: Name, W: Wait + Drop, R: Wait>(
    rt: &R,
    alloc: Global,
    publisher: Publisher<O, N, W>,
    seq: u64,
    reader: &mut Reader<O, N>,
) -> (Publisher<O, N, W>, Result<(), ReleaseError>)
    requires { N.keeps_stay ≡ false }
    ensures published { OnOk result.1 (result.0 ≡ after_event (Released seq) publisher) }
    ensures unchanged { IfErr result.1 (λ _. result.0 ≡ publisher) }
    ensures seen { IsPrefix reader.old reader.new }
    ensures legal { MayFollow O.meaning N.base reader.new }
    ensures released { OnOk result.1 (EndsWith reader.old (Released seq) reader.new) }
    ensures refused { IfErr result.1 (IsReleaseRefused (fold after N.base reader.new) seq) }
{
    catch_up(rt, &publisher, reader);
    if !publisher.shown().version().is_kept(seq) {
        return (publisher, Err(ReleaseError::NotKept(seq)));
    }
    let (publisher, done) = publisher.publish_release(alloc, seq);
    if done.is_err() {
        return (publisher, Err(ReleaseError::Memory));
    }
    catch_up(rt, &publisher, reader);
    (publisher, Ok(()))
}
