//! Logs that C keeps in its files: their batches are written to a store again.
ghost use Rattle.std.specs.Prelude.{◌≡◌, ◌≢◌, ◌⊎◌, ◌<◌, ◌≤◌, ◌+◌, true, false, IfOk, IfErr, List, ℕ};
ghost use Rattle.uc_logrec.specs.Position.{LiesIn};
ghost use Rattle.uc_live.specs.Compacting.{HasNoRoom};
ghost use Rattle.uc_live.specs.Lives as lives;
ghost use Rattle.uc_c.specs.declared.status.TheConstants.{LOG_ENDS};
ghost use Rattle.uc_c.specs.Replaying.{Replays, ReplaysNext, TookNone};
ghost use Rattle.uc_c.specs.Replies.{Becomes};

use crate::c_ended::CEnded;
use crate::c_log_place::CLogPlace;
use crate::status::{BAD_PLACE, LOG_ENDS, NO_STORE, OK, SEQUENCE_GAP, room_status};
use std::alloc::Global;
use uc_batch::{BatchWrites, Ended, Header, judge_batch};
use uc_engine::{Engine, RoomError};
use uc_handle::Handle;
use uc_logrec::{Next, next_payload};

/// The outcome for the next batch of a log.
#[derive(Clone, Copy)]
pub(crate) enum Replayed {
    /// It was written, and this is the place after it.
    Batch(CLogPlace),
    /// It leaves sequences out, and was not written.
    Gap,
    /// There is none that may follow: how far the log was read.
    Ended(Ended),
}

/// Whether a batch whose last sequence this is may follow: it begins right after the place, unless it may skip some.
fn may_follow(place: CLogPlace, header: Header, last: u64, may_skip: bool) -> bool
    ensures yes { result ≡ true → may_skip ≡ false → last ≡ place.last + header.count }
    ensures no { result ≡ false → (may_skip ≡ false) × (last ≢ place.last + header.count) }
{
    may_skip || place.last.checked_add(u64::from(header.count)) == Some(last)
}

/// Writes the batch that a payload is, which lies between a place and an offset.
fn replay_payload(
    alloc: Global,
    engine: &mut Engine,
    payload: &[u8],
    place: CLogPlace,
    behind: u64,
    may_skip: bool,
) -> Result<Replayed, RoomError>
    requires numbered { place.batches ≤ place.offset }
    requires later { place.offset < behind }
    requires last { place.last ≡ lives.last engine.old.live }
    ensures ok { IfOk result (λ replayed. (log : List ℕ) → LiesIn payload.now log place.offset behind →
        Replays log place may_skip engine.old engine.new replayed) }
    ensures err { IfErr result (λ error. HasNoRoom error engine.new.live × TookNone engine.old engine.new) }
{
    let number = place.batches + 1;
    let header = match judge_batch(payload, place.last) {
        Ok(header) => header,
        Err(fault) => return Ok(Replayed::Ended(Ended::BatchFault(number, fault))),
    };
    let last = header.last_used(place.last);
    if !may_follow(place, header, last, may_skip) {
        return Ok(Replayed::Gap);
    }
    engine.write_all(alloc, BatchWrites::judged(header, payload))?;
    Ok(Replayed::Batch(CLogPlace {
        offset: behind,
        last,
        batches: number,
    }))
}

/// Writes the next batch at a place of a log.
fn replay_at(
    alloc: Global,
    engine: &mut Engine,
    log: &[u8],
    place: CLogPlace,
    may_skip: bool,
) -> Result<Replayed, RoomError>
    requires numbered { place.batches ≤ place.offset }
    requires last { place.last ≡ lives.last engine.old.live }
    ensures ok { IfOk result (λ replayed. Replays log.now place may_skip engine.old engine.new replayed) }
    ensures err { IfErr result (λ error. HasNoRoom error engine.new.live × TookNone engine.old engine.new) }
{
    let mut joined = Vec::new(alloc);
    let (next, behind) = next_payload(log, place.offset, &mut joined)?;
    match next {
        Next::Whole(payload) => replay_payload(alloc, engine, payload, place, behind, may_skip),
        Next::Joined => replay_payload(alloc, engine, &joined, place, behind, may_skip),
        Next::Ended(ending) => Ok(Replayed::Ended(Ended::from(ending))),
    }
}

/// Writes the next batch at a place of a log to an engine, and returns what was done.
fn replay_next(
    alloc: Global,
    engine: &mut Engine,
    log: &[u8],
    place: &mut CLogPlace,
    may_skip: bool,
    ended: &mut CEnded,
) -> i32
    ensures next { ReplaysNext result log.now place.old place.new may_skip ended.old ended.new engine.old engine.new }
    ensures untold { (result ≡ LOG_ENDS) ⊎ (ended.new ≡ ended.old) }
{
    if place.batches > place.offset
        || place.offset > log.len() as u64
        || place.last != engine.last()
    {
        return BAD_PLACE;
    }
    match replay_at(alloc, engine, log, *place, may_skip) {
        Ok(Replayed::Batch(behind)) => {
            *place = behind;
            OK
        }
        Ok(Replayed::Gap) => SEQUENCE_GAP,
        Ok(Replayed::Ended(found)) => {
            *ended = CEnded::of(found);
            LOG_ENDS
        }
        Err(error) => room_status(error),
    }
}

/// Writes the next batch at a place of a log to the store, with its own sequence numbers, and moves the place after it. A walk
/// begins where the offset and the batches are zero, and the last sequence number is the store's. A prepared batch is discarded.
///
/// If the log ends there, or the next batch isn't valid, nothing is written, the place stays, and how far the log was read is
/// stored. A batch isn't written either if its sequence number isn't directly after the last one, unless it may skip some, or if
/// allocation fails or run IDs are exhausted. Fails if no walk over the log leads to the place, or its last sequence number isn't
/// the store's.
#[unsafe(no_mangle)]
pub extern "C" fn ucstore_replay(
    alloc: Global,
    handle: &mut Handle,
    log: &[u8],
    place: &mut CLogPlace,
    may_skip: bool,
    ended: &mut CEnded,
) -> i32
    ensures replays { Becomes result handle.old.held handle.new.held (λ e e'.
        ReplaysNext result log.now place.old place.new may_skip ended.old ended.new e e') }
    ensures untold { (result ≡ LOG_ENDS) ⊎ (ended.new ≡ ended.old) }
{
    let Some(mut engine) = handle.take(alloc) else {
        return NO_STORE;
    };
    let status = replay_next(alloc, &mut engine, log, place, may_skip, ended);
    handle.put(engine);
    status
}
