//! Ways to open a store with one owner.
use crate::beginning::{Beginning, given};
use crate::input::Input;
use crate::out::Out;
use std::alloc::{AllocError, Global};
use std::marker::Sync;
use std::thread::Threads;
use std::time::Clock;
use uc_batch::{Ended, Pieces, Writes};
use uc_bytes::{MAX_SEQUENCE, Write, WriteRef};
use uc_oper::Operator;
use uc_version::{Alone, InThreads, OpenError, Opener, Owned, open_plain};
use uc_version_open::{Recovered, recover, recover_first, recover_pieces};
use uc_version_state::{Options, Version};

/// Returns a log in pieces.
fn pieces(alloc: Global, log: &[u8]) -> Result<Pieces, AllocError> {
    let mut pieces = Pieces::new(alloc);
    pieces.push_bytes(alloc, log)?;
    Ok(pieces)
}

/// Returns an opening store with the writes of a log.
fn recovered(
    rt: &(impl Threads + Sync),
    alloc: Global,
    log: &[u8],
    options: Options,
    way: u64,
) -> Result<Recovered, AllocError> {
    let workers = InThreads(rt);
    match way {
        2 => recover(&workers, alloc, log, options),
        3 => recover_pieces(&workers, alloc, pieces(alloc, log)?, options),
        4 => {
            let (recovered, _) = recover_first(&workers, alloc, log, options, u64::MAX)?;
            Ok(recovered)
        }
        _ => recover(&Alone, alloc, log, options),
    }
}

/// Adds a write that follows the log.
fn insert(alloc: Global, opener: &mut Opener, write: &Write, out: &mut Out) {
    if write.seq <= opener.last() || MAX_SEQUENCE < write.seq {
        return out.refuse();
    }
    out.done(opener.insert(&Alone, alloc, &WriteRef::of(write)));
}

/// Adds the writes that follow the log, until one is refused.
fn insert_all(alloc: Global, opener: &mut Opener, writes: &[Write], out: &mut Out) {
    for write in writes {
        if out.halt().is_some() {
            break;
        }
        insert(alloc, opener, write, out);
    }
}

/// Writes the extent to which a log was read: 0 for all of it, 1 and an offset if it is torn, or 2 if it is damaged.
fn write_ended(out: &mut Out, ended: Ended) {
    match ended {
        Ended::Torn(place) => {
            out.number(1);
            out.number(place);
        }
        Ended::Clean => out.number(0),
        _ => out.number(2),
    }
}

/// Returns an opening store with the writes of a log and those that follow. Writes the extent to which the log was read.
fn begun(
    rt: &(impl Threads + Sync),
    alloc: Global,
    given: &Beginning<'_>,
    out: &mut Out,
) -> Result<Opener, AllocError> {
    let Recovered { mut opener, ended } = recovered(
        rt,
        alloc,
        given.log,
        given.options,
        given.way,
    )?;
    write_ended(out, ended);
    insert_all(alloc, &mut opener, &given.writes, out);
    Ok(opener)
}

/// Returns the version of the writes that were added.
fn finished(
    rt: &(impl Threads + Sync),
    alloc: Global,
    opener: Opener,
    keeps: &[u64],
    is_alone: bool,
) -> Result<Version, OpenError> {
    if is_alone {
        opener.finish(&Alone, alloc, keeps)
    } else {
        opener.finish(&InThreads(rt), alloc, keeps)
    }
}

/// Returns a store of a version.
fn owned<O: Operator>(
    alloc: Global,
    version: Version,
    options: Options,
) -> Result<Owned<O>, OpenError> {
    if options.are_good() {
        Ok(Owned::new(alloc, version, options)?)
    } else {
        Err(OpenError::BadOption)
    }
}

/// Returns the store of a log and the writes that follow, or the reason why it isn't opened.
fn opened_of_log<O: Operator>(
    rt: &(impl Threads + Sync),
    alloc: Global,
    given: &Beginning<'_>,
    out: &mut Out,
) -> Result<Owned<O>, OpenError> {
    let opener = begun(rt, alloc, given, out)?;
    if out.halt().is_some() {
        return Err(OpenError::Memory);
    }
    let is_alone = given.way == 2 || given.way == 5;
    let version = finished(rt, alloc, opener, &given.keeps, is_alone)?;
    owned::<O>(alloc, version, given.options)
}

/// Returns the store of plain writes, or the reason why it isn't opened.
fn opened_of_writes<O: Operator>(
    clock: &impl Clock,
    alloc: Global,
    given: Beginning<'_>,
    out: &mut Out,
) -> Result<Owned<O>, OpenError> {
    let (options, keeps, writes) = given.into_parts();
    let Some(writes) = Writes::of(writes) else {
        out.refuse();
        return Err(OpenError::Memory);
    };
    out.watch.restart(clock);
    let opened = open_plain::<O>(alloc, &writes, &keeps, options);
    out.watch.stop(clock);
    opened
}

/// Opens a store. Returns it, or the reason why it isn't opened. Writes the extent to which its log was read, if it has one. Clocks only
/// the opening. If the answer already says that there is no store, the error is ignored.
pub(crate) fn open<O: Operator>(
    rt: &(impl Threads + Clock + Sync),
    alloc: Global,
    call: &mut Input<'_>,
    out: &mut Out,
) -> Result<Owned<O>, OpenError> {
    let given = given(alloc, call)?;
    out.watch.restart(rt);
    if given.way == 0 {
        opened_of_writes::<O>(rt, alloc, given, out)
    } else {
        opened_of_log::<O>(rt, alloc, &given, out)
    }
}
