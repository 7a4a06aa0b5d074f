//! Scans of the store of a handle, and of what else is [`Readable`].
ghost use Rattle.std.specs.Prelude.{◌≡◌, ◌⊎◌, Some, None, IfOk, if◌then◌else◌};
ghost use Rattle.uc_query_read.specs.declared.query.Query.TheVariants as queries;
ghost use Rattle.uc_engine.specs.Engines.{answer_in, last_rows};
ghost use Rattle.uc_engine.specs.EngineViews.{answer_seen};
ghost use Rattle.uc_c.specs.declared.status.TheConstants.{OK, OUT_OF_MEMORY};
ghost use Rattle.uc_c.specs.Compacting.{Settles};
ghost use Rattle.uc_c.specs.Replies.{Answers, Becomes};
ghost use Rattle.uc_c.specs.Rows.{AreShown, IsScanned, Scanned, rows_scanned};
ghost use Rattle.uc_rows.specs.Laying.{AreLaid};

use crate::readable::Readable;
use crate::room::fill;
use crate::status::{NO_STORE, NOT_PROTECTED, OK, OUT_OF_MEMORY};
use std::alloc::{AllocError, Global};
use uc_engine::{Answer, Bytes, Engine, EngineView, Laid, Query, RowBuffer, Rows};
use uc_handle::Handle;

/// The most writes in memtables that a scan sorts: if there are more, they are flushed first.
const MOST_SORTED: usize = 256;

/// The end of a scan, if it is bounded.
pub fn bound(alloc: Global, high: &[u8], bounded: bool) -> Result<Option<Bytes>, AllocError>
    ensures { IfOk result (λ bound. bound ≡ (if bounded then Some high.now else None)) }
{
    if bounded {
        Ok(Some(Bytes::from_slice(alloc, high)?))
    } else {
        Ok(None)
    }
}

/// Scans the first rows, at most `limit`, of the keys from `low` to below `high`, or to the last one if they aren't bounded, at the
/// last sequence number. Writes the rows that fit the buffer one after the other, each as 8 bytes for the key's length, low byte
/// first, the key, 8 bytes for the value's length, and the value. Stores their number, and the size of all rows. If memtables hold
/// many writes, they are flushed first, unless a batch is prepared. Fails if allocation fails.
#[unsafe(no_mangle)]
pub extern "C" fn ucstore_scan(
    alloc: Global,
    handle: &mut Handle,
    low: &[u8],
    high: &[u8],
    bounded: bool,
    limit: u64,
    room: &mut [u8],
    size: &mut usize,
    count: &mut u64,
) -> i32
    ensures scanned { Becomes result handle.old.held handle.new.held (λ e e'. Settles e e' × ((result ≡ OUT_OF_MEMORY)
        ⊎ ((result ≡ OK) × AreShown (last_rows e' low.now (if bounded then Some high.now else None) limit)
        room.old room.new size.new count.new))) }
    ensures untold { (result ≡ OK)
        ⊎ ((room.new ≡ room.old) × (size.new ≡ size.old) × (count.new ≡ count.old)) }
{
    let Some(mut engine) = handle.take(alloc) else {
        return NO_STORE;
    };
    engine.settle(alloc, MOST_SORTED);
    let status = scan(
        alloc, &*engine, low, high, bounded, limit, room, size, count,
    );
    handle.put(engine);
    status
}

/// Scans as `ucstore_scan` does, at a sequence number. Fails if no snapshot is at that number, or if allocation fails.
#[unsafe(no_mangle)]
pub extern "C" fn ucstore_scan_at(
    alloc: Global,
    handle: &mut Handle,
    low: &[u8],
    high: &[u8],
    bounded: bool,
    at: u64,
    limit: u64,
    room: &mut [u8],
    size: &mut usize,
    count: &mut u64,
) -> i32
    ensures scanned { Answers result handle.old.held handle.new.held (λ e.
        (result ≡ OUT_OF_MEMORY)
        ⊎ Scanned result
        (answer_in e (queries.Scan low.now (if bounded then Some high.now else None) at limit))
        room.old room.new size.new count.new) }
    ensures untold { (result ≡ OK)
        ⊎ ((room.new ≡ room.old) × (size.new ≡ size.old) × (count.new ≡ count.old)) }
{
    let Some(engine) = handle.take(alloc) else {
        return NO_STORE;
    };
    let status = scan_at(
        alloc, &*engine, low, high, bounded, at, limit, room, size, count,
    );
    handle.put(engine);
    status
}

/// Scans an engine at the last sequence, as `ucstore_scan` does.
fn scan(
    alloc: Global,
    engine: &Engine,
    low: &[u8],
    high: &[u8],
    bounded: bool,
    limit: u64,
    room: &mut [u8],
    size: &mut usize,
    count: &mut u64,
) -> i32
    ensures shown { (result ≡ OUT_OF_MEMORY) ⊎ ((result ≡ OK)
        × AreShown (last_rows engine.now low.now (if bounded then Some high.now else None) limit)
        room.old room.new size.new count.new) }
    ensures untold { (result ≡ OK)
        ⊎ ((room.new ≡ room.old) × (size.new ≡ size.old) × (count.new ≡ count.old)) }
{
    match rows_in(alloc, engine, low, high, bounded, limit) {
        Ok(rows) => {
            show_rows(rows.as_buffer(), room, size, count);
            OK
        }
        Err(_) => OUT_OF_MEMORY,
    }
}

/// The rows of a scan at the last sequence.
fn rows_in(
    alloc: Global,
    engine: &Engine,
    low: &[u8],
    high: &[u8],
    bounded: bool,
    limit: u64,
) -> Result<Rows, AllocError>
    ensures { IfOk result (λ rows.
        rows ≡ last_rows engine.now low.now (if bounded then Some high.now else None) limit) }
{
    let high = bound(alloc, high, bounded)?;
    engine.scan(alloc, low, &high, limit)
}

/// Copies the rows of a view at the last sequence number to the buffer: the first rows, or the last ones, the greatest key first, if
/// `is_back` is true.
fn lay_rows(
    alloc: Global,
    view: &EngineView,
    low: &[u8],
    high: &Option<Bytes>,
    is_back: bool,
    limit: u64,
    room: &mut [u8],
) -> Result<Laid, AllocError>
    ensures { IfOk result (AreLaid (rows_scanned is_back view.now low.now high.now limit) room.old room.new) }
{
    if is_back {
        view.lay_rows_back(alloc, low, high, limit, room)
    } else {
        view.lay_rows(alloc, low, high, limit, room)
    }
}

/// Copies the rows of a view at the last sequence number to the buffer, as `ucstore_view_scan` does, or if `is_back` is true, as
/// `ucstore_view_scan_back` does.
pub fn lay(
    alloc: Global,
    view: &EngineView,
    low: &[u8],
    high: &[u8],
    bounded: bool,
    is_back: bool,
    limit: u64,
    room: &mut [u8],
    size: &mut usize,
    count: &mut u64,
) -> i32
    ensures shown { (result ≡ OUT_OF_MEMORY) ⊎ ((result ≡ OK)
        × AreShown (rows_scanned is_back view.now low.now (if bounded then Some high.now else None) limit)
        room.old room.new size.new count.new) }
    ensures untold { (result ≡ OK) ⊎ ((size.new ≡ size.old) × (count.new ≡ count.old)) }
{
    let Ok(high) = bound(alloc, high, bounded) else {
        return OUT_OF_MEMORY;
    };
    match lay_rows(alloc, view, low, &high, is_back, limit, room) {
        Ok(laid) => {
            *size = laid.size;
            *count = laid.fitting;
            OK
        }
        Err(_) => OUT_OF_MEMORY,
    }
}

/// Scans at a sequence, as `ucstore_scan_at` does.
pub fn scan_at<R: Readable>(
    alloc: Global,
    source: &R,
    low: &[u8],
    high: &[u8],
    bounded: bool,
    at: u64,
    limit: u64,
    room: &mut [u8],
    size: &mut usize,
    count: &mut u64,
) -> i32
    ensures scanned { (result ≡ OUT_OF_MEMORY) ⊎ Scanned result
        (answer_seen (R.viewed source.now) (queries.Scan low.now (if bounded then Some high.now else None) at limit))
        room.old room.new size.new count.new }
    ensures untold { (result ≡ OK)
        ⊎ ((room.new ≡ room.old) × (size.new ≡ size.old) × (count.new ≡ count.old)) }
{
    match answer_to(alloc, source, low, high, bounded, at, limit) {
        Ok(answer) => show(&answer, room, size, count),
        Err(_) => OUT_OF_MEMORY,
    }
}

/// The answer to a scan at a sequence.
fn answer_to<R: Readable>(
    alloc: Global,
    source: &R,
    low: &[u8],
    high: &[u8],
    bounded: bool,
    at: u64,
    limit: u64,
) -> Result<Answer, AllocError>
    ensures { IfOk result (λ answer. answer
        ≡ answer_seen (R.viewed source.now) (queries.Scan low.now (if bounded then Some high.now else None) at limit)) }
{
    let query = Query::Scan {
        low: Bytes::from_slice(alloc, low)?,
        high: bound(alloc, high, bounded)?,
        at,
        limit,
    };
    source.answer(alloc, &query)
}

/// Writes the rows that fit the buffer, and stores their number, and the size of all.
fn show_rows(rows: &RowBuffer, room: &mut [u8], size: &mut usize, count: &mut u64)
    ensures { AreShown rows.now room.old room.new size.new count.new }
{
    let (bytes, fit) = rows.fitting(room.len());
    fill(room, bytes);
    *size = rows.as_bytes().len();
    *count = fit as u64;
}

/// Writes the rows of an answer that fit the buffer.
fn show(answer: &Answer, room: &mut [u8], size: &mut usize, count: &mut u64) -> i32
    requires { IsScanned answer.now }
    ensures scanned { Scanned result answer.now room.old room.new size.new count.new }
    ensures untold { (result ≡ OK)
        ⊎ ((room.new ≡ room.old) × (size.new ≡ size.old) × (count.new ≡ count.old)) }
{
    match answer {
        Answer::Rows(rows) => {
            show_rows(rows.as_buffer(), room, size, count);
            OK
        }
        Answer::NotProtected(_) => NOT_PROTECTED,
        Answer::Value(_) => unreachable!(),
    }
}
