//! Look-ups in views that C holds, and scans of them.
ghost use Rattle.std.specs.Prelude.{◌≡◌, ◌⊎◌, Some, None, if◌then◌else◌};
ghost use Rattle.uc_query_read.specs.declared.query.Query.TheVariants as queries;
ghost use Rattle.uc_engine.specs.EngineViews.{answer_seen, rows_seen, rows_seen_back, value_seen};
ghost use Rattle.uc_c.specs.declared.status.TheConstants.{OK, OUT_OF_MEMORY, NO_VIEW};
ghost use Rattle.uc_c.specs.Many.{FoundMany};
ghost use Rattle.uc_c.specs.Reading.{Found, FoundAt};
ghost use Rattle.uc_c.specs.Replies.{IsRead};
ghost use Rattle.uc_c.specs.Rows.{AreShown, Scanned, rows_scanned};

use crate::many::look_up_many;
use crate::reading::{look_up, look_up_at};
use crate::scanning::{lay, scan_at};
use crate::status::{NO_VIEW, OUT_OF_MEMORY};
use std::alloc::Global;
use uc_handle::ViewHandle;

/// Looks a key up in a view, as `ucstore_get` does in a store.
#[unsafe(no_mangle)]
pub extern "C" fn ucstore_view_get(
    alloc: Global,
    view: &mut ViewHandle,
    key: &[u8],
    room: &mut [u8],
    size: &mut usize,
) -> i32
    ensures found { IsRead NO_VIEW result view.old.held view.new.held (λ v.
        (result ≡ OUT_OF_MEMORY) ⊎ Found result (value_seen v key.now) room.old room.new size.new) }
    ensures untold { (result ≡ OK) ⊎ ((room.new ≡ room.old) × (size.new ≡ size.old)) }
{
    let Some(held) = view.take(alloc) else {
        return NO_VIEW;
    };
    let status = look_up(alloc, &*held, key, room, size);
    view.put(held);
    status
}

/// Looks a key up in a view at a snapshot that was there then, as `ucstore_get_at` does in a store.
#[unsafe(no_mangle)]
pub extern "C" fn ucstore_view_get_at(
    alloc: Global,
    view: &mut ViewHandle,
    key: &[u8],
    at: u64,
    room: &mut [u8],
    size: &mut usize,
) -> i32
    ensures found { IsRead NO_VIEW result view.old.held view.new.held (λ v.
        (result ≡ OUT_OF_MEMORY)
        ⊎ FoundAt result (answer_seen v (queries.Get key.now at)) room.old room.new size.new) }
    ensures untold { (result ≡ OK) ⊎ ((room.new ≡ room.old) × (size.new ≡ size.old)) }
{
    let Some(held) = view.take(alloc) else {
        return NO_VIEW;
    };
    let status = look_up_at(alloc, &*held, key, at, room, size);
    view.put(held);
    status
}

/// Looks many keys up in a view, as `ucstore_get_many` does in a store.
#[unsafe(no_mangle)]
pub extern "C" fn ucstore_view_get_many(
    alloc: Global,
    view: &mut ViewHandle,
    keys: &[u8],
    key_lengths: &[u64],
    value_lengths: &mut [u64],
    room: &mut [u8],
    size: &mut usize,
) -> i32
    ensures found { IsRead NO_VIEW result view.old.held view.new.held (λ v.
        FoundMany result (value_seen v) keys.now key_lengths.now value_lengths.old value_lengths.new
        room.old room.new size.new) }
    ensures untold { (result ≡ OK)
        ⊎ ((value_lengths.new ≡ value_lengths.old) × (room.new ≡ room.old) × (size.new ≡ size.old)) }
{
    let Some(held) = view.take(alloc) else {
        return NO_VIEW;
    };
    let status = look_up_many(alloc, &*held, keys, key_lengths, value_lengths, room, size);
    view.put(held);
    status
}

/// Scans a view as `ucstore_view_scan` does or, if `is_back` is true, as `ucstore_view_scan_back` does.
fn scan(
    alloc: Global,
    view: &mut ViewHandle,
    low: &[u8],
    high: &[u8],
    bounded: bool,
    is_back: bool,
    limit: u64,
    room: &mut [u8],
    size: &mut usize,
    count: &mut u64,
) -> i32
    ensures scanned { IsRead NO_VIEW result view.old.held view.new.held (λ v. (result ≡ OUT_OF_MEMORY)
        ⊎ ((result ≡ OK) × AreShown (rows_scanned is_back v low.now (if bounded then Some high.now else None) limit)
        room.old room.new size.new count.new)) }
    ensures untold { (result ≡ OK) ⊎ ((size.new ≡ size.old) × (count.new ≡ count.old)) }
{
    let Some(mut held) = view.take(alloc) else {
        return NO_VIEW;
    };
    let status = match held.sort(alloc) {
        Ok(()) => lay(
            alloc, &*held, low, high, bounded, is_back, limit, room, size, count,
        ),
        Err(_) => OUT_OF_MEMORY,
    };
    view.put(held);
    status
}

/// Scans a view, as `ucstore_scan` does a store. The first scan of a view sorts the writes in its memtables, for all of its handles
/// that are made after it. The rows are copied once, into the buffer: if the scan fails, its contents are unspecified.
#[unsafe(no_mangle)]
pub extern "C" fn ucstore_view_scan(
    alloc: Global,
    view: &mut ViewHandle,
    low: &[u8],
    high: &[u8],
    bounded: bool,
    limit: u64,
    room: &mut [u8],
    size: &mut usize,
    count: &mut u64,
) -> i32
    ensures scanned { IsRead NO_VIEW result view.old.held view.new.held (λ v. (result ≡ OUT_OF_MEMORY)
        ⊎ ((result ≡ OK) × AreShown (rows_seen v low.now (if bounded then Some high.now else None) limit)
        room.old room.new size.new count.new)) }
    ensures untold { (result ≡ OK) ⊎ ((size.new ≡ size.old) × (count.new ≡ count.old)) }
{
    scan(
        alloc, view, low, high, bounded, false, limit, room, size, count,
    )
}

/// Scans a view against the order of keys: the last rows, at most `limit`, the greatest key first, written as `ucstore_scan`
/// does. It sorts, and copies the rows, as `ucstore_view_scan` does.
#[unsafe(no_mangle)]
pub extern "C" fn ucstore_view_scan_back(
    alloc: Global,
    view: &mut ViewHandle,
    low: &[u8],
    high: &[u8],
    bounded: bool,
    limit: u64,
    room: &mut [u8],
    size: &mut usize,
    count: &mut u64,
) -> i32
    ensures scanned { IsRead NO_VIEW result view.old.held view.new.held (λ v. (result ≡ OUT_OF_MEMORY)
        ⊎ ((result ≡ OK) × AreShown (rows_seen_back v low.now (if bounded then Some high.now else None) limit)
        room.old room.new size.new count.new)) }
    ensures untold { (result ≡ OK) ⊎ ((size.new ≡ size.old) × (count.new ≡ count.old)) }
{
    scan(
        alloc, view, low, high, bounded, true, limit, room, size, count,
    )
}

/// Scans a view at a snapshot that was there then, as `ucstore_scan_at` does a store, and sorts as `ucstore_view_scan`
/// does.
#[unsafe(no_mangle)]
pub extern "C" fn ucstore_view_scan_at(
    alloc: Global,
    view: &mut ViewHandle,
    low: &[u8],
    high: &[u8],
    bounded: bool,
    at: u64,
    limit: u64,
    room: &mut [u8],
    size: &mut usize,
    count: &mut u64,
) -> i32
    ensures scanned { IsRead NO_VIEW result view.old.held view.new.held (λ v.
        (result ≡ OUT_OF_MEMORY)
        ⊎ Scanned result
        (answer_seen v (queries.Scan low.now (if bounded then Some high.now else None) at limit))
        room.old room.new size.new count.new) }
    ensures untold { (result ≡ OK)
        ⊎ ((room.new ≡ room.old) × (size.new ≡ size.old) × (count.new ≡ count.old)) }
{
    let Some(mut held) = view.take(alloc) else {
        return NO_VIEW;
    };
    let status = match held.sort(alloc) {
        Ok(()) => scan_at(
            alloc, &*held, low, high, bounded, at, limit, room, size, count,
        ),
        Err(_) => OUT_OF_MEMORY,
    };
    view.put(held);
    status
}
