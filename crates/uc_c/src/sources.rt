//! Where look-ups are answered, in the store of a handle and in views that C holds.
ghost use Rattle.std.specs.Prelude.{◌≡◌, ◌⊎◌, [], ◌∷◌};
ghost use Rattle.uc_live.specs.Sources.{source_of};
ghost use Rattle.uc_live.specs.Views.{seen_in};
ghost use Rattle.uc_c.specs.declared.sources.TheConstants as numbers;
ghost use Rattle.uc_c.specs.declared.status.TheConstants.{OK, NO_VIEW};
ghost use Rattle.uc_c.specs.Replies.{Answers, IsRead};
ghost use Rattle.uc_c.specs.Sources.{TellsSource, number_of};

use crate::readable::Readable;
use crate::status::{NO_STORE, NO_VIEW, OK, OUT_OF_MEMORY};
use std::alloc::Global;
use uc_engine::LookupSource;
use uc_handle::{Handle, ViewHandle};

/// A write in the memtables puts or deletes the key.
pub const MEMTABLE: u32 = 0;

/// None of them does, and no write of a run touches the key.
pub const FILTERS: u32 = 1;

/// None of them does, and a write of a run touches the key.
pub const RUNS: u32 = 2;

/// The sources have the numbers that `enum ucstore_source` gives them, in its order.
pub fn sources_are_numbered()
    ensures { numbers.MEMTABLE ∷ numbers.FILTERS ∷ numbers.RUNS ∷ [] ≡ 0 ∷ 1 ∷ 2 ∷ [] }
{}

/// Stores which part of the store answers a lookup of a key at the last sequence number. Fails if allocation fails.
#[unsafe(no_mangle)]
pub extern "C" fn ucstore_source(
    alloc: Global,
    handle: &mut Handle,
    key: &[u8],
    source: &mut u32,
) -> i32
    ensures told { Answers result handle.old.held handle.new.held (λ e.
        TellsSource result (source_of (seen_in e.live) key.now) source.new) }
    ensures untold { (result ≡ OK) ⊎ (source.new ≡ source.old) }
{
    let Some(engine) = handle.take(alloc) else {
        return NO_STORE;
    };
    let status = tell_source(alloc, &*engine, key, source);
    handle.put(engine);
    status
}

/// Stores which part of a view answers a lookup of a key, as `ucstore_source` does for a store.
#[unsafe(no_mangle)]
pub extern "C" fn ucstore_view_source(
    alloc: Global,
    view: &mut ViewHandle,
    key: &[u8],
    source: &mut u32,
) -> i32
    ensures told { IsRead NO_VIEW result view.old.held view.new.held (λ v.
        TellsSource result (source_of v.seen key.now) source.new) }
    ensures untold { (result ≡ OK) ⊎ (source.new ≡ source.old) }
{
    let Some(held) = view.take(alloc) else {
        return NO_VIEW;
    };
    let status = tell_source(alloc, &*held, key, source);
    view.put(held);
    status
}

/// Stores which part answers a lookup, as `ucstore_source` does.
fn tell_source<R: Readable>(alloc: Global, readable: &R, key: &[u8], source: &mut u32) -> i32
    ensures told { TellsSource result (source_of (R.viewed readable.now).seen key.now) source.new }
    ensures untold { (result ≡ OK) ⊎ (source.new ≡ source.old) }
{
    match readable.source(alloc, key) {
        Ok(told) => {
            *source = number(told);
            OK
        }
        Err(_) => OUT_OF_MEMORY,
    }
}

/// The number of a source.
fn number(source: LookupSource) -> u32
    ensures { result ≡ number_of source }
{
    match source {
        LookupSource::Memtable => MEMTABLE,
        LookupSource::Filters => FILTERS,
        LookupSource::Runs => RUNS,
    }
}
