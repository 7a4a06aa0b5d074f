//! A memtable that is read while it takes writes.
//!
//! An [`ActiveMemtable`] takes writes in two steps. `prepare` reserves all memory and may fail; `commit` shows what was prepared
//! and can't fail. A lookup by [`ActiveMemtable::effect`] finds the effect of the shown writes on a key. Read
//! `specs/Gathering.antt` and `active_memtable.rt` first, then `sight.rt` and `lookup.rt`.
//!
//! [`GatheredMemtables`] does the same, and [`GatheredMemtables::share`] returns its present contents for other threads: it freezes
//! the active memtable after those that are frozen already, and begins another. Read `gathered_memtables.rt`, `frozen_memtables.rt`
//! and `joining.rt`. [`FlushableMemtables::set_apart`] returns them for a thread that flushes them, and keeps them apart until
//! [`FlushableMemtables::drop_apart`] (`flushable_memtables.rt`).
//!
//! The writes of a key are found by [`Chains`](chains::Chains): each write has a label, which is the hash of its key, and writes
//! whose labels share a bucket are in one chain, from the newest on. `specs/Labels.antt` and `specs/Linked.antt` define them.
//!
//! Tests: `tests/memtables.py`.
//!
//! An `Err(AllocError)` comes only if an allocation fails.
#![tactic(auto)]

mod active_memtable;
mod chains;
mod copying;
mod flushable_memtables;
mod frozen_memtable;
mod frozen_memtables;
mod gathered_memtables;
mod joining;
mod label;
mod linking;
mod lookup;
mod sight;

pub use active_memtable::ActiveMemtable;
pub use flushable_memtables::FlushableMemtables;
pub use gathered_memtables::GatheredMemtables;
