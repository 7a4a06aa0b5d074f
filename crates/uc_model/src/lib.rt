//! The meaning of a read, and the plain slow program that computes it.
//!
//! The model is one flat list of writes, oldest first, and one left fold for each key. It knows no run, memtable or
//! compaction: any other way to keep the writes must answer as this crate does. Read `specs/Meaning.antt` first.
//!
//! An `Err(AllocError)` comes only if an allocation fails.
//!
//! Tests: `tests/base.py`.
#![tactic(auto)]

mod laws;
mod value;

pub use laws::{
    each_write_changes_what_it_touches, effect_continues_value, effect_gives_value,
    effects_of_parts_compose, effects_of_stripes_compose, keys_are_touched_by_name_or_range,
    later_writes_change_nothing, untouched_key_keeps_its_value, value_is_given,
};
pub use value::{effect_at, touches_key, value_at};
