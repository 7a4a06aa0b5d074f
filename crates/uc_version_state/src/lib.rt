//! Versions: the contents of a store at one point in time, the events that may change it, and the runs that are compacted next.
//!
//! A [`Version`] has sorted runs, the newest first, the keeps (snapshots' sequences), and the number of the next run. An event
//! changes it; a history is an opening and the events after it. Read `specs/Versions.antt` first, then `specs/Openings.antt`,
//! `specs/Installs.antt` and `specs/Histories.antt`. `laws.rt` says what a store opens with, and that no event changes what is
//! read.
//!
//! [`Options`] say how a store is opened and compacted. The rules of picking are those of RocksDB's universal compaction: space
//! amplification, size ratio and number of runs, in this order. `specs/Picks.antt` defines them, `picking.rt` picks, and
//! `pick_laws.rt` has the laws of a pick.
//!
//! Concurrent compactors are a machine of single steps. `specs/Machine.antt` is the whole machine: what a compactor does, when it
//! may, and what follows. In `specs/Courses.antt` any number of compactors make their steps in any order, and others feed, keep and
//! release between them. `step_laws.rt` has the law that no checked compactor is ever displaced.
//!
//! An `Err(AllocError)` comes only if an allocation fails.
//!
//! Tests: `tests/owner.py`, `tests/drawn_stores.py`.
#![tactic(auto)]

mod candidate;
mod cuts;
mod event;
mod feed_error;
mod feeds;
mod install;
mod laws;
mod options;
mod pick_laws;
mod picking;
mod placed;
mod refusal;
mod refusing;
mod release_error;
mod replace;
mod snapshots;
mod standing;
mod step_laws;
mod stretch;
mod terms;
mod version;

pub use candidate::Candidate;
pub use cuts::memtable_count;
pub use event::Event;
pub use feed_error::FeedError;
pub use feeds::placed_onto;
pub use install::Install;
pub use laws::{
    beginnings_are_legal, events_change_what_they_say, events_give_versions,
    feeds_and_keeps_give_versions, first_ids_leave_a_number_for_each_slot,
    flushed_runs_take_the_least_slots, histories_grow_by_events, histories_keep_what_is_read,
    histories_say_writes_and_keeps, install_gives_a_version, install_keeps_what_is_read,
    memtables_are_filled_in_turn, neighbours_stand_where_their_ids_say,
    no_refusal_is_leave_to_feed, no_writes_change_nothing, opened_keeps_are_those_given,
    opening_gives_a_version, opening_keeps_every_effect, runs_are_replaced_once,
    runs_keep_their_contents, runs_stay_until_replaced, small_writes_fill_one_memtable,
};
pub use options::{GREATEST_FIRST_ID, Options};
pub use pick_laws::{
    amplified_runs_are_all_picked, collected_is_the_greatest_number,
    nothing_is_picked_below_the_trigger, number_of_runs_picks_from_the_first_stretch,
    picks_are_unclaimed_runs, size_ratio_picks_the_first_that_collects_enough,
    something_is_picked_above_the_trigger,
};
pub use picking::pick_among;
pub use placed::Placed;
pub use refusal::Refusal;
pub use release_error::ReleaseError;
pub use step_laws::{a_lone_compactor_installs, never_stale, two_compactors_install_beside_others};
pub use stretch::Stretch;
pub use terms::Terms;
pub use version::Version;
