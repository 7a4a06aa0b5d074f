//! The store that threads share: readers pin versions, compactors claim stretches of them, compact concurrently with the readers,
//! and install the results, while others feed writes and take snapshots, all in one history.
//!
//! An [`Opening`] is opened from writes and becomes a [`Store`] once it has a name. A store has claim words, and under a lock what
//! shows readers the next version. A [`Reader`] pins versions without waiting. A compactor's turn goes through these types, each of
//! which is made of the one before by one function alone, so that its steps come in this order:
//!
//! | Type | Made by | What its owner has done | |---|---|---| | [`Seat`] | `Words::new`, and by giving slots back | nothing | |
//! `Taken` | `Taken::take` | taken the slots of a stretch of a pin | | [`Held`] | `Held::look` | and found its runs in place in a
//! version that was shown after that | | [`Seat`] | [`Store::install`], [`Store::abandon`] | published, to which the slots are
//! lent, or not; and given them back |
//!
//! [`Store::compact_once`] takes a whole turn, and returns its result as a [`Turn`]. A [`Compactor`] is a reader with a seat, for a
//! thread that only takes turns.
//!
//! [`Store::feed`] feeds writes, and [`Store::keep`] and [`Store::release`] take and release snapshots. Each of these, as each
//! install, appends one event to the history, and is shown to all readers atomically.
//!
//! An `Err(AllocError)` or `Memory` comes only if an allocation fails or too many own what is shared.
//!
//! Read `specs/Claims.antt`, `specs/Installing.antt`, `specs/Live.antt` and `specs/Turns.antt` first, then `opening.rt`,
//! `taken.rt`, `held.rt`, `store.rt`, `live_store.rt`, `desk.rt` and `turn.rt`.
//!
//! Below that stands the history. A [`Front`] is a beginning of it that somebody has seen, a `Book` the history with the right to
//! add to it, and a [`Name`] says which store it is. What is shown to readers is a version with the history that leads to it
//! (`Shown`); a [`Reader`] pins it, and a `Publisher` shows the next one. Read `specs/Fronts.antt` first, then `rule.rt`,
//! `front.rt`, `book.rt`, `reader.rt` and `publisher.rt`.
//!
//! Tests: `tests/shared.py`, `uc_tests_threads`.
#![tactic(auto)]

mod book;
mod compactor;
mod desk;
mod first_readers;
mod front;
mod front_laws;
mod held;
mod laws;
mod live_desk;
mod live_store;
mod name;
mod opening;
mod pin;
mod publisher;
mod reader;
mod rule;
mod share;
mod shown;
mod store;
mod taken;
mod turn;
mod turn_gate;
mod words;

pub use compactor::Compactor;
pub use first_readers::MOST_READERS;
pub use front::Front;
pub use front_laws::{
    claimed_runs_stay_the_same, fronts_go_behind_histories, fronts_replace_runs_once,
};
pub use held::Held;
pub use laws::{own_compactions_are_refused_for_two_reasons, steps_are_those_of_the_machine};
pub use name::Name;
pub use opening::{MOST_SEATS, Opening, are_counts};
pub use pin::Pin;
pub use reader::Reader;
pub use store::Store;
pub use turn::Turn;
pub use turn_gate::{TurnGate, Ungated};
pub use uc_claims::Seat;
pub use uc_version_compact::{ClaimError, InstallError};
pub use uc_version_open::OpenError;
pub use uc_version_state::{FeedError, Options, ReleaseError, Stretch, Version};
