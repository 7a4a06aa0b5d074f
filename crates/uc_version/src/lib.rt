//! The store of one owner: which stretches of runs are compacted, and what replaces them.
//!
//! An [`Owned`] has a version, and the claims of compactions of stretches of its runs. Read `specs/Owners.antt` first, then
//! `specs/Claiming.antt`, `specs/Installing.antt` and `owned.rt`; and `specs/AtOnce.antt` with `at_once.rt`, `specs/Feeding.antt`
//! with `live.rt`, `memtable_feed.rt` and `run_feed.rt`; and `specs/Jobs.antt` with `job.rt`. Compactions of any version's runs,
//! and their installs, are in `uc_version_compact`, whoever claims them. Openings and what is fed are in `uc_version_open`, and
//! versions in `uc_version_state`. This crate re-exports the public items of all three.
//!
//! An `Err(AllocError)`, or a variant `Memory`, comes only if an allocation fails.
//!
//! Tests: `tests/owner.py`, `tests/drawn_stores.py`.
#![tactic(auto)]

mod at_once;
mod claims;
mod compact_error;
mod held_stretch;
mod job;
mod job_end;
mod job_stage;
mod laws;
mod live;
mod memtable_feed;
mod opened_writes;
mod owned;
mod owned_claim;
mod run_feed;
mod runs;
mod slots;

pub use compact_error::CompactError;
pub use held_stretch::{HeldStretch, MOST_CLAIMS};
pub use job::Job;
pub use job_end::JobEnd;
pub use job_stage::JobStage;
pub use laws::{
    claimable_stretches_can_be_compacted, claims_are_held, claims_can_be_compacted,
    claims_keep_their_runs, installs_are_events, jobs_are_own,
    own_compactions_are_refused_for_ids_alone, owners_stay_owners, picks_can_be_claimed,
};
pub use opened_writes::open_plain;
pub use owned::Owned;
pub use owned_claim::OwnedClaim;
pub use uc_claims::MOST_SLOTS;
pub use uc_compact::{Alone, By, Merger};
pub use uc_version_compact::{
    ClaimError, InstallError, are_inputs, compact_stretch, compact_stretch_by, error_of,
    install_of, install_refusal, own_refusal, pick, present_refusal, run_ids, runs_of, slots_of,
    stretch_runs, what_fits_may_be_installed,
};
pub use uc_version_open::{InThreads, OpenError, Opener, Workers, open_version};
pub use uc_version_state::{
    Candidate, Event, FeedError, Install, Options, Placed, Refusal, ReleaseError, Stretch, Version,
};
