//! Code by which both stores compact stretches of a version's runs: they pick one, merge its runs, validate the result and install
//! it.
//!
//! The store of one owner (`uc_version`) and the store that threads share (`uc_share`) use this crate. Nothing here depends on the
//! owner of a claim.
//!
//! Read `specs/Compacting.antt` first, then `asked.rt`, `stretches.rt` and `refusal.rt`. `specs/Ranges.antt` says which stretches
//! may be claimed at all, and `candidates.rt` picks one.
//!
//! An `Err(AllocError)`, or a variant `Memory`, comes only if an allocation fails.
//!
//! Tests: `tests/owner.py`.
#![tactic(auto)]

mod asked;
mod candidates;
mod claim_error;
mod install_error;
mod install_laws;
mod refusal;
mod runs;
mod stretches;

pub use asked::Asked;
pub use candidates::pick;
pub use claim_error::ClaimError;
pub use install_error::InstallError;
pub use install_laws::{
    own_compactions_stay_installable, two_own_compactions_install_beside_others,
    what_fits_may_be_installed,
};
pub use refusal::{are_inputs, error_of, install_refusal, own_refusal, present_refusal};
pub use runs::{run_ids, runs_of, slots_of, stretch_runs};
pub use stretches::{compact_stretch, compact_stretch_by, install_of};
