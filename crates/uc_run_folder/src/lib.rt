//! The folder of a database whose checkpoints are lists of run files, and the machine that says which file operation comes next. There
//! is no input or output here.
//!
//! A run is written once, to a file of its own number. A *list* names runs, which have together what older logs had: it is what a base
//! is in `uc_folder`, whose machine makes it. A [`RunFolder`] writes the runs that have no file yet, syncs each, and syncs the names,
//! before that machine may begin the list. The new list is read back with its runs before the logs, lists and runs go that no list
//! names any more.
//!
//! `specs/Files.antt` says what lists and runs are and what a crash keeps of them; `specs/Steps.antt` is the machine, and
//! `specs/RunWorlds.antt` both together, over the definitions of `uc_folder`. Read these first, then [`laws`], which hold for every list
//! of events.
//!
//! Tests: `tests/run_worlds.py`, its own.
#![tactic(auto)]

pub mod laws;
mod listing;
mod phases;
mod run_action;
mod run_folder;
mod run_state;
#[cfg(test)]
mod tests;

pub use listing::{RunFault, is_orphan, runs_found_in};
pub use phases::Phase;
pub use run_action::RunAction;
pub use run_folder::RunFolder;
pub use run_state::{RunState, run_folders_have_numbers, run_step};
