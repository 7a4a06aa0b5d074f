//! The machine that orders the file operations of a database's directory. A crash at any moment loses nothing that was acknowledged. The
//! crate itself does no input or output.
//!
//! A directory has *logs*, to which batches are appended, and *bases*, which contain the batches of older logs, so that these can be
//! removed. An opening reads the newest base and the logs from its number on, which [`found_in`] determines. Then a [`Machine`] takes over.
//! It returns the next operation of the writer, of a sync, of the next log and of the checkpointer, and learns the result of each. It
//! counts the batches that may be acknowledged as synced.
//!
//! `specs/Device.antt` defines files, names and crashes, `specs/Steps.antt` the machine, and `specs/Worlds.antt` the two together. Read
//! these first, then the [`laws`], which hold for every list of events.
//!
//! Tests: `tests/worlds.py`, its own.
#![tactic(auto)]

mod action;
pub mod laws;
mod listing;
mod machine;
mod phases;
mod state;
#[cfg(test)]
mod tests;

pub use action::Action;
pub use listing::{Base, Found, Listed, Missing, found_in};
pub use machine::Machine;
pub use phases::{Checkpointer, NextLog, Writer};
pub use state::{State, Step, machines_have_numbers};
