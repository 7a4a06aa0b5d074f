//! The command line of `ucstore`: its subcommands, their options, and what `--help` says.
//!
//! [`ucstore`] makes the command line, which `clap` matches with the words. [`options`], [`operator_name`] and [`numbers_of`] read
//! what the words set. What the words then run stands in the program. This crate knows options and names alone, and no store.
//!
//! Read `command.rt`, then `ask_numbers.rt`.
//!
//! An `Err(AllocError)` comes only if an allocation fails.
//!
//! Tests: `crates/ucstore/cases/run`.
#![tactic(auto)]

mod ask_numbers;
mod command;

pub use ask_numbers::{AskNumbers, numbers_of};
pub use command::{Shown, operator_name, options, ucstore};
