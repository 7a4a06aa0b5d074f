//! Folds of many parts in several threads.
//!
//! Effects of writes on a key, and totals of runs, are known part by part, and the parts are joined in order. [`Joins`]
//! says how two neighbours become one. Since grouping doesn't matter, [`fold_all`] may cut a list anywhere and fold the
//! pieces in threads of their own. Its result is that of one thread that goes from left to right. [`Effects`] joins
//! effects on one key, and [`Sums`] adds totals. Read `joins.rt` first, then `folding.rt`.
//!
//! An `Err(AllocError)` comes only if an allocation fails.
//!
//! Tests: `tests/base.py`.
#![tactic(auto)]

mod effects;
mod folding;
mod joins;
mod laws;
mod totals;

pub use effects::Effects;
pub use folding::fold_all;
pub use joins::Joins;
pub use laws::{
    effects_act_in_turn, folds_may_be_cut, joins_are_associative, sums_are_held,
    unit_changes_nothing,
};
pub use totals::{Sums, Totals};
