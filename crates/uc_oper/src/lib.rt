//! Merge operators and effects.
//!
//! An operator is a type: it says how an operand of a merge combines with a value, or with an older operand, and proves
//! the three laws by which operands may be grouped in any way. An effect is what some writes together do to one key.
//! Read `operator.rt` first, then `effect.rt`. An [`EffectRef`] is an effect whose value may still lie where it was
//! written, and a [`ValueRef`] such a value.
//!
//! An `Err(AllocError)` comes only if an allocation fails.
//!
//! Tests: `tests/base.py`.
#![tactic(auto)]

mod append;
mod counter;
mod effect;
mod effect_ref;
mod laws;
mod maximum;
mod merging;
mod operator;
mod tail;
mod value_ref;

pub use append::Append;
pub use counter::Counter;
pub use effect::Effect;
pub use effect_ref::EffectRef;
pub use laws::{apply_composes, keep_is_unit, then_is_associative};
pub use maximum::Maximum;
pub use merging::merged;
pub use operator::Operator;
pub use tail::Tail;
pub use value_ref::{ValueRef, owned_value};
