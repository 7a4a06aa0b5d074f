//! The operator `mixed`: each operand names the operators that it applies.
//!
//! Read `part_kind.rt` first, then `mixed.rt`. An operand is read from its end (`part.rt`), so that two are combined by a look at the
//! part at the seam.
//!
//! An `Err(AllocError)` comes if an allocation fails, or if the payload of a part would have 2^32 bytes.
//!
//! Tests: `tests/mixed.py`.
#![tactic(auto)]

mod applying;
mod bytewise;
mod combining;
mod mixed;
mod number;
mod operand;
mod pairing;
mod part;
mod part_kind;
mod set;
mod spelling;

pub use mixed::Mixed;
pub use operand::{has_shape, is_operand, operand_of};
pub use part_kind::PartKind;
