//! Byte strings and lists as contracts see them, and the writes that consist of them.
//!
//! Keys, values, operands and payloads are [`Bytes`] wherever a contract compares them. Lists of these or other items are [`Items`]. No
//! public field is a bare `Vec`. Read `bytes.rt` first.
//!
//! A write is one change to the store, together with the sequence number that orders it. [`Op`] and [`Write`] own their byte strings, and
//! [`OpRef`] and [`WriteRef`] borrow them. Logs, scripts, runs and the definition of a read all use these types. Read `op.rt` next.
//!
//! A call returns `Err(AllocError)` only if allocation fails.
//!
//! Tests: `tests/base.py`.
#![tactic(auto)]

mod bytes;
mod items;
mod op;
mod op_ref;
mod write;
mod write_ref;

pub use bytes::Bytes;
pub use items::Items;
pub use op::Op;
pub use op_ref::{OpKind, OpRef};
pub use write::{MAX_SEQUENCE, Write};
pub use write_ref::WriteRef;
