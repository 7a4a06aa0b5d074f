//! Rows: keys with their values, as a scan shows them, in one buffer.
//!
//! [`RowBuffer`] keeps rows one after the other, each as the length of its key, the key, the length of its value, and the value: a
//! row has no separate allocation. [`Rows`] are those whose keys rise. `specs/RowBytes.antt` defines their encoding; read it first,
//! then `row_buffer.rt`.
//!
//! An `Err(AllocError)` comes only if an allocation fails.
//!
//! Tests: `tests/base.py`.
#![tactic(auto)]

mod laying;
mod row_buffer;
mod row_iter;
mod rows;
mod spelling;

pub use laying::Laid;
pub use row_buffer::RowBuffer;
pub use row_iter::RowIter;
pub use rows::Rows;
pub use spelling::push_text;
