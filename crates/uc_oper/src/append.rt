//! [`Append`]: byte strings with a delimiter between them.
ghost use Rattle.uc_oper.specs.Appending as appending;
ghost use Rattle.std.specs.Prelude.{◌≡◌, IfOk, OnOk};

use crate::operator::Operator;
use std::alloc::{AllocError, Global};

/// Joins byte strings with the byte `D` between them, as RocksDB's `StringAppendOperator` does.
pub enum Append<const D: u8> {}

/// The older byte string, the delimiter, then the newer one.
// Inlined, so that the parts stay in registers: passing them through memory costs half of a fold's time.
#[inline]
fn appended(mut older: Vec<u8>, delimiter: u8, newer: &[u8]) -> Result<Vec<u8>, AllocError>
    ensures { IfOk result (λ text. text.items ≡ appending.appended delimiter older.items newer.now) }
{
    older.push(delimiter)?;
    older.extend_from_slice(newer)?;
    Ok(older)
}

impl<const D: u8> Operator for Append<D> {
    ghost meaning = { appending.appending D };

    ghost lawful = { appending.appending_lawful D };

    fn first(alloc: Global, operand: &[u8]) -> Result<Vec<u8>, AllocError> {
        Vec::from_slice(alloc, operand)
    }

    fn join(alloc: Global, base: &[u8], operand: &[u8]) -> Result<Vec<u8>, AllocError> {
        appended(Vec::from_slice(alloc, base)?, D, operand)
    }

    fn pair(alloc: Global, older: &[u8], newer: &[u8]) -> Result<Vec<u8>, AllocError> {
        appended(Vec::from_slice(alloc, older)?, D, newer)
    }

    /// Extends the value. It allocates only if the value has no spare capacity.
    fn join_onto(_: Global, base: Vec<u8>, operand: &[u8]) -> Result<Vec<u8>, AllocError> {
        appended(base, D, operand)
    }

    /// Extends the older operand. It allocates only if that has no spare capacity.
    fn pair_onto(_: Global, older: Vec<u8>, newer: &[u8]) -> Result<Vec<u8>, AllocError> {
        appended(older, D, newer)
    }
}
