//! [`Maximum`]: the greatest byte string.
ghost use Rattle.uc_oper.specs.Greatest as greatest;
ghost use Rattle.std.specs.Prelude.{◌≡◌, IfOk};

use crate::operator::Operator;
use std::alloc::{AllocError, Global};
use std::cmp::Ordering;

/// Keeps the greater operand in byte order, as RocksDB's `MaxOperator` does.
pub enum Maximum {}

/// The greater of two byte strings.
fn greater_of<'a>(older: &'a [u8], newer: &'a [u8]) -> &'a [u8]
    ensures { result.now ≡ greatest.greater_of older.now newer.now }
{
    match older.cmp(&newer) {
        Ordering::Less => newer,
        Ordering::Equal | Ordering::Greater => older,
    }
}

/// The greater byte string, in the memory of the older one.
#[inline]
fn keep_greater(mut older: Vec<u8>, newer: &[u8]) -> Result<Vec<u8>, AllocError>
    ensures { IfOk result (λ text. text.items ≡ greatest.greater_of older.items newer.now) }
{
    if older.as_slice().cmp(&newer).is_lt() {
        older.clear();
        older.extend_from_slice(newer)?;
    }
    Ok(older)
}

impl Operator for Maximum {
    ghost meaning = { greatest.greatest };

    ghost lawful = { greatest.greatest_lawful };

    fn first(alloc: Global, operand: &[u8]) -> Result<Vec<u8>, AllocError> {
        Vec::from_slice(alloc, operand)
    }

    fn join(alloc: Global, base: &[u8], operand: &[u8]) -> Result<Vec<u8>, AllocError> {
        Vec::from_slice(alloc, greater_of(base, operand))
    }

    fn pair(alloc: Global, older: &[u8], newer: &[u8]) -> Result<Vec<u8>, AllocError> {
        Vec::from_slice(alloc, greater_of(older, newer))
    }

    /// Keeps the value if it is the greater. It allocates only if the value has no capacity for the operand.
    fn join_onto(_: Global, base: Vec<u8>, operand: &[u8]) -> Result<Vec<u8>, AllocError> {
        keep_greater(base, operand)
    }

    /// Keeps the older operand if it is the greater. It allocates only if that has no capacity for the newer one.
    fn pair_onto(_: Global, older: Vec<u8>, newer: &[u8]) -> Result<Vec<u8>, AllocError> {
        keep_greater(older, newer)
    }
}
