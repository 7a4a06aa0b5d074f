//! [`Counter`]: numbers that are added.
ghost use Rattle.uc_oper.specs.Counting as counting;
ghost use Rattle.std.specs.Prelude.{◌≡◌, ◌+◌, ◌%◌, ◌^◌, IfOk};

use crate::operator::Operator;
use std::alloc::{AllocError, Global};

/// Adds 64-bit integers, as RocksDB's `UInt64AddOperator` does.
///
/// A value of 8 bytes is an integer, low byte first; any other value counts as 0. Sums wrap at 2^64, and every result has 8 bytes.
pub enum Counter {}

/// The number that the bytes encode.
fn number(bytes: &[u8]) -> u64
    ensures { result ≡ counting.number bytes.now }
{
    match bytes {
        [a, b, c, d, e, f, g, h] => u64::from_le_bytes([*a, *b, *c, *d, *e, *f, *g, *h]),
        _ => 0,
    }
}

/// The sum of two numbers, modulo 2^64.
fn wrapped_sum(older: &[u8], newer: &[u8]) -> u64
    ensures { result ≡ (counting.number older.now + counting.number newer.now) % 2 ^ 64 }
{
    number(older).wrapping_add(number(newer))
}

/// The sum of two numbers as 8 bytes.
fn sum_of(alloc: Global, older: &[u8], newer: &[u8]) -> Result<Vec<u8>, AllocError>
    ensures { IfOk result (λ value. value.items ≡ counting.sum_of older.now newer.now) }
{
    Vec::from_slice(alloc, &wrapped_sum(older, newer).to_le_bytes())
}

/// The same sum in the memory of the older number.
#[inline]
fn add_onto(mut older: Vec<u8>, newer: &[u8]) -> Result<Vec<u8>, AllocError>
    ensures { IfOk result (λ value. value.items ≡ counting.sum_of older.items newer.now) }
{
    let sum = wrapped_sum(older.as_slice(), newer).to_le_bytes();
    older.clear();
    older.extend_from_slice(&sum)?;
    Ok(older)
}

impl Operator for Counter {
    ghost meaning = { counting.counting };

    ghost lawful = { counting.counting_lawful };

    fn first(alloc: Global, operand: &[u8]) -> Result<Vec<u8>, AllocError> {
        Vec::from_slice(alloc, &number(operand).to_le_bytes())
    }

    fn join(alloc: Global, base: &[u8], operand: &[u8]) -> Result<Vec<u8>, AllocError> {
        sum_of(alloc, base, operand)
    }

    fn pair(alloc: Global, older: &[u8], newer: &[u8]) -> Result<Vec<u8>, AllocError> {
        sum_of(alloc, older, newer)
    }

    /// Writes the sum in place. It allocates only if the value has no capacity for 8 bytes.
    fn join_onto(_: Global, base: Vec<u8>, operand: &[u8]) -> Result<Vec<u8>, AllocError> {
        add_onto(base, operand)
    }

    /// Writes the sum in place. It allocates only if the older operand has no capacity for 8 bytes.
    fn pair_onto(_: Global, older: Vec<u8>, newer: &[u8]) -> Result<Vec<u8>, AllocError> {
        add_onto(older, newer)
    }
}
