//! [`Mixed`]: operands that name their operators.
ghost use Rattle.uc_mixed.specs.Mixing as mixing;

use crate::applying::value_after;
use crate::pairing;
use std::alloc::{AllocError, Global};
use uc_bytes::Bytes;
use uc_oper::Operator;

/// Applies the parts of an operand in turn, each by the operator that it names.
///
/// A value is plain bytes. An operand is a list of parts, each a payload, its length and its operator
/// ([`operand_of`](crate::operand_of)). Parts of one operator are combined where two operands meet, so a run of additions stays one
/// part. Bytes that are left before the first part replace the value, and so do bytes that end with no part.
pub enum Mixed {}

impl Operator for Mixed {
    ghost meaning = { mixing.mixed };

    ghost lawful = { mixing.mixed_lawful };

    fn first(alloc: Global, operand: &[u8]) -> Result<Vec<u8>, AllocError> {
        value_after(alloc, None, operand)
    }

    fn join(alloc: Global, base: &[u8], operand: &[u8]) -> Result<Vec<u8>, AllocError> {
        value_after(alloc, Some(Bytes::from_slice(alloc, base)?), operand)
    }

    fn pair(alloc: Global, older: &[u8], newer: &[u8]) -> Result<Vec<u8>, AllocError> {
        pairing::pair_onto(Vec::from_slice(alloc, older)?, newer)
    }

    /// Writes into the value's memory. An operand of one part takes no other memory, unless the value grows.
    fn join_onto(alloc: Global, base: Vec<u8>, operand: &[u8]) -> Result<Vec<u8>, AllocError> {
        value_after(alloc, Some(Bytes::from(base)), operand)
    }

    /// Writes into the older operand's memory. It looks at the last part of the older operand alone, and copies the newer one.
    fn pair_onto(_: Global, older: Vec<u8>, newer: &[u8]) -> Result<Vec<u8>, AllocError> {
        pairing::pair_onto(older, newer)
    }
}
