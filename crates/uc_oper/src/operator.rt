//! [`Operator`]: what a merge operator has to give.
ghost use Rattle.std.specs.Prelude.{◌≡◌, IfOk};
ghost use Rattle.uc_oper.specs.Operation.{Operation, IsLawful};

use std::alloc::{AllocError, Global};

/// A rule by which the operands of merges combine (RocksDB wiki, "Merge Operator": an associative merge with a partial merge that
/// may always be made).
///
/// An operator is a type without values, so values of two operators are never mixed. An implementation provides the first three
/// functions. The two that take the older byte string by value have the same result. Those that write into its memory save a copy
/// of it.
pub trait Operator {
    /// The three functions, on lists of bytes.
    ghost meaning: { Operation };

    /// The value that a first operand makes if the key has none.
    fn first(alloc: Global, operand: &[u8]) -> Result<Vec<u8>, AllocError>
        ensures { IfOk result (λ value. value.items ≡ meaning.first operand.now) };

    /// The value that an operand makes of the value before it.
    fn join(alloc: Global, base: &[u8], operand: &[u8]) -> Result<Vec<u8>, AllocError>
        ensures { IfOk result (λ value. value.items ≡ meaning.join base.now operand.now) };

    /// The one operand that does what an older and a newer one do in turn.
    fn pair(alloc: Global, older: &[u8], newer: &[u8]) -> Result<Vec<u8>, AllocError>
        ensures { IfOk result (λ operand. operand.items ≡ meaning.pair older.now newer.now) };

    /// [`Operator::join`] into the memory of the value before it. An `Err` loses that value.
    fn join_onto(alloc: Global, base: Vec<u8>, operand: &[u8]) -> Result<Vec<u8>, AllocError>
        ensures { IfOk result (λ value. value.items ≡ meaning.join base.items operand.now) }
    {
        Self::join(alloc, base.as_slice(), operand)
    }

    /// [`Operator::pair`] into the memory of the older operand. An `Err` loses that operand.
    fn pair_onto(alloc: Global, older: Vec<u8>, newer: &[u8]) -> Result<Vec<u8>, AllocError>
        ensures { IfOk result (λ operand. operand.items ≡ meaning.pair older.items newer.now) }
    {
        Self::pair(alloc, older.as_slice(), newer)
    }

    /// Operands may be combined before they meet a value, in any grouping.
    ghost lawful: { IsLawful meaning };
}
