//! [`OperatorKind`]: which operator merges.
ghost use Rattle.std.specs.Prelude.{◌≡◌};
ghost use Rattle.uc_engine.specs.Engines.{kind_numbered};

use uc_oper::{Append, Tail};

/// The delimiter of [`OperatorKind::Append`].
pub(crate) const COMMA: u8 = b',';

/// The number of bytes that [`OperatorKind::Tail`] keeps.
pub(crate) const KEPT: usize = 4;

/// The operator of [`OperatorKind::Append`].
pub(crate) type Texts = Append<COMMA>;

/// The operator of [`OperatorKind::Tail`].
pub(crate) type LastBytes = Tail<KEPT>;

/// The merge operator (RocksDB wiki, "Merge Operator").
#[derive(Clone, Copy, Debug, PartialEq, Eq)]
pub enum OperatorKind {
    /// Byte strings joined by commas, as RocksDB's `StringAppendOperator` does.
    Append,
    /// Sums of 64-bit numbers.
    Counter,
    /// The greater byte string.
    Maximum,
    /// The last four bytes of all operands.
    Tail,
    /// The operators that each operand names.
    Mixed,
}

impl OperatorKind {
    /// The operator with a number: 0 for `Append`, 1 for `Counter`, 2 for `Maximum`, 3 for `Tail` and 4 for `Mixed`.
    pub fn of(number: u32) -> Option<OperatorKind>
        ensures { result ≡ kind_numbered number }
    {
        match number {
            0 => Some(OperatorKind::Append),
            1 => Some(OperatorKind::Counter),
            2 => Some(OperatorKind::Maximum),
            3 => Some(OperatorKind::Tail),
            4 => Some(OperatorKind::Mixed),
            _ => None,
        }
    }
}
