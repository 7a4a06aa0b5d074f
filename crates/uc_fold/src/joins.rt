//! [`Joins`]: how two neighbours become one part.
ghost use Rattle.std.specs.Prelude.{◌≡◌, IfOk};
ghost use Rattle.uc_fold.specs.Joining.{IsLawful};

use std::alloc::{AllocError, Global};
use std::marker::Send;

/// A way to join an older part and the newer one after it into one part.
///
/// An implementation is a type of which no value is needed, so parts that are joined in two ways are never mixed.
/// Neighbours may be joined in any grouping, but in no other order (RocksDB wiki, "Merge Operator": an associative
/// merge).
pub trait Joins {
    /// The type of a part.
    type Part: Send + Drop;

    /// The values that a part can have. A `u64` has no greatest value in proofs, so it is said here.
    ghost fits: { Self.Part → Type 0 };

    /// The part that [`Joins::unit`] returns.
    ghost unit: { Self.Part };

    /// The part that [`Joins::join`] makes of an older and a newer one.
    ghost join: { Self.Part → Self.Part → Self.Part };

    /// The part that changes none that it is joined with.
    fn unit() -> Self::Part
        ensures { result ≡ unit };

    /// Both parts as one, the older first. An `Err` loses both.
    fn join(alloc: Global, older: Self::Part, newer: Self::Part) -> Result<Self::Part, AllocError>
        ensures { IfOk result (λ both. both ≡ join older newer) };

    /// Parts may be grouped in any way, and the unit changes none.
    ghost lawful: { IsLawful fits unit join };
}
