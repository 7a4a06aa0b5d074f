//! Laws about the definitions alone.
ghost use Rattle.std.specs.Prelude.{◌≡◌, ◌≤◌, Bool, List, length};
ghost use Rattle.uc_logrec.specs.Division.{IsDivision, remainder};

/// The division that defines a checksum is division. A polynomial over GF(2) of 32 coefficients or more is a multiple
/// of the divisor plus its remainder, and no other remainder will do.
///
/// Proof step: does nothing when it runs.
pub fn division()
    ensures exists { (bits : List Bool) → 32 ≤ length bits
        → (quotient : List Bool) × IsDivision bits quotient (remainder bits) }
    ensures unique { (bits quotient rest : List Bool) → IsDivision bits quotient rest
        → rest ≡ remainder bits }
{}
