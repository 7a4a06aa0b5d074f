//! The meaning of the claim rule, as a law that the check proves.
ghost use Rattle.std.specs.Prelude.{ℕ, List, ◌≤◌, All};
ghost use Rattle.uc_claims.specs.Claims.{Claims, AreApart};
ghost use Rattle.uc_claims.specs.declared.rule.Claimant.{Claimant};

/// No slot is ever in two seats' lists. Wherever the claim rule holds, the lists of two seats have no slot in common,
/// and each word is 0 or 1. The rule holds between any two steps of any number of threads.
///
/// Proof step: does nothing when it runs. Its contract speaks of the rule alone.
pub fn no_slot_in_two_lists()
    ensures apart { (count : ℕ) (words : List ℕ) (seats : List Claimant) → Claims count words seats → AreApart seats }
    ensures words { (count : ℕ) (words : List ℕ) (seats : List Claimant) →
        Claims count words seats → All (λ word. word ≤ 1) words }
{}
