//! Laws about effects under every operator.
ghost use Rattle.std.specs.Prelude.{◌≡◌, ℕ, List, Option};
ghost use Rattle.uc_oper.specs.declared.effect.Effect.{Effect as EffectOf};
ghost use Rattle.uc_oper.specs.Composition.{composed, applied};

use crate::operator::Operator;

/// Composition of effects is associative under every operator.
pub fn then_is_associative<O: Operator>()
    ensures { (a b c : EffectOf) →
        composed O.meaning (composed O.meaning a b) c ≡
        composed O.meaning a (composed O.meaning b c) }
{}

/// `Keep` changes nothing, before an effect or after it.
pub fn keep_is_unit<O: Operator>()
    ensures left { (e : EffectOf) → composed O.meaning EffectOf.Keep e ≡ e }
    ensures right { (e : EffectOf) → composed O.meaning e EffectOf.Keep ≡ e }
{}

/// Applying two effects in turn equals applying their composition.
pub fn apply_composes<O: Operator>()
    ensures { (older newer : EffectOf) (value : Option (List ℕ)) →
        applied O.meaning (composed O.meaning older newer) value ≡ applied O.meaning newer (applied O.meaning older value) }
{}
