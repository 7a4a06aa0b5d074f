//! Laws about every way to join, about effects and about totals.
ghost use Rattle.std.specs.Prelude.{◌≡◌, ℕ, List, Option, ◌++◌, fold};
ghost use Rattle.std.specs.List.{AllByRecursion};
ghost use Rattle.uc_oper.specs.declared.effect.Effect.{Effect as EffectOf};
ghost use Rattle.uc_oper.specs.Composition.{applied, composed};
ghost use Rattle.uc_fold.specs.declared.totals.Totals.{Totals as TotalsOf};
ghost use Rattle.uc_fold.specs.Adding.{nothing, added, places, IsHeldSum};
ghost use Rattle.uc_fold.specs.Composing.{applied_in_turn};

use crate::joins::Joins;
use uc_oper::Operator;

/// Parts may be joined in any grouping.
pub fn joins_are_associative<J: Joins>()
    ensures { (a b c : J.Part) → J.join (J.join a b) c ≡ J.join a (J.join b c) }
{}

/// The unit changes no part, before it or after it.
pub fn unit_changes_nothing<J: Joins>()
    ensures left { (part : J.Part) → J.fits part → J.join J.unit part ≡ part }
    ensures right { (part : J.Part) → J.fits part → J.join part J.unit ≡ part }
{}

/// Wherever a list of parts is cut, the folds of its two pieces join to the fold of the whole.
pub fn folds_may_be_cut<J: Joins>()
    ensures { (front back : List J.Part) → fold J.join J.unit (front ++ back)
        ≡ J.join (fold J.join J.unit front) (fold J.join J.unit back) }
{}

/// Applying a fold of effects equals applying the effects one after the other.
pub fn effects_act_in_turn<O: Operator>()
    ensures { (effects : List EffectOf) (value : Option (List ℕ)) →
        applied O.meaning (fold (composed O.meaning) EffectOf.Keep effects) value ≡ applied_in_turn O.meaning value effects }
{}

/// Each total is the sum over all parts, but at most 2^64 - 1.
pub fn sums_are_held()
    ensures { (parts : List TotalsOf) → AllByRecursion (IsHeldSum parts (fold added nothing parts)) places }
{}
