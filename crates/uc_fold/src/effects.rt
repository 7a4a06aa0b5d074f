//! [`Effects`]: effects on one key, joined in order.
ghost use Rattle.std.specs.Prelude.{◌≡◌, ⊤};
ghost use Rattle.uc_oper.specs.declared.effect.Effect.{Effect as EffectOf};
ghost use Rattle.uc_oper.specs.Composition.{composed};
ghost use Rattle.uc_fold.specs.Composing.{composing_lawful};

use crate::joins::Joins;
use std::alloc::{AllocError, Global};
use std::marker::PhantomData;
use uc_oper::{Effect, Operator};

/// Joins effects on one key, in order, under an operator.
pub struct Effects<O> {
    operator: PhantomData<O>,
}

impl<O: Operator> Joins for Effects<O> {
    type Part = Effect;

    ghost fits = { λ effect. ⊤ };

    ghost unit = { EffectOf.Keep };

    ghost join = { composed O.meaning };

    ghost lawful = { composing_lawful O.lawful };

    /// To keep the value.
    fn unit() -> Effect {
        Effect::Keep
    }

    /// Both effects, composed.
    fn join(alloc: Global, older: Effect, newer: Effect) -> Result<Effect, AllocError> {
        older.then::<O>(alloc, newer)
    }
}
