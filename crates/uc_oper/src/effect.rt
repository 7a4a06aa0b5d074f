//! [`Effect`]: what writes do to one key.
ghost use Rattle.std.specs.Prelude.{◌≡◌, IfOk};
ghost use Rattle.uc_oper.specs.Composition as composition;

use crate::merging::merged;
use crate::operator::Operator;
use std::alloc::{AllocError, Global};
use uc_bytes::Bytes;

/// The effect of some writes together on the value of one key.
#[derive(Debug, PartialEq, Eq, Drop)]
pub enum Effect {
    /// The value stays as it was.
    Keep,
    /// The value is combined with this operand.
    Fold(Bytes),
    /// Whatever the value was, it is this one now, or none.
    Set(Option<Bytes>),
}

impl Effect {
    /// Composes both effects, this one first. It appends to this effect's buffer instead of copying it. So composing many newer
    /// effects in turn costs their total length plus the length of the last one. An `Err` loses both.
    pub fn then<O: Operator>(self, alloc: Global, newer: Effect) -> Result<Effect, AllocError>
        ensures { IfOk result (λ both. both ≡ composition.composed O.meaning self newer) }
    {
        match newer {
            Effect::Keep => Ok(self),
            Effect::Set(value) => Ok(Effect::Set(value)),
            Effect::Fold(operand) => match self {
                Effect::Keep => Ok(Effect::Fold(operand)),
                older => older.folded::<O>(alloc, operand.as_slice()),
            },
        }
    }

    /// Composes this effect and a newer operand: [`Effect::then`] for a borrowed operand. An `Err` loses the effect.
    pub fn folded<O: Operator>(self, alloc: Global, operand: &[u8]) -> Result<Effect, AllocError>
        ensures { IfOk result (λ both. both ≡ composition.folded O.meaning self operand.now) }
    {
        Ok(match self {
            Effect::Keep => Effect::Fold(Bytes::from_slice(alloc, operand)?),
            Effect::Fold(older) => {
                let pair = O::pair_onto(alloc, older.into_vec(), operand)?;
                Effect::Fold(Bytes::from(pair))
            }
            Effect::Set(value) => Effect::Set(Some(merged::<O>(alloc, value, operand)?)),
        })
    }

    /// The value that the effect makes of a value, or of none. An `Err` loses both.
    pub fn apply<O: Operator>(
        self,
        alloc: Global,
        value: Option<Bytes>,
    ) -> Result<Option<Bytes>, AllocError>
        ensures { IfOk result (λ after. after ≡ composition.applied O.meaning self value) }
    {
        Ok(match self {
            Effect::Keep => value,
            Effect::Fold(operand) => Some(merged::<O>(alloc, value, operand.as_slice())?),
            Effect::Set(value) => value,
        })
    }
}
