//! [`EffectRef`]: an effect whose value may be borrowed.
ghost use Rattle.std.specs.Prelude.{◌≡◌, ◌↔◌, Some, true, IsTrue, IfOk};
ghost use Rattle.uc_oper.specs.Composition as composition;
ghost use Rattle.uc_oper.specs.declared.effect.Effect.TheVariants as variants;
ghost use Rattle.uc_oper.specs.Lent.{sets};

use crate::effect::Effect;
use crate::operator::Operator;
use crate::value_ref::ValueRef;
use std::alloc::{AllocError, Global};
use std::marker::Model;
use uc_bytes::Bytes;

/// Where an effect lies.
#[derive(Drop)]
enum Kind<'a> {
    /// The value is put, and its bytes are where they were written.
    Put(&'a [u8]),
    /// The effect owns its bytes.
    Own(Effect),
}

/// The effect of some writes together on the value of one key: an [`Effect`] whose value may still lie where it was written, so
/// that a put takes no memory. A contract sees it as the [`Effect`].
#[derive(Drop)]
pub struct EffectRef<'a> {
    kind: Kind<'a>,
}

impl<'a> Model for EffectRef<'a> {
    ghost use Rattle.uc_oper.specs.declared.effect.Effect.{Effect};
    ghost use Rattle.uc_oper.specs.Lent.{effect_of};

    ghost Value = { Effect };

    ghost view = { λ e. effect_of e.kind };
}

impl<'a> EffectRef<'a> {
    /// The key has this value, whatever it was.
    #[inline]
    pub fn put(value: &'a [u8]) -> EffectRef<'a>
        ensures { result ≡ variants.Set (Some value.now) }
    {
        EffectRef {
            kind: Kind::Put(value),
        }
    }

    /// An effect that owns its bytes.
    #[inline]
    pub fn own(effect: Effect) -> EffectRef<'a>
        ensures { result ≡ effect }
    {
        EffectRef {
            kind: Kind::Own(effect),
        }
    }

    /// Whether it sets the value, so that what older writes do is of no account.
    #[inline]
    pub fn is_set(&self) -> bool
        ensures { IsTrue result ↔ (sets self.now ≡ true) }
    {
        match &self.kind {
            Kind::Put(_) | Kind::Own(Effect::Set(_)) => true,
            Kind::Own(Effect::Keep | Effect::Fold(_)) => false,
        }
    }

    /// The effect, with a copy of a borrowed value.
    #[inline]
    pub fn into_effect(self, alloc: Global) -> Result<Effect, AllocError>
        ensures { IfOk result (λ effect. effect ≡ self.entry) }
    {
        match self.kind {
            Kind::Put(value) => Ok(Effect::Set(Some(Bytes::from_slice(alloc, value)?))),
            Kind::Own(effect) => Ok(effect),
        }
    }

    /// Composes this effect and a newer operand, which may be written into this effect's own buffer. An `Err` loses the effect.
    pub fn folded<O: Operator>(self, alloc: Global, operand: &[u8]) -> Result<Effect, AllocError>
        ensures { IfOk result (λ both. both ≡ composition.folded O.meaning self.entry operand.now) }
    {
        match self.kind {
            Kind::Put(value) => {
                let after = O::join(alloc, value, operand)?;
                Ok(Effect::Set(Some(Bytes::from(after))))
            }
            Kind::Own(effect) => effect.folded::<O>(alloc, operand),
        }
    }

    /// Composes both effects, this one first. A newer `Keep` copies nothing, and a newer `Set` drops this one. An `Err`
    /// loses both.
    pub fn then<O: Operator>(
        self,
        alloc: Global,
        newer: Effect,
    ) -> Result<EffectRef<'a>, AllocError>
        ensures { IfOk result (λ both. both ≡ composition.composed O.meaning self.entry newer) }
    {
        match newer {
            Effect::Keep => Ok(self),
            Effect::Set(value) => Ok(EffectRef::own(Effect::Set(value))),
            Effect::Fold(operand) => {
                let both = self.folded::<O>(alloc, operand.as_slice())?;
                Ok(EffectRef::own(both))
            }
        }
    }

    /// The value that it makes of a value, or of none, as [`Effect::apply`] does: a borrowed one isn't copied. An `Err` loses both.
    #[inline]
    pub fn apply<O: Operator>(
        self,
        alloc: Global,
        value: Option<Bytes>,
    ) -> Result<Option<ValueRef<'a>>, AllocError>
        ensures { IfOk result (λ after. after ≡ composition.applied O.meaning self.entry value) }
    {
        match self.kind {
            Kind::Put(value) => Ok(Some(ValueRef::lent(value))),
            Kind::Own(effect) => match effect.apply::<O>(alloc, value)? {
                Some(value) => Ok(Some(ValueRef::own(value))),
                None => Ok(None),
            },
        }
    }
}
