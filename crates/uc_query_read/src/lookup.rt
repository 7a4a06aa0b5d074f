//! The value of a key in runs.
ghost use Rattle.std.specs.Prelude.{◌≡◌, IfOk};
ghost use Rattle.uc_model.specs.Meaning.{effect_on, value_of};
ghost use Rattle.uc_oper.specs.Composition.{composed};
ghost use Rattle.uc_compact.specs.Inputs.{writes_of};
ghost use Rattle.uc_version_state.specs.Versions.{contents_of};

use std::alloc::{AllocError, Global};
use uc_bytes::Bytes;
use uc_model::{effect_gives_value, effects_of_parts_compose};
use uc_oper::{Effect, EffectRef, Operator, ValueRef, owned_value};
use uc_run::SoughtKey;
use uc_version_state::Placed;

/// Composes both effects, the older one first. A newer one that keeps the value costs a look at it. An `Err` loses both.
#[inline]
pub(crate) fn compose<'a, O: Operator>(
    alloc: Global,
    older: EffectRef<'a>,
    newer: Effect,
) -> Result<EffectRef<'a>, AllocError>
    ensures { IfOk result (λ both. both ≡ composed O.meaning older.entry newer) }
{
    if let Effect::Keep = newer {
        return Ok(older);
    }
    older.then::<O>(alloc, newer)
}

/// The effect of the writes of runs, the newest first, at or below a sequence on a key. It stops at the first run
/// that puts or deletes the key, since older writes are overwritten.
fn effect_of_runs<'a, O: Operator>(
    alloc: Global,
    runs: &'a [Placed],
    key: &SoughtKey<'_>,
    at: u64,
) -> Result<EffectRef<'a>, AllocError>
    ensures { IfOk result (λ effect. effect ≡ effect_on O.meaning (writes_of (contents_of runs.now)) key.now at) }
{
    effects_of_parts_compose::<O>();
    let mut newer = Effect::Keep;
    for placed in runs {
        let older = placed.run().effect_of_sought::<O>(alloc, key, at)?;
        let both = compose::<O>(alloc, older, newer)?;
        if both.is_set() {
            return Ok(both);
        }
        // It borrows no value, so this copies nothing.
        newer = both.into_effect(alloc)?;
    }
    Ok(EffectRef::own(newer))
}

/// The value that a key has in runs, the newest first, at a sequence. One that was put stays where it is.
pub(crate) fn value_of_runs<'a, O: Operator>(
    alloc: Global,
    runs: &'a [Placed],
    key: &SoughtKey<'_>,
    at: u64,
) -> Result<Option<ValueRef<'a>>, AllocError>
    ensures { IfOk result (λ value. value ≡ value_of O.meaning (writes_of (contents_of runs.now)) key.now at) }
{
    effect_gives_value::<O>();
    effect_of_runs::<O>(alloc, runs, key, at)?.apply::<O>(alloc, None)
}

/// As [`value_of_runs`], of a key that it hashes, with a copy of a value that was put.
pub(crate) fn owned_value_of_runs<O: Operator>(
    alloc: Global,
    runs: &[Placed],
    key: &[u8],
    at: u64,
) -> Result<Option<Bytes>, AllocError>
    ensures { IfOk result (λ value. value ≡ value_of O.meaning (writes_of (contents_of runs.now)) key.now at) }
{
    let value = value_of_runs::<O>(alloc, runs, &SoughtKey::new(key), at)?;
    owned_value(alloc, value)
}
