//! A key's value, and what writes do to it.
ghost use Rattle.std.specs.Prelude.{◌≡◌, IfOk};
ghost use Rattle.uc_model.specs.Meaning as meaning;

use std::alloc::{AllocError, Global};
use uc_bytes::{Bytes, Op, Write};
use uc_oper::{Effect, Operator, merged};

/// Whether an operation touches a key: it names the key, or it deletes a range that holds it, from `begin` to below
/// `end` (RocksDB wiki, "DeleteRange").
pub fn touches_key(op: &Op, key: &[u8]) -> bool
    ensures { result ≡ meaning.touches_key key.now op.now }
{
    match op {
        Op::Put(named, _) => named.as_slice() == key,
        Op::Delete(named) => named.as_slice() == key,
        Op::Merge(named, _) => named.as_slice() == key,
        Op::DeleteRange(begin, end) => {
            begin.as_slice().cmp(&key).is_le() && key.cmp(&end.as_slice()).is_lt()
        }
    }
}

/// Whether a read of a key at a sequence sees a write: the write is at or below the sequence and touches the key.
fn is_seen(write: &Write, key: &[u8], at: u64) -> bool
    ensures { result ≡ meaning.is_seen key.now at write.now }
{
    write.seq <= at && touches_key(&write.op, key)
}

/// The value that an operation leaves of a key that it touches.
fn changed<O: Operator>(
    alloc: Global,
    value: Option<Bytes>,
    op: &Op,
) -> Result<Option<Bytes>, AllocError>
    ensures { IfOk result (λ after. after ≡ meaning.changed O.meaning value op.now) }
{
    match op {
        Op::Put(_, new) => Ok(Some(new.clone()?)),
        Op::Delete(_) | Op::DeleteRange(_, _) => Ok(None),
        Op::Merge(_, operand) => Ok(Some(merged::<O>(alloc, value, operand.as_slice())?)),
    }
}

/// A key's value at a sequence: the writes at or below it that touch the key, folded from no value. The list is oldest
/// first. It looks at every write.
pub fn value_at<O: Operator>(
    alloc: Global,
    writes: &[Write],
    key: &[u8],
    at: u64,
) -> Result<Option<Bytes>, AllocError>
    ensures { IfOk result (λ value. value ≡ meaning.value_of O.meaning writes.now key.now at) }
{
    let mut value = None;
    for write in writes {
        if is_seen(write, key, at) {
            value = changed::<O>(alloc, value, &write.op)?;
        }
    }
    Ok(value)
}

/// The effect of the writes at or below a sequence on a key: their single effects, composed. The list is oldest
/// first. It looks at every write.
pub fn effect_at<O: Operator>(
    alloc: Global,
    writes: &[Write],
    key: &[u8],
    at: u64,
) -> Result<Effect, AllocError>
    ensures { IfOk result (λ effect. effect ≡ meaning.effect_on O.meaning writes.now key.now at) }
{
    let mut effect = Effect::Keep;
    for write in writes {
        if is_seen(write, key, at) {
            effect = effect.then::<O>(alloc, effect_of(&write.op)?)?;
        }
    }
    Ok(effect)
}

/// The effect of one operation on a key that it touches.
fn effect_of(op: &Op) -> Result<Effect, AllocError>
    ensures { IfOk result (λ effect. effect ≡ meaning.effect_of op.now) }
{
    match op {
        Op::Put(_, new) => Ok(Effect::Set(Some(new.clone()?))),
        Op::Delete(_) | Op::DeleteRange(_, _) => Ok(Effect::Set(None)),
        Op::Merge(_, operand) => Ok(Effect::Fold(operand.clone()?)),
    }
}
