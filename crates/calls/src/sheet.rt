//! Calls of operators, effects and plain writes. They are stateless.
use crate::input::Input;
use crate::out::Out;
use crate::said;
use crate::talk::Talk;
use std::alloc::{AllocError, Global};
use std::io;
use std::marker::Sync;
use std::thread::Threads;
use std::time::Clock;
use uc_bytes::{Bytes, Write};
use uc_fold::{Effects, fold_all};
use uc_model::{effect_at, value_at};
use uc_oper::{Effect, Operator, merged};

/// Combines two byte strings by the operator, in the older one's memory.
fn joined<O: Operator>(alloc: Global, older: &[u8], newer: &[u8]) -> Result<Vec<u8>, AllocError> {
    O::join_onto(alloc, Vec::from_slice(alloc, older)?, newer)
}

/// Combines two operands by the operator, in the older one's memory.
fn paired<O: Operator>(alloc: Global, older: &[u8], newer: &[u8]) -> Result<Vec<u8>, AllocError> {
    O::pair_onto(alloc, Vec::from_slice(alloc, older)?, newer)
}

/// Reads an older byte string and a newer one. Writes the operator's result for the newer one alone and for both, in new memory and in
/// the older one's.
fn operate<O: Operator>(alloc: Global, call: &mut Input<'_>, out: &mut Out) {
    let (older, newer) = (call.bytes(), call.bytes());
    out.made(O::first(alloc, newer));
    out.made(O::join(alloc, older, newer));
    out.made(O::pair(alloc, older, newer));
    out.made(joined::<O>(alloc, older, newer));
    out.made(paired::<O>(alloc, older, newer));
}

/// Reads a value and an operand. Writes the value after the merge.
fn merge<O: Operator>(alloc: Global, call: &mut Input<'_>) -> Result<Vec<u8>, AllocError> {
    let value = said::value(alloc, call)?;
    Ok(merged::<O>(alloc, value, call.bytes())?.into_vec())
}

/// Reads two effects. Writes their composition.
fn then<O: Operator>(alloc: Global, call: &mut Input<'_>) -> Result<Effect, AllocError> {
    let older = said::effect(alloc, call)?;
    let newer = said::effect(alloc, call)?;
    older.then::<O>(alloc, newer)
}

/// Reads an effect and an operand. Writes the effect after the merge.
fn fold<O: Operator>(alloc: Global, call: &mut Input<'_>) -> Result<Effect, AllocError> {
    let effect = said::effect(alloc, call)?;
    effect.folded::<O>(alloc, call.bytes())
}

/// Reads an effect and a value. Writes the value after the effect.
fn apply<O: Operator>(alloc: Global, call: &mut Input<'_>) -> Result<Option<Bytes>, AllocError> {
    let effect = said::effect(alloc, call)?;
    let value = said::value(alloc, call)?;
    effect.apply::<O>(alloc, value)
}

/// Reads effects. Writes their composition, computed in threads.
fn fold_effects<O: Operator + Sync>(
    rt: &(impl Threads + Sync),
    alloc: Global,
    call: &mut Input<'_>,
) -> Result<Effect, AllocError> {
    fold_all::<Effects<O>>(rt, alloc, said::list::<Effect>(alloc, call)?)
}

/// Writes an optional value, unless allocation failed.
fn write_value(out: &mut Out, made: Result<Option<Bytes>, AllocError>) {
    match made {
        Ok(Some(value)) => out.some_bytes(Some(value.as_slice())),
        Ok(None) => out.some_bytes(None),
        Err(_) => out.want(),
    }
}

/// Reads writes, a key and a sequence number. Writes the key's value there, and the effect of the writes on it.
fn read<O: Operator>(alloc: Global, writes: &[Write], call: &mut Input<'_>, out: &mut Out) {
    let (key, at) = (call.bytes(), call.number());
    write_value(out, value_at::<O>(alloc, writes, key, at));
    out.made_effect(effect_at::<O>(alloc, writes, key, at));
}

/// Reads the arguments of `read`, and writes its answer.
fn read_writes<O: Operator>(alloc: Global, call: &mut Input<'_>, out: &mut Out) {
    match said::list::<Write>(alloc, call) {
        Ok(writes) => read::<O>(alloc, &writes, call, out),
        Err(_) => out.want(),
    }
}

/// Makes a call of the given kind.
pub(crate) fn play<O: Operator + Sync>(
    rt: &(impl Threads + Sync),
    alloc: Global,
    kind: u64,
    call: &mut Input<'_>,
    out: &mut Out,
) {
    match kind {
        0 => operate::<O>(alloc, call, out),
        1 => out.made(merge::<O>(alloc, call)),
        2 => out.made_effect(then::<O>(alloc, call)),
        3 => out.made_effect(fold::<O>(alloc, call)),
        4 => write_value(out, apply::<O>(alloc, call)),
        5 => out.made_effect(fold_effects::<O>(rt, alloc, call)),
        7 => read_writes::<O>(alloc, call, out),
        _ => out.refuse(),
    }
}

/// Makes all calls.
pub(crate) fn play_all<O: Operator + Sync>(
    rt: &(impl Threads + Clock + Sync + Print),
    alloc: Global,
    talk: &mut Talk<'_>,
) -> io::Result<()> {
    for _ in 0..u64::MAX {
        let Some(mut call) = talk.next(rt, alloc) else {
            break;
        };
        let kind = call.number();
        play::<O>(rt, alloc, kind, &mut call, talk.answer());
        talk.end(rt, alloc, call)?;
    }
    Ok(())
}
