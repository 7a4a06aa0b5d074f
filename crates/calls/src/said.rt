//! Encodings of changes, writes, effects and points in calls.
use crate::input::Input;
use crate::out::Out;
use std::alloc::{AllocError, Global};
use uc_batch::Writes;
use uc_bytes::{Bytes, Op, OpRef, Write, WriteRef};
use uc_oper::Effect;
use uc_run_entry::WhatRef;

/// Reads a change: a kind, a key or the begin of a range, and a value, an operand or the end of a range.
pub(crate) fn op<'a>(call: &mut Input<'a>) -> OpRef<'a> {
    let (kind, first, second) = (call.number(), call.bytes(), call.bytes());
    match kind {
        0 => OpRef::put(first, second),
        1 => OpRef::delete(first),
        2 => OpRef::merge(first, second),
        _ => OpRef::delete_range(first, second),
    }
}

/// Reads a sequence number and a change.
pub(crate) fn write<'a>(call: &mut Input<'a>) -> WriteRef<'a> {
    let seq = call.number();
    WriteRef::new(seq, op(call))
}

/// An element of a list in a call.
pub(crate) trait Spelled: Drop {
    /// Reads an element.
    fn read(alloc: Global, call: &mut Input<'_>) -> Result<Self, AllocError>;
}

/// Reads the number of elements, and the elements.
pub(crate) fn list<T: Spelled>(alloc: Global, call: &mut Input<'_>) -> Result<Vec<T>, AllocError> {
    let mut list = Vec::new(alloc);
    for _ in 0..call.number() {
        if call.is_short() {
            break;
        }
        list.push(T::read(alloc, call)?)?;
    }
    Ok(list)
}

/// Reads the number of writes, and the writes. Refuses them unless their sequence numbers ascend.
pub(crate) fn rising(alloc: Global, call: &mut Input<'_>, out: &mut Out) -> Option<Writes> {
    match list::<Write>(alloc, call) {
        Ok(writes) => {
            let rising = Writes::of(writes);
            if rising.is_none() {
                out.refuse();
            }
            rising
        }
        Err(_) => {
            out.want();
            None
        }
    }
}

impl Spelled for usize {
    fn read(_: Global, call: &mut Input<'_>) -> Result<usize, AllocError> {
        Ok(call.place())
    }
}

impl Spelled for Write {
    fn read(alloc: Global, call: &mut Input<'_>) -> Result<Write, AllocError> {
        write(call).to_write(alloc)
    }
}

impl Spelled for Effect {
    fn read(alloc: Global, call: &mut Input<'_>) -> Result<Effect, AllocError> {
        effect(alloc, call)
    }
}

impl Spelled for Op {
    fn read(alloc: Global, call: &mut Input<'_>) -> Result<Op, AllocError> {
        op(call).to_op(alloc)
    }
}

/// Returns the change of a point, if it is a put, a delete or a merge.
pub(crate) fn what<'a>(kind: u64, text: &'a [u8]) -> WhatRef<'a> {
    match kind {
        0 => WhatRef::Put(text),
        1 => WhatRef::Delete,
        _ => WhatRef::Merge(text),
    }
}

/// Reads an optional byte string.
pub(crate) fn value(alloc: Global, call: &mut Input<'_>) -> Result<Option<Bytes>, AllocError> {
    match call.some_bytes() {
        Some(value) => Ok(Some(Bytes::from_slice(alloc, value)?)),
        None => Ok(None),
    }
}

/// Reads an effect, in the encoding of answers.
pub(crate) fn effect(alloc: Global, call: &mut Input<'_>) -> Result<Effect, AllocError> {
    match call.number() {
        0 => Ok(Effect::Keep),
        1 => Ok(Effect::Set(None)),
        2 => Ok(Effect::Set(Some(Bytes::from_slice(alloc, call.bytes())?))),
        _ => Ok(Effect::Fold(Bytes::from_slice(alloc, call.bytes())?)),
    }
}
