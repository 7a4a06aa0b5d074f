//! Lines that write, by their fields: the same before `open` and after it.

ghost use Rattle.std.specs.Prelude.{◌≡◌, IfOk};
ghost use Rattle.uc_script.specs.Changes as changes;

use crate::field::text;
use std::alloc::{AllocError, Global};
use uc_bytes::Op;

/// `delete K`.
#[tactic(auto, unfolding(crate::specs::Changes::change_with_one))]
pub(crate) fn change_with_one(
    alloc: Global,
    word: &[u8],
    key: &[u8],
) -> Result<Option<Op>, AllocError>
    ensures { IfOk result (λ op. op ≡ changes.change_with_one word.now key.now) }
{
    if word != b"delete".as_slice() {
        return Ok(None);
    }
    Ok(text(alloc, key)?.map(Op::Delete))
}

/// `put K V`, `merge K V` or `range B E`.
#[tactic(auto, unfolding(crate::specs::Changes::change_with_two))]
pub(crate) fn change_with_two(
    alloc: Global,
    word: &[u8],
    first: &[u8],
    second: &[u8],
) -> Result<Option<Op>, AllocError>
    ensures { IfOk result (λ op. op ≡ changes.change_with_two word.now first.now second.now) }
{
    let Some(key) = text(alloc, first)? else {
        return Ok(None);
    };
    let Some(value) = text(alloc, second)? else {
        return Ok(None);
    };
    if word == b"put".as_slice() {
        Ok(Some(Op::Put(key, value)))
    } else if word == b"merge".as_slice() {
        Ok(Some(Op::Merge(key, value)))
    } else if word == b"range".as_slice() {
        Ok(Some(Op::DeleteRange(key, value)))
    } else {
        Ok(None)
    }
}
