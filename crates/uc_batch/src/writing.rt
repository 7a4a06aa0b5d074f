//! Encodes operations as the bytes of a batch.
ghost use Rattle.std.specs.Prelude.{◌≡◌, ◌<◌, ◌≤◌, ◌^◌, ◌∷◌, ◌++◌, ◌↔◌, length, IsTrue, IfOk, OnOk};
ghost use Rattle.uc_logrec.specs.Log.{Extends};
ghost use Rattle.uc_batch.specs.Tag.{byte_of};
ghost use Rattle.uc_batch.specs.Varint.{room_for};
ghost use Rattle.uc_batch.specs.Spelling.{varint_text, string_text, op_text, batch_text, FitsOp, FitsBatch};

use crate::tag::Tag;
use crate::varint::MORE_BYTES;
use std::alloc::{AllocError, Global};
use uc_bytes::{MAX_SEQUENCE, Op, OpKind, OpRef};

/// Greater than every length and every count.
const LENGTHS: usize = 1 << 32;

/// Writes a number at the end in the fewest bytes, at most `1 + more`.
#[tactic(auto, unfolding(crate::specs::Spelling::varint_text))]
fn push_varint(out: &mut Vec<u8>, number: u32, more: u32) -> Result<(), AllocError>
    requires few { more ≤ 4 }
    requires fits { number < room_for more }
    ensures ok { OnOk result (out.new.items ≡ out.old.items ++ varint_text more number) }
    ensures kept { Extends out.old.items out.new.items }
{
    if more == 0 || number < 128 {
        out.push(number as u8)?;
        return Ok(());
    }
    out.push((number % 128 + 128) as u8)?;
    push_varint(out, number / 128, more - 1)
}

/// Writes a length and the bytes at the end.
fn push_string(out: &mut Vec<u8>, bytes: &[u8]) -> Result<(), AllocError>
    requires { length bytes.now < 2 ^ 32 }
    ensures ok { OnOk result (out.new.items ≡ out.old.items ++ string_text bytes.now) }
    ensures kept { Extends out.old.items out.new.items }
{
    push_varint(out, bytes.len() as u32, MORE_BYTES)?;
    out.extend_from_slice(bytes)
}

/// Writes a tag and two strings at the end.
fn push_pair(out: &mut Vec<u8>, tag: Tag, first: &[u8], second: &[u8]) -> Result<(), AllocError>
    requires first { length first.now < 2 ^ 32 }
    requires second { length second.now < 2 ^ 32 }
    ensures ok { OnOk result
        (out.new.items ≡ out.old.items ++ byte_of tag ∷ (string_text first.now ++ string_text second.now)) }
    ensures kept { Extends out.old.items out.new.items }
{
    out.push(tag.byte())?;
    push_string(out, first)?;
    push_string(out, second)
}

/// Writes an operation's record at the end. An `Err` keeps the bytes that were there.
pub(crate) fn push_op(out: &mut Vec<u8>, op: &OpRef<'_>) -> Result<(), AllocError>
    requires { FitsOp op.now }
    ensures ok { OnOk result (out.new.items ≡ out.old.items ++ op_text op.now) }
    ensures kept { Extends out.old.items out.new.items }
{
    let (kind, first, second) = op.parts();
    match kind {
        OpKind::Delete => {
            out.push(Tag::Deletion.byte())?;
            push_string(out, first)
        }
        OpKind::Put => push_pair(out, Tag::Value, first, second),
        OpKind::Merge => push_pair(out, Tag::Merge, first, second),
        OpKind::DeleteRange => push_pair(out, Tag::RangeDeletion, first, second),
    }
}

/// Whether each string of the operation is shorter than 2^32 bytes.
pub(crate) fn fits_op(op: &OpRef<'_>) -> bool
    ensures { IsTrue result ↔ FitsOp op.now }
{
    let (kind, first, second) = op.parts();
    match kind {
        OpKind::Delete => first.len() < LENGTHS,
        OpKind::Put | OpKind::Merge | OpKind::DeleteRange => {
            first.len() < LENGTHS && second.len() < LENGTHS
        }
    }
}

/// Whether the operations fit one batch whose first has the sequence `seq`. The sequence is at least 1 and the last one
/// used below 2^56, there are fewer than 2^32 operations, and each string is shorter than 2^32 bytes.
pub fn fits_batch(seq: u64, ops: &[Op]) -> bool
    ensures { IsTrue result ↔ FitsBatch seq ops.now }
{
    let in_range = 1 <= seq && seq <= MAX_SEQUENCE && ops.len() < LENGTHS;
    in_range
        && ops.len() as u64 <= MAX_SEQUENCE - seq + 1
        && ops.iter().all(|op| fits_op(&OpRef::of(op)))
}

/// The bytes of a batch: the sequence number of its first operation, the number of operations, and each one's record, with plain
/// tags and the shortest numbers.
pub fn write_batch(alloc: Global, seq: u64, ops: &[Op]) -> Result<Vec<u8>, AllocError>
    requires { FitsBatch seq ops.now }
    ensures { IfOk result (λ text. text.items ≡ batch_text seq ops.now) }
{
    let mut out = Vec::new(alloc);
    out.extend_from_slice(&seq.to_le_bytes())?;
    out.extend_from_slice(&(ops.len() as u32).to_le_bytes())?;
    for op in ops {
        push_op(&mut out, &OpRef::of(op))?;
    }
    Ok(out)
}
