//! Operands: their bytes, and whether bytes are one.
ghost use Rattle.std.specs.Prelude.{◌≡◌, IfOk, true};
ghost use Rattle.uc_mixed.specs.Parts as parts;
ghost use Rattle.uc_mixed.specs.Operands as operands;

use crate::part::cut;
use crate::part_kind::PartKind;
use crate::set::is_set_of_members;
use crate::spelling::push_part;
use std::alloc::{AllocError, Global};

/// True if a payload has the shape that the operator asks for: numbers have 8 bytes, and the members of a set are whole and ascend.
pub fn has_shape(kind: PartKind, payload: &[u8]) -> bool
    ensures { result ≡ operands.has_shape kind payload.now }
{
    match kind {
        PartKind::Add => payload.len() == 8,
        PartKind::MaxU64 => payload.len() == 8,
        PartKind::MinU64 => payload.len() == 8,
        PartKind::AddU64 => payload.len() == 8,
        PartKind::SetUnion => is_set_of_members(payload),
        _ => true,
    }
}

/// The operand that applies one operator: an [`is_operand`] if the payload has its shape. An `Err` also comes for a payload of 2^32
/// bytes and more.
pub fn operand_of(alloc: Global, kind: PartKind, payload: &[u8]) -> Result<Vec<u8>, AllocError>
    ensures { IfOk result (λ operand. operand.items ≡ parts.part_bytes kind payload.now) }
{
    push_part(Vec::new(alloc), kind, payload)
}

/// True if the bytes are one or more parts and nothing else, each with a payload of its shape.
pub fn is_operand(bytes: &[u8]) -> bool
    ensures { result ≡ operands.is_operand bytes.now }
{
    let mut end = bytes.len();
    loop {
        match cut(&bytes[..end]) {
            None => return false,
            Some(part) => {
                if !has_shape(part.kind, part.payload) {
                    return false;
                }
                if part.rest.is_empty() {
                    return true;
                }
                end = part.rest.len();
            }
        }
    }
}
