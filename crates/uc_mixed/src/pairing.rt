//! Pairs of operands: only the parts at the seam meet.
ghost use Rattle.std.specs.Prelude.{◌≡◌, ◌++◌, ◌∷◌, [], ◌+◌, ◌≤◌, ◌-◌, ℕ, List, length, take, drop, false, MatchOption, IfOk};
ghost use Rattle.uc_mixed.specs.Parts as parts;
ghost use Rattle.uc_mixed.specs.Kinds as kinds;
ghost use Rattle.uc_mixed.specs.Mixing as mixing;
ghost use Rattle.uc_mixed.specs.Additions.{AddsAtEnd, IsSumAtSeam};
ghost use Rattle.std.specs.Int.{w64, to_le_bytes};

use crate::combining::{combine_onto, replaced};
use crate::number::number;
use crate::part::cut;
use crate::part_kind::PartKind;
use crate::spelling::{end_part, push_part};
use std::alloc::AllocError;

/// The place of the payload of an operand's last part.
#[derive(Clone, Copy)]
struct Place {
    /// The number of bytes before it.
    start: usize,
    /// The number of bytes up to its end.
    end: usize,
}

/// The place of the last part's payload, if the part has this operator.
fn place_of_last(older: &[u8], kind: PartKind) -> Option<Place>
    requires { kinds.is_set kind ≡ false }
    ensures { MatchOption result
        ((payload : List ℕ) → mixing.joined older.now kind payload ≡ mixing.spelled_out older.now ++ parts.part_bytes kind payload)
        (λ p. (p.start ≤ p.end) × (p.end ≤ length older.now) × ((payload : List ℕ) →
        mixing.joined older.now kind payload ≡
        take p.start older.now ++ parts.part_bytes kind (kinds.combined kind (drop p.start (take p.end older.now)) payload))) }
{
    match cut(older) {
        None => None,
        Some(part) => {
            if part.kind.is(kind) {
                let start = part.rest.len();
                Some(Place {
                    start,
                    end: start + part.payload.len(),
                })
            } else {
                None
            }
        }
    }
}

/// The operand, or a part that sets the empty value if it has no bytes.
fn spelled_out(mut operand: Vec<u8>) -> Result<Vec<u8>, AllocError>
    ensures { IfOk result (λ after. after.items ≡ mixing.spelled_out operand.items) }
{
    if operand.is_empty() {
        operand = push_part(operand, PartKind::Set, &[])?;
    }
    Ok(operand)
}

/// An operand whose last part is combined with a payload.
fn combine_last(
    mut older: Vec<u8>,
    place: Place,
    kind: PartKind,
    payload: &[u8],
) -> Result<Vec<u8>, AllocError>
    requires first { place.start ≤ place.end }
    requires within { place.end ≤ length older.items }
    ensures { IfOk result (λ both. both.items ≡
        take place.start older.items
        ++ parts.part_bytes kind (kinds.combined kind (drop place.start (take place.end older.items)) payload.now)) }
{
    older.truncate(place.end);
    let both = combine_onto(kind, older, place.start, payload)?;
    end_part(kind, both, place.start)
}

/// An operand and then a part, in the memory of the operand.
fn joined(older: Vec<u8>, kind: PartKind, payload: &[u8]) -> Result<Vec<u8>, AllocError>
    ensures { IfOk result (λ both. both.items ≡ mixing.joined older.items kind payload.now) }
{
    if kind.is_set() {
        return push_part(replaced(older, 0, &[])?, kind, payload);
    }
    match place_of_last(older.as_slice(), kind) {
        None => push_part(spelled_out(older)?, kind, payload),
        Some(place) => combine_last(older, place, kind, payload),
    }
}

/// The first part of an operand, and the parts that follow it.
#[derive(Clone, Copy)]
struct FirstPart<'a> {
    /// Its operator.
    kind: PartKind,
    /// Its payload.
    payload: &'a [u8],
    /// The other parts.
    others: &'a [u8],
}

/// The first part of an operand, if all its bytes are parts.
fn first_part(operand: &[u8]) -> Option<FirstPart<'_>>
    ensures { MatchOption result
        ((older : List ℕ) → mixing.paired older operand.now ≡ operand.now)
        (λ p. (older : List ℕ) → mixing.paired older operand.now ≡ mixing.joined older p.kind p.payload.now ++ p.others.now) }
{
    let mut end = operand.len();
    loop {
        let (earlier, others) = operand.split_at(end);
        match cut(earlier) {
            None => return None,
            Some(part) => {
                if part.rest.is_empty() {
                    return Some(FirstPart {
                        kind: part.kind,
                        payload: part.payload,
                        others,
                    });
                }
                end = part.rest.len();
            }
        }
    }
}

/// The number of bytes of an addition.
const ADDITION: usize = 10;

/// The number of an operand's last part, if that adds one.
#[inline]
fn addend_at_end(operand: &[u8]) -> Option<u64>
    ensures { MatchOption result (Unit {0}) (λ n. AddsAtEnd operand.now n) }
{
    if operand.len() < ADDITION {
        return None;
    }
    let (_, addition) = operand.split_at(operand.len() - ADDITION);
    let (bytes, end) = addition.split_at(8);
    if end[0] == 8 && end[1] == 1 {
        Some(number(bytes))
    } else {
        None
    }
}

/// The number that replaces those of an operand's last part and of another operand, if both add one.
#[inline]
fn sum_at_seam(older: &[u8], newer: &[u8]) -> Option<u64>
    ensures { MatchOption result (Unit {0}) (λ n. IsSumAtSeam older.now newer.now n) }
{
    if newer.len() != ADDITION {
        return None;
    }
    match addend_at_end(newer) {
        None => None,
        Some(amount) => match addend_at_end(older) {
            None => None,
            Some(sum) => Some(sum.wrapping_add(amount)),
        },
    }
}

/// The operand with another number in its last part, which adds one.
#[inline]
fn with_sum(mut operand: Vec<u8>, sum: u64) -> Result<Vec<u8>, AllocError>
    requires { 10 ≤ length operand.items }
    ensures { IfOk result (λ after.
        after.items ≡ take (length operand.items - 10) operand.items ++ (to_le_bytes w64 sum ++ (8 ∷ 1 ∷ []))) }
{
    operand.truncate(operand.len() - ADDITION);
    operand.extend_from_slice(&sum.to_le_bytes())?;
    operand.extend_from_slice(&[8, 1])?;
    Ok(operand)
}

/// An older operand and a newer one, in the memory of the older one. It looks at no more than the last part of the older one.
pub(crate) fn pair_onto(older: Vec<u8>, newer: &[u8]) -> Result<Vec<u8>, AllocError>
    ensures { IfOk result (λ both. both.items ≡ mixing.paired older.items newer.now) }
{
    if let Some(sum) = sum_at_seam(older.as_slice(), newer) {
        return with_sum(older, sum);
    }
    match first_part(newer) {
        None => replaced(older, 0, newer),
        Some(first) => {
            let mut both = joined(older, first.kind, first.payload)?;
            both.extend_from_slice(first.others)?;
            Ok(both)
        }
    }
}
