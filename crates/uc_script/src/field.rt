//! The meaning of one field.

ghost use Rattle.std.specs.Prelude.{◌≡◌, ◌^◌, ◌&&◌, nat_lt, Some, None, IfOk, if◌then◌else◌};
ghost use Rattle.std.specs.Char.{is_ascii_digit};
ghost use Rattle.std.specs.List.{list_all};
ghost use Rattle.std.specs.Str.Parse.{digits_value};
ghost use Rattle.uc_script.specs.Texts.{number_of, name_of, text_of, seq_of, high_of};

use crate::call::NAMES;
use crate::seq::Seq;
use hex::FromHexError;
use std::alloc::{AllocError, Global};
use uc_bytes::Bytes;

/// The number that digits write, if they are digits and it is at most 2^64 - 1.
fn value(digits: &[u8]) -> Option<u64>
    ensures { result ≡ (if list_all is_ascii_digit digits.now && nat_lt (digits_value 10 digits.now) (2 ^ 64)
        then Some (digits_value 10 digits.now) else None) }
{
    let mut number: u64 = 0;
    for digit in digits {
        if !digit.is_ascii_digit() {
            return None;
        }
        number = number
            .checked_mul(10)?
            .checked_add(u64::from(*digit - b'0'))?;
    }
    Some(number)
}

/// A decimal number without sign or needless zeros, at most 2^64 - 1.
#[tactic(auto, unfolding(crate::specs::Texts::number_of))]
pub fn number(field: &[u8]) -> Option<u64>
    ensures { result ≡ number_of field.now }
{
    match field {
        [] | [b'0', _, ..] => None,
        _ => value(field),
    }
}

/// A position or a count of runs: a number.
pub fn count(field: &[u8]) -> Option<usize>
    ensures { result ≡ number_of field.now }
{
    Some(number(field)? as usize)
}

/// The name of a claim: a number below [`NAMES`].
#[tactic(auto, unfolding(crate::specs::Texts::name_of))]
pub fn name(field: &[u8]) -> Option<u8>
    ensures { result ≡ name_of field.now }
{
    let name = number(field)?;
    if name < NAMES as u64 {
        Some(name as u8)
    } else {
        None
    }
}

/// A key or a value: `.` for no bytes, else an even number of hexadecimal digits.
#[tactic(auto, unfolding(crate::specs::Texts::text_of))]
pub fn text(alloc: Global, field: &[u8]) -> Result<Option<Bytes>, AllocError>
    ensures { IfOk result (λ text. text ≡ text_of field.now) }
{
    if field.is_empty() {
        return Ok(None);
    }
    if field == b".".as_slice() {
        return Ok(Some(Bytes::from(Vec::new(alloc))));
    }
    match hex::decode(alloc, field) {
        Ok(bytes) => Ok(Some(Bytes::from(bytes))),
        Err(FromHexError::OutOfMemory) => Err(AllocError),
        Err(_) => Ok(None),
    }
}

/// A sequence: a number, or `last`.
#[tactic(auto, unfolding(crate::specs::Texts::seq_of))]
pub fn seq(field: &[u8]) -> Option<Seq>
    ensures { result ≡ seq_of field.now }
{
    if field == b"last".as_slice() {
        return Some(Seq::Last);
    }
    Some(Seq::Number(number(field)?))
}

/// Where a scan ends: a key, or `-` for nowhere.
#[tactic(auto, unfolding(crate::specs::Texts::high_of))]
pub fn high(alloc: Global, field: &[u8]) -> Result<Option<Option<Bytes>>, AllocError>
    ensures { IfOk result (λ high. high ≡ high_of field.now) }
{
    if field == b"-".as_slice() {
        return Ok(Some(None));
    }
    Ok(text(alloc, field)?.map(Some))
}
