//! Lines after `open`.

ghost use Rattle.std.specs.Prelude.{◌≡◌, IfOk};
ghost use Rattle.uc_script.specs.Script as script;

use crate::call::Call;
use crate::change_line::{change_with_one, change_with_two};
use crate::field;
use crate::lines::{Fields, is_skipped, split_line};
use crate::query_line::{read_get, read_scan};
use std::alloc::{AllocError, Global};
use uc_bytes::Op;

/// The meaning of a line after `open`.
#[derive(Drop)]
pub(crate) enum CallLine {
    /// Nothing: the line is empty or a comment.
    Skipped,
    /// A change, to be written by the next `feed`.
    Change(Op),
    /// Writes the collected changes.
    Feed,
    /// Another call.
    Ask(Call),
}

/// The meaning of a line, or `None` if it is faulty.
#[tactic(auto, unfolding(crate::specs::Script::call_line, crate::specs::Script::call_of))]
pub(crate) fn read_call_line(alloc: Global, line: &[u8]) -> Result<Option<CallLine>, AllocError>
    ensures { IfOk result (λ said. said ≡ script.call_line line.now) }
{
    if is_skipped(line) {
        return Ok(Some(CallLine::Skipped));
    }
    match split_line(line) {
        Fields::One(word) => Ok(line_alone(word)),
        Fields::Two(word, argument) => line_with_one(alloc, word, argument),
        Fields::Three(word, first, second) => line_with_two(alloc, word, first, second),
        Fields::Four(word, name, first, count) if word == b"claim".as_slice() => {
            Ok(claim(name, first, count).map(CallLine::Ask))
        }
        Fields::Five(word, low, end, limit, at) => {
            let query = read_scan(alloc, word, low, end, limit, at)?;
            Ok(query.map(Call::Read).map(CallLine::Ask))
        }
        _ => Ok(None),
    }
}

/// `feed`, or a call without a field.
fn line_alone(word: &[u8]) -> Option<CallLine>
    ensures { result ≡ script.line_alone word.now }
{
    if word == b"feed".as_slice() {
        return Some(CallLine::Feed);
    }
    call_alone(word).map(CallLine::Ask)
}

/// A call with one field, or `delete K`.
fn line_with_one(
    alloc: Global,
    word: &[u8],
    argument: &[u8],
) -> Result<Option<CallLine>, AllocError>
    ensures { IfOk result (λ said. said ≡ script.line_with_one word.now argument.now) }
{
    if let Some(call) = call_with_one(word, argument) {
        return Ok(Some(CallLine::Ask(call)));
    }
    Ok(change_with_one(alloc, word, argument)?.map(CallLine::Change))
}

/// A call with two fields, or `put K V`, `merge K V` or `range B E`.
fn line_with_two(
    alloc: Global,
    word: &[u8],
    first: &[u8],
    second: &[u8],
) -> Result<Option<CallLine>, AllocError>
    ensures { IfOk result (λ said. said ≡ script.line_with_two word.now first.now second.now) }
{
    if let Some(call) = call_with_two(alloc, word, first, second)? {
        return Ok(Some(CallLine::Ask(call)));
    }
    Ok(change_with_two(alloc, word, first, second)?.map(CallLine::Change))
}

/// `keep`, `pick` or `report`.
#[tactic(auto, unfolding(crate::specs::Script::call_alone))]
fn call_alone(word: &[u8]) -> Option<Call>
    ensures { result ≡ script.call_alone word.now }
{
    if word == b"keep".as_slice() {
        Some(Call::Keep)
    } else if word == b"pick".as_slice() {
        Some(Call::Pick)
    } else if word == b"report".as_slice() {
        Some(Call::Report)
    } else {
        None
    }
}

/// `release S`, `install N` or `abandon N`.
#[tactic(auto, unfolding(crate::specs::Script::call_with_one))]
fn call_with_one(word: &[u8], argument: &[u8]) -> Option<Call>
    ensures { result ≡ script.call_with_one word.now argument.now }
{
    if word == b"release".as_slice() {
        return field::seq(argument).map(Call::Release);
    }
    named_call(word, argument)
}

/// `install N` or `abandon N`.
#[tactic(auto, unfolding(crate::specs::Script::named_call))]
fn named_call(word: &[u8], name: &[u8]) -> Option<Call>
    ensures { result ≡ script.named_call word.now name.now }
{
    let name = field::name(name)?;
    if word == b"install".as_slice() {
        Some(Call::Install { name })
    } else if word == b"abandon".as_slice() {
        Some(Call::Abandon { name })
    } else {
        None
    }
}

/// `get K S` or `compact FIRST COUNT`.
#[tactic(auto, unfolding(crate::specs::Script::call_with_two))]
fn call_with_two(
    alloc: Global,
    word: &[u8],
    first: &[u8],
    second: &[u8],
) -> Result<Option<Call>, AllocError>
    ensures { IfOk result (λ call. call ≡ script.call_with_two word.now first.now second.now) }
{
    if word == b"compact".as_slice() {
        return Ok(compact(first, second));
    }
    Ok(read_get(alloc, word, first, second)?.map(Call::Read))
}

/// The arguments of `claim N FIRST COUNT`.
#[tactic(auto, unfolding(crate::specs::Script::claim_of))]
fn claim(name: &[u8], first: &[u8], count: &[u8]) -> Option<Call>
    ensures { result ≡ script.claim_of name.now first.now count.now }
{
    let name = field::name(name)?;
    let first = field::count(first)?;
    let count = field::count(count)?;
    Some(Call::Claim { name, first, count })
}

/// The arguments of `compact FIRST COUNT`.
#[tactic(auto, unfolding(crate::specs::Script::compact_of))]
fn compact(first: &[u8], count: &[u8]) -> Option<Call>
    ensures { result ≡ script.compact_of first.now count.now }
{
    let first = field::count(first)?;
    let count = field::count(count)?;
    Some(Call::Compact { first, count })
}
