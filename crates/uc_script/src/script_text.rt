//! From a script's bytes to what it asks.

ghost use Rattle.std.specs.Prelude.{◌≡◌, [], ◌+◌, ◌≤◌, ◌^◌, ◌<◌, false, length, drop, IfOk};
ghost use Rattle.uc_script.specs.Calls.{script_with};
ghost use Rattle.uc_script.specs.Lines.{lines_of};
ghost use Rattle.uc_script.specs.Script.{script_of};
ghost use Rattle.uc_script.specs.Reading.{Gives, IsRest, seen, setup_after, calls_after, judged_after};

use crate::call::Call;
use crate::call_line::read_call_line;
use crate::error::ScriptError;
use crate::gathering::{take_line, unfed_after};
use crate::lines::next_line;
use crate::script::{Preamble, Script};
use crate::setup_line::{SetupLine, read_setup_line};
use std::alloc::Global;
use uc_bytes::{Items, Op};

/// The setup that was read up to `open`, and the place where reading continues.
#[derive(Drop)]
struct Opened<'a> {
    ops: Vec<Op>,
    keeps: Vec<u64>,
    /// The number of the line after `open`, from 1.
    number: u64,
    /// The lines after `open`.
    rest: &'a [u8],
}

/// Reads a script.
///
/// Its lines end with LF, and the last may lack it. Fields are separated by one space. Empty lines and lines that begin with `#`
/// are skipped and counted. Before the one `open` come `put K V`, `delete K`, `merge K V`, `range B E` and `keep S`, where S is a
/// number.
///
/// After it the same four lines collect writes, and `feed` writes those since the last `feed`, or since `open`. Also allowed are
/// `keep`; `release S`, `get K S` and `scan LOW HIGH LIMIT S`, where S may be `last` and HIGH may be `-`; `claim N FIRST COUNT`,
/// `install N` and `abandon N`, where the name N is below [`NAMES`](crate::NAMES); and `compact FIRST COUNT`, `pick` and `report`.
/// Keys and values are hexadecimal in either case, or `.` for no bytes. Numbers are decimal without sign or needless zeros, at most
/// 2^64 - 1.
///
/// An `Err` has the number of the first faulty line, from 1. If only `open` is missing, or a `feed` after a write, that is one past
/// the last line.
pub fn read_script(alloc: Global, text: &[u8]) -> Result<Script, ScriptError>
    ensures { Gives (λ script. script) result (script_of text.now) }
{
    let opened = read_setup(alloc, text)?;
    let calls = read_calls(alloc, opened.number, opened.rest)?;
    Ok(Script {
        ops: Items::from(opened.ops),
        keeps: Items::from(opened.keeps),
        calls: Items::from(calls),
    })
}

/// Reads a script up to its `open`. The lines after it are validated and freed. [`read_script`] says which scripts are faulty, and
/// in which line.
///
/// A [`CallReader`](crate::CallReader) over the bytes after `open` returns the calls. It allocates for the changes before `open`
/// and the keeps, and for one line at a time.
pub fn judge_script(alloc: Global, text: &[u8]) -> Result<Preamble, ScriptError>
    ensures read { Gives (λ preamble. script_with preamble (drop preamble.size text.now)) result (script_of text.now) }
    ensures within { IfOk result (λ preamble. preamble.size ≤ length text.now) }
{
    let opened = read_setup(alloc, text)?;
    judge_calls(alloc, opened.number, opened.rest)?;
    Ok(Preamble {
        ops: Items::from(opened.ops),
        keeps: Items::from(opened.keeps),
        size: text.len() - opened.rest.len(),
    })
}

/// Reads the lines up to the first `open`.
#[tactic(auto, using(crate::proofs::Rests::rest_of_rest, crate::proofs::Rests::rest_of_all))]
fn read_setup(alloc: Global, text: &[u8]) -> Result<Opened<'_>, ScriptError>
    ensures read { Gives seen result (setup_after [] [] 1 (lines_of text.now)) }
    ensures counted { IfOk result (λ opened. opened.number + length opened.rest.now ≤ length text.now + 1) }
    ensures rest { IfOk result (λ opened. IsRest text.now opened.rest.now) }
    ensures within { IfOk result (λ opened. length opened.rest.now ≤ length text.now) }
{
    let mut ops = Vec::new(alloc);
    let mut keeps = Vec::new(alloc);
    let mut number = 1;
    let mut rest = text;
    while !rest.is_empty() {
        let (line, after) = next_line(rest);
        rest = after;
        match read_setup_line(alloc, line)? {
            None => return Err(ScriptError::Fault(number)),
            Some(SetupLine::Skipped) => {}
            Some(SetupLine::Change(op)) => ops.push(op)?,
            Some(SetupLine::Keep(keep)) => keeps.push(keep)?,
            Some(SetupLine::Open) => {
                return Ok(Opened {
                    ops,
                    keeps,
                    number: number + 1,
                    rest,
                });
            }
        }
        number += 1;
    }
    Err(ScriptError::Fault(number))
}

/// Reads the lines after `open`, the first of which has this number.
fn read_calls(alloc: Global, first: u64, text: &[u8]) -> Result<Vec<Call>, ScriptError>
    requires { first + length text.now < 2 ^ 64 }
    ensures { Gives (λ calls. calls.items) result (calls_after [] [] first (lines_of text.now)) }
{
    let mut calls = Vec::new(alloc);
    let mut ops = Vec::new(alloc);
    let mut number = first;
    let mut rest = text;
    while !rest.is_empty() {
        let (line, after) = next_line(rest);
        rest = after;
        let Some(said) = read_call_line(alloc, line)? else {
            return Err(ScriptError::Fault(number));
        };
        if let Some(call) = take_line(alloc, said, &mut ops)? {
            calls.push(call)?;
        }
        number += 1;
    }
    if !ops.is_empty() {
        return Err(ScriptError::Fault(number));
    }
    Ok(calls)
}

/// Validates the lines after `open`, the first of which has this number.
fn judge_calls(alloc: Global, first: u64, text: &[u8]) -> Result<(), ScriptError>
    requires { first + length text.now < 2 ^ 64 }
    ensures { Gives (λ done. done) result (judged_after false first (lines_of text.now)) }
{
    let mut is_unfed = false;
    let mut number = first;
    let mut rest = text;
    while !rest.is_empty() {
        let (line, after) = next_line(rest);
        rest = after;
        match read_call_line(alloc, line)? {
            None => return Err(ScriptError::Fault(number)),
            Some(said) => is_unfed = unfed_after(is_unfed, &said),
        }
        number += 1;
    }
    if is_unfed {
        return Err(ScriptError::Fault(number));
    }
    Ok(())
}
