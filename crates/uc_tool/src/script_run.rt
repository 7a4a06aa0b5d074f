//! `play`: a store over the writes of a script, and the replies to its calls.

ghost use Rattle.std.specs.Prelude.{◌≡◌, ◌≤◌, ◌+◌, All, true, length, drop, vec_len, IfOk, OnOk, IfSome};
ghost use Rattle.uc_script.specs.Calls.{calls_in, script_with};
ghost use Rattle.uc_script.specs.Names.{NameIsGood};
ghost use Rattle.uc_script.specs.Reading.{Gives};
ghost use Rattle.uc_script.specs.Script.{script_of};
ghost use Rattle.uc_version_state.specs.Options.{are_good};
ghost use Rattle.uc_tool_io.specs.declared.input.TheConstants.{INPUT_LIMIT};
ghost use Rattle.uc_tool_opening.specs.Opening.{FitsLog};
ghost use Rattle.uc_tool_opening.specs.Reasons.{IsReason, TellsOpening, opening_cause};
ghost use Rattle.uc_tool.specs.Play.{FitLogs, opening_of, output_of, script_output, play_of, cause_of};
ghost use Rattle.uc_tool_io.specs.Output.{Prints, HasWritten};

use crate::replies::print_replies;
use std::alloc::Global;
use std::io::{Read, Write};
use std::marker::Sync;
use std::thread::Threads;
use uc_oper::Operator;
use uc_script::{
    Preamble, ScriptError, Source, a_script_names_no_more_than_it_has, judge_script,
    names_are_in_range,
};
use uc_tool_io::{Done, RunError, numbered_line, run_over_input, write_bytes};
use uc_tool_opening::{
    Outcome, Reason, open_ops, print_fault, print_refused_opening, reason_of_line,
    reason_of_opening,
};
use uc_version::Owned;
use uc_version_open::OpenError;
use uc_version_state::{Options, Version};

/// Validates a script, and reads the lines up to its `open`.
fn judged(alloc: Global, input: &[u8]) -> Result<Preamble, ScriptError>
    requires { length input.now ≤ INPUT_LIMIT }
    ensures read { Gives (λ preamble. script_with preamble (drop preamble.size input.now)) result (script_of input.now) }
    ensures within { IfOk result (λ preamble. preamble.size ≤ length input.now) }
    ensures fits { IfOk result (λ preamble. FitsLog 1 preamble.ops) }
    ensures feeds { IfOk result (λ preamble.
        FitLogs (length preamble.ops + 1) (calls_in (drop preamble.size input.now))) }
    ensures names { IfOk result (λ preamble. All NameIsGood (calls_in (drop preamble.size input.now))) }
{
    // Laws of the layer below, which do nothing when they run: no write is longer than the script, and no name is
    // above what a store has.
    a_script_names_no_more_than_it_has();
    names_are_in_range();
    judge_script(alloc, input)
}

/// The bytes after the first `size`, in the same memory.
fn behind(mut text: Vec<u8>, size: usize) -> Vec<u8>
    requires { size ≤ vec_len text }
    ensures { result.items ≡ drop size text.items }
{
    let left = text.len() - size;
    text.copy_within(size.., 0);
    text.truncate(left);
    text.shrink_to_fit();
    text
}

/// Prints that a store opened with a version, and the replies to the calls that lines name.
fn print_opened<O: Operator + Sync, W: Write>(
    rt: &(impl Threads + Sync),
    alloc: Global,
    version: Version,
    options: &Options,
    lines: &[u8],
    writer: &mut W,
) -> Result<Done, RunError>
    requires good { are_good options.now ≡ true }
    requires feeds { FitLogs (version.last + 1) (calls_in lines.now) }
    requires names { All NameIsGood (calls_in lines.now) }
    ensures printed { Prints (output_of O.meaning version options.now (calls_in lines.now)).replies
        (W.contents writer.old) (W.contents writer.new) result }
    ensures done { IfOk result (λ done. done ≡ Done.Fine) }
{
    version.recall();
    let last = version.last();
    let mut owned = Owned::<O>::new(alloc, version, *options)?;
    let line = numbered_line(alloc, b"opened ", last)?;
    write_bytes(writer, &line)?;
    print_replies::<O, W>(rt, alloc, &mut owned, last, last + 1, lines, writer)?;
    Ok(Done::Fine)
}

/// Opens the store of a script, and prints why that fails, or that it opened and the replies to the calls of `lines`, which come
/// after `open`. Returns the reason with its outcome.
fn print_script<O: Operator + Sync, W: Write>(
    rt: &(impl Threads + Sync),
    alloc: Global,
    preamble: Preamble,
    lines: &[u8],
    options: &Options,
    writer: &mut W,
) -> (Result<Done, RunError>, Option<Reason>)
    requires fits { FitsLog 1 preamble.ops }
    requires feeds { FitLogs (length preamble.ops + 1) (calls_in lines.now) }
    requires names { All NameIsGood (calls_in lines.now) }
    ensures printed { Prints (script_output O.meaning options.now (script_with preamble lines.now)).replies
        (W.contents writer.old) (W.contents writer.new) result.0 }
    ensures done { IfOk result.0 (λ done. done ≡ (script_output O.meaning options.now (script_with preamble lines.now)).done) }
    ensures told { IsReason (opening_cause (opening_of options.now (script_with preamble lines.now))) result.1 }
    ensures opening { OnOk result.0
        (TellsOpening (opening_cause (opening_of options.now (script_with preamble lines.now))) result.1) }
{
    let Preamble { ops, keeps, .. } = preamble;
    match open_ops(rt, alloc, ops, keeps, *options) {
        Ok(version) => {
            let outcome = print_opened::<O, W>(rt, alloc, version, options, lines, writer);
            (outcome, None)
        }
        Err(OpenError::Memory) => (Err(RunError::Memory), None),
        Err(error) => {
            let outcome = print_refused_opening(alloc, error, writer);
            (outcome, reason_of_opening(error, options))
        }
    }
}

/// Runs a script: opens its store and answers its calls. Only the lines after `open` are kept while it runs.
fn run<O: Operator + Sync, W: Write>(
    rt: &(impl Threads + Sync),
    alloc: Global,
    input: Vec<u8>,
    options: &Options,
    writer: &mut W,
) -> (Result<Done, RunError>, Option<Reason>)
    requires { length input.items ≤ INPUT_LIMIT }
    ensures printed { Prints (play_of O.meaning options.now input.items).replies
        (W.contents writer.old) (W.contents writer.new) result.0 }
    ensures done { IfOk result.0 (λ done. done ≡ (play_of O.meaning options.now input.items).done) }
    ensures told { IsReason (cause_of options.now input.items) result.1 }
    ensures opening { OnOk result.0 (TellsOpening (cause_of options.now input.items) result.1) }
{
    match judged(alloc, &input) {
        Ok(preamble) => {
            let lines = behind(input, preamble.size);
            print_script::<O, W>(rt, alloc, preamble, &lines, options, writer)
        }
        Err(ScriptError::Fault(line)) => {
            let reason = reason_of_line(alloc, Source::Script, &input, line);
            (print_fault(alloc, line, writer), reason)
        }
        Err(ScriptError::Memory) => (Err(RunError::Memory), None),
    }
}

/// Runs a script: reads it whole, checks all of it, writes its changes as a log, opens a store from that log, and executes its
/// calls in order, under an operator, printing each reply as soon as it is there.
///
/// It writes `play_of`, a function of the bytes that were read, the operator's meaning and the options. If allocation fails, it
/// writes some first replies whole, and then `out of memory`. If the reader or the writer fails, or the input is longer than 64
/// MiB, it writes a prefix of these replies or of the error message. A script that is rejected for a faulty line or at its opening
/// has a reason.
///
/// It reads at most 64 MiB and a byte, in at most 2^27 reads. The script, its changes, their log and the store are each made from
/// the one before, and no two are in memory except while the later one is made. The lines after `open` stay to the end, and each
/// call is read from them when it is executed.
pub fn play<O: Operator + Sync, R: Read, W: Write>(
    rt: &(impl Threads + Sync),
    alloc: Global,
    reader: &mut R,
    writer: &mut W,
    options: &Options,
) -> Outcome
    ensures written { IfSome (R.remaining reader.old) (λ input.
        HasWritten (play_of O.meaning options.now input) input (W.contents writer.old) (W.contents writer.new) result.done) }
    ensures told { IfSome (R.remaining reader.old) (λ input. IsReason (cause_of options.now input) result.reason) }
    ensures opening { result.done ≡ Done.Refused →
        IfSome (R.remaining reader.old) (λ input. TellsOpening (cause_of options.now input) result.reason) }
{
    let work = |input: Vec<u8>, writer: &mut W| -> (Result<Done, RunError>, Option<Reason>)
        requires { length input.items ≤ INPUT_LIMIT }
    { run::<O, W>(rt, alloc, input, options, writer) };
    let (done, told) = run_over_input(alloc, reader, writer, work);
    Outcome {
        done,
        reason: told.flatten(),
    }
}
