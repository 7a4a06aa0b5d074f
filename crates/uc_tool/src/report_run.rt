//! `report_log`: what a store holds that opens from a log, before and after its compaction.

ghost use Rattle.std.specs.Prelude.{◌≡◌, [], ◌∷◌, List, true, IfOk, OnOk, IfSome};
ghost use Rattle.uc_batch.specs.Rising.{IsRising};
ghost use Rattle.uc_version_open.specs.Progress.{progress_of};
ghost use Rattle.uc_version_state.specs.Options.{are_good};
ghost use Rattle.uc_bytes.specs.declared.write.Write.{Write as WriteOf};
ghost use Rattle.uc_version_state.specs.Openings.{Opening};
ghost use Rattle.uc_version.specs.Owners.{unclaimed};
ghost use Rattle.uc_tool_opening.specs.Reasons.{IsReason, TellsOpening, opening_cause};
ghost use Rattle.uc_tool.specs.Report.{store_lines, output_of, of_writes, report_of, cause_of};
ghost use Rattle.uc_tool_io.specs.Output.{Prints, HasWritten};

use crate::compaction_steps::print_compactions;
use std::alloc::Global;
use std::io::{Read, Write};
use std::marker::Sync;
use std::thread::Threads;
use uc_batch::{Ended, Pieces};
use uc_oper::Operator;
use uc_query::report;
use uc_tool_io::{Done, RunError, run_over_input, write_bytes};
use uc_tool_opening::{
    Outcome, Reason, print_bad_log, print_refused_opening, reason_of_opening, report_lines,
};
use uc_version::Owned;
use uc_version_open::{InThreads, OpenError, Opener, Recovered, recover_pieces};
use uc_version_state::{Options, Version};

/// Prints what a version holds.
fn print_report<W: Write>(
    rt: &(impl Threads + Sync),
    alloc: Global,
    version: &Version,
    writer: &mut W,
) -> Result<(), RunError>
    ensures { Prints (store_lines version.now ∷ []) (W.contents writer.old) (W.contents writer.new) result }
{
    let report = report(rt, alloc, version)?;
    let lines = report_lines(alloc, &report)?;
    write_bytes(writer, &lines)
}

/// Prints what a store holds that has this version and nothing claimed, its compactions, and what it holds then.
fn print_reports<O: Operator + Sync, W: Write>(
    rt: &(impl Threads + Sync),
    alloc: Global,
    version: Version,
    options: &Options,
    writer: &mut W,
) -> Result<Done, RunError>
    requires { are_good options.now ≡ true }
    ensures printed { Prints (output_of O.meaning (unclaimed version options.now)).replies
        (W.contents writer.old) (W.contents writer.new) result }
    ensures done { IfOk result (λ done. done ≡ Done.Fine) }
{
    let mut owned = Owned::<O>::new(alloc, version, *options)?;
    print_report(rt, alloc, owned.version(), writer)?;
    print_compactions::<O, W>(rt, alloc, &mut owned, writer)?;
    print_report(rt, alloc, owned.version(), writer)?;
    Ok(Done::Fine)
}

/// Opens the store that has taken some writes, and prints why that fails, or the reports. Returns the reason with its outcome.
fn print_opened<O: Operator + Sync, W: Write>(
    rt: &(impl Threads + Sync),
    alloc: Global,
    opener: Opener,
    options: &Options,
    writer: &mut W,
) -> (Result<Done, RunError>, Option<Reason>)
    requires { (writes : List WriteOf) × IsRising 0 writes × (opener ≡ progress_of options.now writes) }
    ensures printed { (writes : List WriteOf) → IsRising 0 writes → opener ≡ progress_of options.now writes →
        Prints (of_writes O.meaning options.now writes).replies (W.contents writer.old) (W.contents writer.new) result.0 }
    ensures done { (writes : List WriteOf) → IsRising 0 writes → opener ≡ progress_of options.now writes →
        IfOk result.0 (λ done. done ≡ (of_writes O.meaning options.now writes).done) }
    ensures told { (writes : List WriteOf) → IsRising 0 writes → opener ≡ progress_of options.now writes →
        let opening : Opening = record { writes = writes; keeps = []; options = options.now } in
        IsReason (opening_cause opening) result.1 }
    ensures opening { (writes : List WriteOf) → IsRising 0 writes → opener ≡ progress_of options.now writes →
        let opening : Opening = record { writes = writes; keeps = []; options = options.now } in
        OnOk result.0 (TellsOpening (opening_cause opening) result.1) }
{
    match opener.finish(&InThreads(rt), alloc, &[]) {
        Ok(version) => {
            let outcome = print_reports::<O, W>(rt, alloc, version, options, writer);
            (outcome, None)
        }
        Err(OpenError::Memory) => (Err(RunError::Memory), None),
        Err(error) => {
            let outcome = print_refused_opening(alloc, error, writer);
            (outcome, reason_of_opening(error, options))
        }
    }
}

/// Reports on a log, whose pieces are freed while a store is made from it.
fn run<O: Operator + Sync, W: Write>(
    rt: &(impl Threads + Sync),
    alloc: Global,
    log: Pieces,
    options: &Options,
    writer: &mut W,
) -> (Result<Done, RunError>, Option<Reason>)
    ensures printed { Prints (report_of O.meaning options.now log).replies
        (W.contents writer.old) (W.contents writer.new) result.0 }
    ensures done { IfOk result.0 (λ done. done ≡ (report_of O.meaning options.now log).done) }
    ensures told { IsReason (cause_of options.now log) result.1 }
    ensures opening { OnOk result.0 (TellsOpening (cause_of options.now log) result.1) }
{
    let Ok(Recovered { opener, ended }) = recover_pieces(&InThreads(rt), alloc, log, *options)
    else {
        return (Err(RunError::Memory), None);
    };
    match ended {
        Ended::Clean | Ended::Torn(_) => {
            print_opened::<O, W>(rt, alloc, opener, options, writer)
        }
        Ended::LogFault(..) | Ended::BatchFault(..) => (print_bad_log(alloc, ended, writer), None),
    }
}

/// Opens a store from a write-ahead log under an operator, reports what it holds, compacts what universal compaction picks as long
/// as it picks anything, printing a line for each compaction, and reports again.
///
/// It writes `report_of`, a function of the bytes that were read, the operator's meaning and the options. For a log with a fault,
/// and for an opening that fails, that is one line with the reason. If allocation fails, it writes some first replies whole, and
/// then `out of memory`. If the reader or the writer fails, or the input is longer than 64 MiB, it writes a prefix of these replies
/// or of the error message. An opening that fails has a reason.
pub fn report_log<O: Operator + Sync, R: Read, W: Write>(
    rt: &(impl Threads + Sync),
    alloc: Global,
    reader: &mut R,
    writer: &mut W,
    options: &Options,
) -> Outcome
    ensures written { IfSome (R.remaining reader.old) (λ input.
        HasWritten (report_of O.meaning options.now input) input (W.contents writer.old) (W.contents writer.new) result.done) }
    ensures told { IfSome (R.remaining reader.old) (λ input. IsReason (cause_of options.now input) result.reason) }
    ensures opening { result.done ≡ Done.Refused →
        IfSome (R.remaining reader.old) (λ input. TellsOpening (cause_of options.now input) result.reason) }
{
    let (done, told) = run_over_input(alloc, reader, writer, |log: Pieces, writer: &mut W| {
        run::<O, W>(rt, alloc, log, options, writer)
    });
    Outcome {
        done,
        reason: told.flatten(),
    }
}
