//! `ask`: the queries in front of a log, answered while compactors and a feeder run.
ghost use denote.Param.Send.{IsSync, IsSend};
ghost use Rattle.std.specs.Prelude.{◌≡◌, ◌+◌, ◌≤◌, List, None, true, vec_len};
ghost use Rattle.uc_share.specs.Stores.{IsNamed};
ghost use Rattle.std.specs.Prelude.{IfOk, OnOk, IfSome};
ghost use Rattle.uc_batch.specs.Log.{log_writes};
ghost use Rattle.uc_batch.specs.Rising.{IsRising};
ghost use Rattle.uc_bytes.specs.declared.write.Write.{Write as WriteOf};
ghost use Rattle.uc_script.specs.Head.{queries_in};
ghost use Rattle.uc_version_state.specs.Openings.{Opening as OpeningOf};
ghost use Rattle.uc_version_open.specs.Progress.{progress_of};
ghost use Rattle.uc_query_shared.specs.Given.{ForEachHistory};
ghost use Rattle.uc_tool_io.specs.Output.{Prints, HasWritten};
ghost use Rattle.uc_tool_opening.specs.Reasons.{IsReason, TellsOpening, opening_cause};
ghost use Rattle.uc_tool_ask.specs.Ask.{ask_of, of_log, of_writes, cause_of, opened_cause};
ghost use Rattle.uc_tool_ask.specs.Given.{replies_given};
ghost use Rattle.uc_tool_ask.specs.Plans.{IsPlan};

use crate::answers::print_answers;
use crate::beside::{Beside, Helpers, work_beside};
use crate::crew::crew_of;
use crate::feeder::feeder_of;
use crate::opened_part::recover_part;
use crate::parted_input::{PartError, Parted, part_input};
use crate::plan::Plan;
use std::alloc::Global;
use std::io::{Read, Write};
use std::marker::{Brand, Send, Sync};
use std::sync::Wait;
use std::thread::{Threads, join_mut};
use uc_batch::{Ended, Pieces, Write as LogWrite};
use uc_oper::Operator;
use uc_script::Source;
use uc_share::{Name, Opening, Options, Reader, Store, TurnGate, Ungated};
use uc_tool_io::{Done, RunError, run_over_input};
use uc_tool_opening::{
    Outcome, Reason, print_bad_log, print_fault, print_refused_opening, reason_of_line,
    reason_of_opening,
};
use uc_version_open::{InThreads, OpenError, Opener, Recovered, no_refusal_is_leave_to_open};

/// The end of a run, and the changes of the store while it ran.
type Asked = (Result<Done, RunError>, Beside);

/// The report of a run and its end.
#[derive(Drop)]
struct Told {
    /// Why it failed.
    reason: Option<Reason>,
    /// The counts of changes of the store while it ran.
    beside: Beside,
}

impl Told {
    /// A reason, if there is one, where nothing was done.
    fn reason_alone(reason: Option<Reason>) -> Told
        ensures { result ≡ record { reason = reason; beside = record { installs = 0; fed = 0; left = 0 } } }
    {
        Told {
            reason,
            beside: Beside::nothing(),
        }
    }

    /// No reason, and nothing was done.
    fn nothing() -> Told
        ensures { result ≡ record { reason = None; beside = record { installs = 0; fed = 0; left = 0 } } }
    {
        Told::reason_alone(None)
    }
}

/// The end of a run, and its report.
type Worked = (Result<Done, RunError>, Told);

/// Prints the answers to the queries of a head while a crew compacts and a feeder feeds, which have ended when it returns. They are
/// moved to their thread: a value that both closures borrow can be followed through only one of them.
fn answer_beside_crew<O, N, W, G, R, V>(
    rt: &R,
    alloc: Global,
    store: &Store<O, N, W>,
    gate: &G,
    mut helpers: Helpers<O, N>,
    readers: &mut Vec<Reader<O, N>>,
    last: u64,
    head: &[u8],
    plan: Plan,
    writer: &mut V,
) -> Asked
where
    O: Operator + Send + Sync,
    N: Name + Send + Sync,
    W: Wait + Drop + Send,
    G: TurnGate,
    R: Threads + Wait + Sync,
    V: Write,
    requires readers { plan.workers ≤ vec_len readers.old }
    requires stay { N.keeps_stay ≡ true }
    ensures printed { ForEachHistory O.meaning N.base (λ h.
        Prints (replies_given O.meaning h last (queries_in head.now)) (V.contents writer.old) (V.contents writer.new) result.0) }
    ensures done { IfOk result.0 (λ done. done ≡ Done.Fine) }
{
    let (beside, printed) = join_mut(
        rt,
        &mut move || -> Beside { work_beside(rt, alloc, store, gate, &mut helpers) },
        &mut || -> Result<Done, RunError>
            requires { (plan.workers ≤ vec_len readers.now) × (N.keeps_stay ≡ true) }
        { print_answers(rt, alloc, head, last, plan, readers, writer) },
    );
    (printed, beside)
}

/// Names a store that threads share, and prints the answers to the queries of a head while compactors compact it and a feeder feeds
/// these writes, if a reader is left for it. Nobody takes or releases a snapshot in that time.
fn answer_shared<O, N, G, R, V>(
    rt: &R,
    alloc: Global,
    opening: Opening<O>,
    behind: Vec<LogWrite>,
    head: &[u8],
    plan: Plan,
    gate: &G,
    writer: &mut V,
) -> Asked
where
    O: Operator + Send + Sync,
    N: Name + Send + Sync,
    G: TurnGate,
    R: Threads + Wait + Sync,
    V: Write,
    requires named { IsNamed opening N.book N.table N.base }
    requires plan { (plan.workers + plan.compactors ≤ opening.readers) × (opening.seats ≡ plan.compactors) }
    requires stay { N.keeps_stay ≡ true }
    ensures printed { ForEachHistory O.meaning N.base (λ h.
        Prints (replies_given O.meaning h opening.version.last (queries_in head.now))
        (V.contents writer.old) (V.contents writer.new) result.0) }
    ensures done { IfOk result.0 (λ done. done ≡ Done.Fine) }
{
    let last = opening.version().last();
    let Ok((store, mut readers, seats)) = opening.named::<N, &R>(alloc, rt) else {
        return (Err(RunError::Memory), Beside::nothing());
    };
    let Ok(crew) = crew_of(alloc, &store, &mut readers, seats) else {
        return (Err(RunError::Memory), Beside::nothing());
    };
    let feeder = feeder_of(plan.workers, &mut readers, behind);
    answer_beside_crew(
        rt,
        alloc,
        &store,
        gate,
        Helpers { crew, feeder },
        &mut readers,
        last,
        head,
        plan,
        writer,
    )
}

/// The number of feeders for these writes: none if there are none.
fn feeders_of(behind: &[LogWrite]) -> usize
    ensures { result ≤ 1 }
{
    if behind.is_empty() { 0 } else { 1 }
}

/// Opens the store that has taken some writes, and prints why that fails, or the answers to the queries of a head. The writes after
/// those are fed while the queries run.
fn print_opened<O: Operator + Send + Sync, G: TurnGate, R: Threads + Wait + Sync, V: Write>(
    rt: &R,
    alloc: Global,
    opener: Opener,
    behind: Vec<LogWrite>,
    keeps: &[u64],
    head: &[u8],
    options: &Options,
    plan: Plan,
    gate: &G,
    writer: &mut V,
) -> Worked
    requires { (writes : List WriteOf) × IsRising 0 writes × (opener ≡ progress_of options.now writes) }
    ensures printed { (writes : List WriteOf) → IsRising 0 writes → opener ≡ progress_of options.now writes →
        Prints (of_writes O.meaning options.now keeps.now (queries_in head.now) writes).replies
        (V.contents writer.old) (V.contents writer.new) result.0 }
    ensures done { (writes : List WriteOf) → IsRising 0 writes → opener ≡ progress_of options.now writes →
        IfOk result.0 (λ done. done ≡ (of_writes O.meaning options.now keeps.now (queries_in head.now) writes).done) }
    ensures told { (writes : List WriteOf) → IsRising 0 writes → opener ≡ progress_of options.now writes →
        let opening : OpeningOf = record { writes = writes; keeps = keeps.now; options = options.now } in
        IsReason (opening_cause opening) result.1.reason }
    ensures opening { (writes : List WriteOf) → IsRising 0 writes → opener ≡ progress_of options.now writes →
        let opening : OpeningOf = record { writes = writes; keeps = keeps.now; options = options.now } in
        OnOk result.0 (TellsOpening (opening_cause opening) result.1.reason) }
{
    // A law of the layer below, which does nothing when it runs: without a refusal the store may open.
    no_refusal_is_leave_to_open();
    match opener.finish(&InThreads(rt), alloc, keeps) {
        Ok(version) => {
            let readers = plan.workers + plan.compactors + feeders_of(&behind);
            let Ok(opening) = Opening::of(alloc, version, *options, readers, plan.compactors) else {
                return (Err(RunError::Memory), Told::nothing());
            };
            let (outcome, beside) = answer_shared::<O, Brand, G, R, V>(
                rt, alloc, opening, behind, head, plan, gate, writer,
            );
            let reason = None;
            (outcome, Told { reason, beside })
        }
        Err(OpenError::Memory) => (Err(RunError::Memory), Told::nothing()),
        Err(error) => {
            let outcome = print_refused_opening(alloc, error, writer);
            let reason = reason_of_opening(error, options);
            (outcome, Told::reason_alone(reason))
        }
    }
}

/// Answers the queries of a head over the log after it, whose last writes are fed while the queries run.
fn answer_log<O: Operator + Send + Sync, G: TurnGate, R: Threads + Wait + Sync, V: Write>(
    rt: &R,
    alloc: Global,
    parted: Parted,
    options: &Options,
    plan: Plan,
    later: u64,
    gate: &G,
    writer: &mut V,
) -> Worked
    ensures printed { Prints (of_log O.meaning options.now parted.head.keeps (queries_in parted.lines.items)
        later (log_writes parted.log)).replies (V.contents writer.old) (V.contents writer.new) result.0 }
    ensures done { IfOk result.0 (λ done. done ≡ (of_log O.meaning options.now parted.head.keeps
        (queries_in parted.lines.items) later (log_writes parted.log)).done) }
    ensures told { IsReason (opened_cause options.now parted.head.keeps later (log_writes parted.log)) result.1.reason }
    ensures opening { OnOk result.0
        (TellsOpening (opened_cause options.now parted.head.keeps later (log_writes parted.log)) result.1.reason) }
{
    let Parted { head, lines, log } = parted;
    let Ok((recovered, behind)) = recover_part(rt, alloc, log, *options, later) else {
        return (Err(RunError::Memory), Told::nothing());
    };
    let Recovered { opener, ended } = recovered;
    match ended {
        Ended::Clean | Ended::Torn(_) => print_opened::<O, G, R, V>(
            rt,
            alloc,
            opener,
            behind,
            head.keeps.as_slice(),
            &lines,
            options,
            plan,
            gate,
            writer,
        ),
        Ended::LogFault(..) | Ended::BatchFault(..) => {
            (print_bad_log(alloc, ended, writer), Told::nothing())
        }
    }
}

/// Answers the queries in front of a log, or prints why they fail.
fn run<O: Operator + Send + Sync, G: TurnGate, R: Threads + Wait + Sync, V: Write>(
    rt: &R,
    alloc: Global,
    input: Pieces,
    options: &Options,
    plan: Plan,
    later: u64,
    gate: &G,
    writer: &mut V,
) -> Worked
    ensures printed { Prints (ask_of O.meaning options.now later input).replies
        (V.contents writer.old) (V.contents writer.new) result.0 }
    ensures done { IfOk result.0 (λ done. done ≡ (ask_of O.meaning options.now later input).done) }
    ensures told { IsReason (cause_of options.now later input) result.1.reason }
    ensures opening { OnOk result.0 (TellsOpening (cause_of options.now later input) result.1.reason) }
{
    match part_input(alloc, input) {
        Ok(parted) => {
            answer_log::<O, G, R, V>(rt, alloc, parted, options, plan, later, gate, writer)
        }
        Err(PartError::Fault(line, text)) => {
            let reason = reason_of_line(alloc, Source::Head, &text, line);
            let outcome = print_fault(alloc, line, writer);
            (outcome, Told::reason_alone(reason))
        }
        Err(PartError::Memory) => (Err(RunError::Memory), Told::nothing()),
    }
}

/// Answers the queries in front of a log as [`ask`] does. The gate is called by each compactor in each of its turns.
pub fn ask_through<O: Operator + Send + Sync, R: Read, W: Write, G: TurnGate>(
    rt: &(impl Threads + Wait + Sync),
    alloc: Global,
    reader: &mut R,
    writer: &mut W,
    options: &Options,
    workers: usize,
    piece: usize,
    compactors: usize,
    gate: &G,
    later: u64,
) -> (Outcome, Beside)
    requires { IsPlan workers piece compactors }
    ensures written { IfSome (R.remaining reader.old) (λ input.
        HasWritten (ask_of O.meaning options.now later input) input (W.contents writer.old) (W.contents writer.new) result.0.done) }
    ensures told { IfSome (R.remaining reader.old) (λ input. IsReason (cause_of options.now later input) result.0.reason) }
    ensures opening { result.0.done ≡ Done.Refused →
        IfSome (R.remaining reader.old) (λ input. TellsOpening (cause_of options.now later input) result.0.reason) }
{
    let plan = Plan {
        workers,
        piece,
        compactors,
    };
    let (done, told) = run_over_input(alloc, reader, writer, |input: Pieces, writer: &mut W| {
        run::<O, G, _, W>(rt, alloc, input, options, plan, later, gate, writer)
    });
    let Told { reason, beside } = told.unwrap_or(Told::nothing());
    (Outcome { done, reason }, beside)
}

/// Answers the queries in front of a log: reads all of the input, checks its head, opens a store from the log after that, and
/// prints the answers in the order of the queries. `workers` threads answer pieces of `piece` queries, from the current versions,
/// while `compactors` threads compact what universal compaction picks, each until nothing is picked, an allocation fails, or it
/// took 256 turns. The store opens without the log's last `later` writes, or without any if there are fewer. One more thread feeds
/// these while the queries run, one by one, until one fails. All threads have ended when it returns.
///
/// It writes `ask_of`, a function of the bytes that were read, the operator's meaning, the options and `later`. The output doesn't
/// depend on workers, pieces or compactors, nor on the number of writes that were fed and when. It is the output for the log
/// without its last `later` writes, except that a fault anywhere in the log is reported. Faults are checked in this order: the
/// head, with the number of its line, the log, the opening. If allocation fails, it writes some first replies whole, and then `out
/// of memory`. If the reader or the writer fails, or the input is longer than 64 MiB, it writes a prefix of these replies or of the
/// error message. A head or an opening that fails has a reason.
///
/// If `later` is 0, it reads the log once, in pieces, and frees each piece as soon as the store has its writes. Otherwise it reads
/// the log twice, in one piece, and then holds the last writes as well as the store. In both cases it holds the head's bytes too.
///
/// [`is_plan`](crate::is_plan) says which numbers go together.
pub fn ask<O: Operator + Send + Sync, R: Read, W: Write>(
    rt: &(impl Threads + Wait + Sync),
    alloc: Global,
    reader: &mut R,
    writer: &mut W,
    options: &Options,
    workers: usize,
    piece: usize,
    compactors: usize,
    later: u64,
) -> (Outcome, Beside)
    requires { IsPlan workers piece compactors }
    ensures written { IfSome (R.remaining reader.old) (λ input.
        HasWritten (ask_of O.meaning options.now later input) input (W.contents writer.old) (W.contents writer.new) result.0.done) }
    ensures told { IfSome (R.remaining reader.old) (λ input. IsReason (cause_of options.now later input) result.0.reason) }
    ensures opening { result.0.done ≡ Done.Refused →
        IfSome (R.remaining reader.old) (λ input. TellsOpening (cause_of options.now later input) result.0.reason) }
{
    ask_through::<O, R, W, Ungated>(
        rt, alloc, reader, writer, options, workers, piece, compactors, &Ungated, later,
    )
}
