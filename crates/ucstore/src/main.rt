//! `ucstore`: words, streams and an exit status. All else is in `uc_tool`.
//!
//! `uc_command` has the command line and what its words set. The operators that it can name, and why there may be no command
//! line to read, stand in `uc_tool` too.
#![tactic(auto)]

use clap::error::ErrorKind;
use clap::{ArgMatches, Error};
use std::alloc::Global;
use std::convert::AsStr;
use std::env;
use std::io::{self, Read, Write};
use std::marker::{Send, Sync};
use std::process::ExitCode;
use std::rt::Env;
use std::sync::Wait;
use std::thread::Threads;
use uc_command::{AskNumbers, Shown};
use uc_oper::{Append, Counter, Maximum, Operator, Tail};
use uc_tool::{
    Done, OperatorName, Options, Outcome, Refusal, ask, dump, is_plan, play, report_log,
    through_buffer,
};

/// The delimiter of `--operator append`.
const COMMA: u8 = b',';

/// The number of bytes that `--operator tail` keeps.
const KEPT: usize = 4;

/// The work of a subcommand that opens a store.
#[derive(Clone, Copy)]
enum Work {
    /// Plays a script.
    Play,
    /// Answers queries over a log, by this many threads.
    Ask(AskNumbers),
    /// Reports on a log.
    Report,
}

/// Says on standard error how many of the writes that come later weren't fed, if any weren't.
fn tell_left(rt: &impl Eprint, left: u64) {
    if left > 0 {
        let _ = eprintln!(rt;
            "warning: {left} of the later writes weren't fed: the store took no more"
        );
    }
}

/// Does the work under an operator.
fn work_with<O: Operator + Send + Sync, R: Read, W: Write>(
    rt: &(impl Eprint + Threads + Wait + Sync),
    alloc: Global,
    work: Work,
    options: &Options,
    reader: &mut R,
    writer: &mut W,
) -> Outcome {
    match work {
        Work::Play => play::<O, R, W>(rt, alloc, reader, writer, options),
        Work::Report => report_log::<O, R, W>(rt, alloc, reader, writer, options),
        Work::Ask(
            AskNumbers {
                workers,
                piece,
                compactors,
                later,
            },
        ) => {
            // The parser lets no other numbers through.
            if !is_plan(workers, piece, compactors) {
                return Outcome::without_reason(Done::Refused);
            }
            let (outcome, beside) = ask::<O, R, W>(
                rt, alloc, reader, writer, options, workers, piece, compactors, later,
            );
            tell_left(rt, beside.left);
            outcome
        }
    }
}

/// Does the work under the operator that the words name.
fn work_as_named<R: Read, W: Write>(
    rt: &(impl Eprint + Threads + Wait + Sync),
    alloc: Global,
    work: Work,
    matches: &ArgMatches<'_>,
    reader: &mut R,
    writer: &mut W,
) -> Outcome {
    let options = &uc_command::options(matches);
    match uc_command::operator_name(matches) {
        Some(OperatorName::Counter) => {
            work_with::<Counter, R, W>(rt, alloc, work, options, reader, writer)
        }
        Some(OperatorName::Append) => {
            work_with::<Append<COMMA>, R, W>(rt, alloc, work, options, reader, writer)
        }
        Some(OperatorName::Maximum) => {
            work_with::<Maximum, R, W>(rt, alloc, work, options, reader, writer)
        }
        Some(OperatorName::Tail) => {
            work_with::<Tail<KEPT>, R, W>(rt, alloc, work, options, reader, writer)
        }
        // The parser lets no other name through.
        None => Outcome::without_reason(Done::Refused),
    }
}

/// Prints why the arguments don't name a run, or the help that they request, which may fail as any output may.
fn explain(rt: &(impl Print + Eprint), error: &Error) -> Done {
    let is_printed = error.print(rt).is_ok();
    match error.kind() {
        ErrorKind::OutOfMemory => Done::NoMemory,
        ErrorKind::DisplayHelp | ErrorKind::DisplayVersion if is_printed => Done::Fine,
        ErrorKind::DisplayHelp | ErrorKind::DisplayVersion => Done::Device,
        _ => Done::Refused,
    }
}

/// Runs the subcommand that the words name.
fn run_subcommand<R: Read, W: Write>(
    rt: &(impl Eprint + Threads + Wait + Sync),
    alloc: Global,
    matches: &ArgMatches<'_>,
    reader: &mut R,
    writer: &mut W,
) -> Outcome {
    match matches.subcommand() {
        Some(("play", words)) => work_as_named(rt, alloc, Work::Play, words, reader, writer),
        Some(("ask", words)) => {
            let work = Work::Ask(uc_command::numbers_of(words));
            work_as_named(rt, alloc, work, words, reader, writer)
        }
        Some(("report", words)) => work_as_named(rt, alloc, Work::Report, words, reader, writer),
        Some(("dump", _)) => Outcome::without_reason(dump(alloc, reader, writer)),
        // The parser requires a subcommand, and lets no other name through.
        _ => Outcome::without_reason(Done::Refused),
    }
}

/// Runs it from standard input to standard output, and prints on standard error why it fails.
fn run_matches<R: Eprint + Print + Input + AllocGlobal + Threads + Wait + Sync>(
    rt: &R,
    matches: &ArgMatches<'_>,
) -> Result<Done, Refusal> {
    let (alloc, mut reader) = (rt.alloc(), rt.reader());
    let Outcome { done, reason } = through_buffer(alloc, io::writer(rt), |writer| {
        run_subcommand(rt, alloc, matches, &mut reader, writer)
    })?;
    if let Some(reason) = reason {
        let _ = eprintln!(rt; "error: {reason}");
    }
    Ok(done)
}

/// Runs what the words name.
fn run<R: Print + Eprint + Input + AllocGlobal + Threads + Wait + Sync, S: AsStr>(
    rt: &R,
    words: &[S],
) -> Result<Done, Refusal> {
    let alloc = rt.alloc();
    let shown = Shown::new(alloc)?;
    match uc_command::ucstore(alloc, &shown)?.try_get_matches_from(words) {
        Ok(matches) => run_matches(rt, &matches),
        Err(error) => Ok(explain(rt, &error)),
    }
}

/// The words of the command line, the program's own name first.
fn words<R: Env + AllocGlobal>(rt: &R) -> Result<Vec<String>, Refusal> {
    match env::args(rt) {
        Ok(words) => Ok(words.collect(rt.alloc())?),
        Err(error) if error.kind() == io::ErrorKind::InvalidData => Err(Refusal::NotText),
        Err(_) => Err(Refusal::Memory),
    }
}

fn main(rt: HostRuntime) -> ExitCode {
    let outcome = words(&rt).and_then(|words| run(&rt, words.as_slice()));
    let done = outcome.unwrap_or_else(|refusal| {
        let _ = rt.eprintln(refusal);
        refusal.done()
    });
    ExitCode::from(done.status())
}
