//! The calls of a script to a store, and what is printed for them.

ghost use Rattle.std.specs.Prelude.{◌≡◌, All, List, Option, None, length, replicate, IfOk};
ghost use Rattle.uc_version.specs.declared.held_stretch.TheConstants.{MOST_CLAIMS};
ghost use Rattle.uc_version.specs.Claiming.{Claim};
ghost use Rattle.uc_script.specs.Calls.{calls_in};
ghost use Rattle.uc_script.specs.Fed.{fed_ops};
ghost use Rattle.uc_script.specs.Names.{NameIsGood};
ghost use Rattle.uc_query.specs.Names.{AreHeld, named};
ghost use Rattle.uc_query.specs.Running.{unnamed};
ghost use Rattle.uc_tool_io.specs.Output.{Prints};
ghost use Rattle.uc_tool.specs.Play as plays;
ghost use Rattle.uc_tool_opening.specs.Opening.{FitsLog};
ghost use Rattle.uc_tool.specs.Play.{FitLogs, replies_of};
ghost use Rattle.uc_tool.specs.Turn.{Turns, store_call};

use std::alloc::{AllocError, Global};
use std::io::Write;
use std::marker::Sync;
use std::thread::Threads;
use uc_oper::Operator;
use uc_query::{AskError, NamedClaims, Query, answer_one};
use uc_script::{Call, CallReader};
use uc_tool_io::{RunError, write_bytes};
use uc_tool_opening::{push_answer_lines, query_of, reply_lines, seq_at, writes_by_log};
use uc_version::Owned;
use uc_version_state::Stretch;

/// The calls of the store that a script's call makes.
#[derive(Drop)]
enum Asked {
    /// An answer, which changes nothing.
    Answer(Query),
    /// A call that may change what is claimed and what the store holds.
    Work(uc_query::Call),
}

/// The calls of the store that a script's call makes, if `last` is the last sequence at opening and the next write is numbered `next`.
/// Writes that are fed go through a log.
fn asked_of(alloc: Global, last: u64, next: u64, call: Call) -> Result<Asked, AllocError>
    requires { FitsLog next (fed_ops call) }
    ensures { IfOk result (λ asked. store_call asked ≡ plays.call_of last next call) }
{
    match call {
        Call::Read(asked) => Ok(Asked::Answer(query_of(last, asked))),
        Call::Claim { name, first, count } => {
            let stretch = Stretch { first, count };
            Ok(Asked::Work(uc_query::Call::Claim(name, stretch)))
        }
        Call::Install { name } => Ok(Asked::Work(uc_query::Call::Install(name))),
        Call::Abandon { name } => Ok(Asked::Work(uc_query::Call::Abandon(name))),
        Call::Compact { first, count } => {
            let stretch = Stretch { first, count };
            Ok(Asked::Work(uc_query::Call::Compact(stretch)))
        }
        Call::Pick => Ok(Asked::Work(uc_query::Call::Pick)),
        Call::Report => Ok(Asked::Work(uc_query::Call::Report)),
        Call::Feed(ops) => {
            let writes = writes_by_log(alloc, next, ops)?;
            Ok(Asked::Work(uc_query::Call::Feed(writes)))
        }
        Call::Keep => Ok(Asked::Work(uc_query::Call::Keep)),
        Call::Release(at) => Ok(Asked::Work(uc_query::Call::Release(seq_at(last, at)))),
    }
}

/// The number of writes that a call feeds.
fn fed_count(call: &Call) -> u64
    ensures { result ≡ length (fed_ops call.now) }
{
    match call {
        Call::Feed(ops) => ops.as_slice().len() as u64,
        _ => 0,
    }
}

/// The lines of the answer to a query.
fn answer_to<O: Operator>(
    alloc: Global,
    owned: &Owned<O>,
    query: &Query,
) -> Result<Vec<u8>, AllocError>
    ensures { (names : List (Option Claim)) → IfOk result (λ lines.
        Turns O.meaning (named owned.now names) (plays.asked_alone query.now) lines.items (named owned.now names)) }
{
    let answer = answer_one::<O>(alloc, owned.version(), query)?;
    let mut lines = Vec::new(alloc);
    push_answer_lines(&mut lines, &answer)?;
    Ok(lines)
}

/// Carries a script's call out, and returns the lines of its reply.
fn reply_to<O: Operator + Sync>(
    rt: &(impl Threads + Sync),
    alloc: Global,
    owned: &mut Owned<O>,
    claims: &mut NamedClaims,
    last: u64,
    next: u64,
    call: Call,
) -> Result<Vec<u8>, AllocError>
    requires name { NameIsGood call }
    requires fits { FitsLog next (fed_ops call) }
    requires held { AreHeld owned.old claims.old }
    ensures held { AreHeld owned.new claims.new }
    ensures turn { IfOk result (λ lines.
        Turns O.meaning (named owned.old claims.old) (plays.call_of last next call) lines.items
        (named owned.new claims.new)) }
{
    let call = match asked_of(alloc, last, next, call)? {
        Asked::Answer(query) => return answer_to(alloc, owned, &query),
        Asked::Work(call) => call,
    };
    match claims.call(rt, alloc, owned, &call) {
        Ok(reply) => reply_lines(alloc, owned.version().last(), &reply),
        Err(AskError::Memory) => Err(AllocError),
        // A batch alone has workers and pieces.
        Err(AskError::BadWorkers | AskError::BadPiece) => unreachable!(),
    }
}

/// Prints the replies to the calls that lines name, each as soon as it is there. Each call is read when its turn comes. `last`
/// is the last sequence at opening, and `first` the number of the first write that is fed.
pub fn print_replies<O: Operator + Sync, W: Write>(
    rt: &(impl Threads + Sync),
    alloc: Global,
    owned: &mut Owned<O>,
    last: u64,
    first: u64,
    lines: &[u8],
    writer: &mut W,
) -> Result<(), RunError>
    requires fits { FitLogs first (calls_in lines.now) }
    requires names { All NameIsGood (calls_in lines.now) }
    requires held { AreHeld owned.old (replicate MOST_CLAIMS None) }
    ensures { Prints (replies_of O.meaning (unnamed owned.old) last first (calls_in lines.now))
        (W.contents writer.old) (W.contents writer.new) result }
{
    let mut claims = NamedClaims::new();
    let mut ahead = CallReader::new(alloc, lines);
    let mut next = first;
    while let Some(call) = ahead.next_call(alloc)? {
        let count = fed_count(&call);
        let reply = reply_to(rt, alloc, owned, &mut claims, last, next, call)?;
        write_bytes(writer, &reply)?;
        next += count;
    }
    Ok(())
}
