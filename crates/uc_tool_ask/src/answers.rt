//! The answers to the queries of a head, printed some at a time.
ghost use Rattle.std.specs.Prelude.{◌≡◌, ◌<◌, ◌≤◌, ◌++◌, true, [], map, vec_len, length, IfOk, OnOk};
ghost use Rattle.std.specs.List.{flat_map};
ghost use Rattle.uc_script.specs.Head.{queries_in};
ghost use Rattle.uc_query_read.specs.Answers.{answer_of};
ghost use Rattle.uc_query_shared.specs.Given.{ForEachHistory};
ghost use Rattle.uc_tool_io.specs.Output.{Prints, joined};
ghost use Rattle.uc_tool_opening.specs.Asked as lines;
ghost use Rattle.uc_tool_ask.specs.Given.{replies_given};

use crate::plan::Plan;
use std::alloc::{AllocError, Global};
use std::io::Write;
use std::marker::{Send, Sync};
use std::mem;
use std::thread::Threads;
use uc_oper::Operator;
use uc_query_read::Query;
use uc_query_shared::{AskError, Free, answer_all};
use uc_script::QueryReader;
use uc_share::{Name, Reader};
use uc_tool_io::{Done, RunError, write_bytes};
use uc_tool_opening::{answers_lines, query_of};

/// The most queries that are read and answered at once, so that memory doesn't grow with their number.
const BATCH: usize = 4096;

/// The most bytes of a batch's answers before the next one has fewer queries, so that memory doesn't grow with the
/// length of answers either.
const LINES: usize = 1 << 20;

/// The number of queries in the next batch, by the number in the last one, and the bytes of its answers.
fn next_size(size: usize, lines: usize) -> usize
    requires { 0 < size }
    ensures { 0 < result }
{
    if lines > LINES {
        (size / 2).max(1)
    } else {
        size.saturating_mul(2).min(BATCH)
    }
}

/// The next queries of a head: this many, if as many are left.
fn next_batch(
    alloc: Global,
    ahead: &mut QueryReader<'_>,
    size: usize,
) -> Result<Vec<uc_script::Query>, AllocError>
    requires { 0 < size }
    ensures parts { IfOk result (λ asked. asked.items ++ ahead.new ≡ ahead.old) }
    ensures some { IfOk result (λ asked. asked.items ≡ [] → ahead.old ≡ []) }
{
    ahead.next_queries(alloc, size)
}

/// The queries of some lines of a head.
fn queries_of(
    alloc: Global,
    last: u64,
    asked: Vec<uc_script::Query>,
) -> Result<Vec<Query>, AllocError>
    ensures { IfOk result (λ queries. queries.items ≡ map (lines.query_of last) asked.items) }
{
    asked
        .into_iter()
        .map(|asked| query_of(last, asked))
        .collect(alloc)
}

/// The lines of the answers to some lines of a head, and the readers, as many as before. As the store's keeps stay, each query has
/// one answer, whatever is installed while they run.
fn lines_of<O: Operator + Sync, N: Name + Send, R: Threads + Sync>(
    rt: &R,
    alloc: Global,
    readers: Vec<Reader<O, N>>,
    last: u64,
    asked: Vec<uc_script::Query>,
    plan: Plan,
) -> Result<(Vec<Reader<O, N>>, Vec<u8>), AllocError>
    requires readers { plan.workers ≤ vec_len readers }
    requires stay { N.keeps_stay ≡ true }
    ensures readers { IfOk result (λ done. vec_len done.0 ≡ vec_len readers) }
    ensures lines { IfOk result (λ done. ForEachHistory O.meaning N.base (λ h.
        done.1.items ≡ joined (replies_given O.meaning h last asked.items))) }
{
    let queries = queries_of(alloc, last, asked)?;
    let (readers, answers) = answer_all(
        rt,
        alloc,
        readers,
        &queries,
        plan.workers,
        plan.piece,
        &Free,
    );
    match answers {
        Ok(answers) => Ok((readers, answers_lines(alloc, &answers)?)),
        Err(AskError::Memory) => Err(AllocError),
        Err(AskError::BadWorkers | AskError::BadPiece) => unreachable!(),
    }
}

/// Prints the answers to all queries of a head, whose bytes these are. The readers are taken: none are left.
pub(crate) fn print_answers<O: Operator + Sync, N: Name + Send, R: Threads + Sync, W: Write>(
    rt: &R,
    alloc: Global,
    head: &[u8],
    last: u64,
    plan: Plan,
    lent: &mut Vec<Reader<O, N>>,
    writer: &mut W,
) -> Result<Done, RunError>
    requires readers { plan.workers ≤ vec_len lent.old }
    requires stay { N.keeps_stay ≡ true }
    ensures printed { ForEachHistory O.meaning N.base (λ h.
        Prints (replies_given O.meaning h last (queries_in head.now)) (W.contents writer.old) (W.contents writer.new) result) }
    ensures done { IfOk result (λ done. done ≡ Done.Fine) }
{
    let mut readers = mem::replace(lent, Vec::new(alloc));
    let mut ahead = QueryReader::new(head);
    let mut size = plan.workers;
    'asked: loop {
        let asked = next_batch(alloc, &mut ahead, size)?;
        if asked.is_empty() {
            return Ok(Done::Fine);
        }
        let (back, lines) = lines_of(rt, alloc, readers, last, asked, plan)?;
        readers = back;
        size = next_size(size, lines.len());
        write_bytes(writer, &lines)?;
    }
}
