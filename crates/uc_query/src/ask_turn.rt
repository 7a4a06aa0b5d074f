//! The turn of a batch of queries, which changes nothing.
ghost use Rattle.std.specs.Prelude.{◌≡◌, ◌⊎◌, None, Some, Ok, IfOk, IfErr, List, Option};
ghost use Rattle.uc_version.specs.Claiming.{Claim};
ghost use Rattle.uc_query_workers.specs.Asking.{ask_refusal as refusal_of, answers_of};
ghost use Rattle.uc_query_workers.specs.declared.ask_error.AskError.TheVariants.{Memory};
ghost use Rattle.uc_query.specs.Names.{named};
ghost use Rattle.uc_query.specs.Turns.{FailsWith, ask_turn, replied};

use crate::reply::Reply;
use std::alloc::{AllocError, Global};
use std::marker::Sync;
use std::thread::Threads;
use uc_bytes::Items;
use uc_oper::Operator;
use uc_query_read::{Answer, Query, answer_one};
use uc_query_workers::{AskError, answer_plain, ask_refusal};
use uc_version::Owned;
use uc_version_state::Version;

/// Answers each query by [`answer_one`], in turn.
fn answer_each<O: Operator>(
    alloc: Global,
    version: &Version,
    queries: &[Query],
) -> Result<Vec<Answer>, AllocError>
    ensures { IfOk result (λ answers. answers.items ≡ answers_of O.meaning version.now queries.now) }
{
    let mut answers = Vec::with_capacity(alloc, queries.len())?;
    for query in queries {
        answers.push(answer_one::<O>(alloc, version, query)?)?;
    }
    Ok(answers)
}

/// Answers queries by a number of workers, in pieces of `piece` queries. One worker is the calling thread, and needs no pieces.
fn answer_by<O: Operator + Sync>(
    rt: &(impl Threads + Sync),
    alloc: Global,
    version: &Version,
    queries: &[Query],
    workers: usize,
    piece: usize,
) -> Result<Vec<Answer>, AskError>
    ensures ok { IfOk result (λ answers.
        (refusal_of workers piece ≡ None) × (answers.items ≡ answers_of O.meaning version.now queries.now)) }
    ensures err { IfErr result (λ error.
        (refusal_of workers piece ≡ Some error) ⊎ ((refusal_of workers piece ≡ None) × (error ≡ Memory))) }
{
    if workers != 1 {
        return answer_plain::<O>(rt, alloc, version, queries, workers, piece);
    }
    match ask_refusal(workers, piece) {
        Some(error) => Err(error),
        None => Ok(answer_each::<O>(alloc, version, queries)?),
    }
}

/// Answers a batch of queries, by a number of workers, in pieces of `piece` queries.
///
/// # Errors
///
/// Refused as [`ask_refusal`] says, and with `Memory`.
pub(crate) fn answer_batch<O: Operator + Sync>(
    rt: &(impl Threads + Sync),
    alloc: Global,
    owned: &Owned<O>,
    queries: &Items<Query>,
    workers: usize,
    piece: usize,
) -> Result<Reply, AskError>
    ensures ok { (names : List (Option Claim)) → IfOk result (λ reply.
        ask_turn O.meaning (named owned.now names) queries.now (refusal_of workers piece)
        ≡ Ok (replied (named owned.now names) reply)) }
    ensures err { (names : List (Option Claim)) → IfErr result (λ error.
        FailsWith (ask_turn O.meaning (named owned.now names) queries.now (refusal_of workers piece))
        error) }
{
    let queries = queries.as_slice();
    match answer_by::<O>(rt, alloc, owned.version(), queries, workers, piece) {
        Ok(answers) => Ok(Reply::Answers(Items::from(answers))),
        Err(error) => Err(error),
    }
}
