//! [`answer_plain`]: the answers to a batch of queries of a version.
ghost use Rattle.std.specs.Prelude.{◌≡◌, ◌⊎◌, ◌<◌, ◌≤◌, None, Some, IfOk, IfErr};
ghost use Rattle.uc_query_workers.specs.Asking as asking;
ghost use Rattle.uc_query_workers.specs.declared.ask_error.AskError.TheVariants.{Memory};
ghost use Rattle.uc_query_workers.specs.declared.ask_error.TheConstants.{MOST_WORKERS as MOST};

use crate::answered::answers_by_workers;
use crate::ask_error::{AskError, MOST_WORKERS};
use crate::batch::Batch;
use crate::gate::Free;
use crate::one_version::OneVersion;
use std::alloc::{AllocError, Global};
use std::marker::{PhantomData, Sync};
use std::thread::Threads;
use uc_oper::Operator;
use uc_query_read::{Answer, Query};
use uc_version_state::Version;

/// Why `workers` can't answer a batch in pieces of `piece` queries, if they can't. The workers are looked at first.
pub fn ask_refusal(workers: usize, piece: usize) -> Option<AskError>
    ensures { result ≡ asking.ask_refusal workers piece }
{
    if workers == 0 || workers > MOST_WORKERS {
        return Some(AskError::BadWorkers);
    }
    if piece == 0 {
        return Some(AskError::BadPiece);
    }
    None
}

/// The answers to queries, in their order, by workers that draw pieces.
fn answers_of<O: Operator + Sync, R: Threads + Sync>(
    rt: &R,
    alloc: Global,
    version: &Version,
    queries: &[Query],
    workers: usize,
    piece: usize,
) -> Result<Vec<Answer>, AllocError>
    requires piece { 0 < piece }
    requires workers { (0 < workers) × (workers ≤ MOST) }
    ensures { IfOk result (λ answers. answers.items ≡ asking.answers_of O.meaning version.now queries.now) }
{
    let source = OneVersion::<O> {
        version,
        operator: PhantomData,
    };
    let batch = Batch::new(queries, piece);
    let places = vec![in alloc; (); workers]?;
    let (_, answers) = answers_by_workers(rt, alloc, &batch, workers, &source, &Free, places);
    answers
}

/// The answers to a batch of queries of a version, in their order. It is cut into pieces of `piece` queries, each taken by the next
/// free worker. Each worker has a thread if one can be started.
///
/// Whatever the workers and the pieces are, the answers are those of [`answer_one`](uc_query_read::answer_one) to one query after
/// the other. Fails for a number of workers that isn't 1 to [`MOST_WORKERS`], and then for a piece of no query.
pub fn answer_plain<O: Operator + Sync>(
    rt: &(impl Threads + Sync),
    alloc: Global,
    version: &Version,
    queries: &[Query],
    workers: usize,
    piece: usize,
) -> Result<Vec<Answer>, AskError>
    ensures ok { IfOk result (λ answers.
        (asking.ask_refusal workers piece ≡ None)
        × (answers.items ≡ asking.answers_of O.meaning version.now queries.now)) }
    ensures err { IfErr result (λ error.
        (asking.ask_refusal workers piece ≡ Some error)
        ⊎ ((asking.ask_refusal workers piece ≡ None) × (error ≡ Memory))) }
{
    if let Some(error) = ask_refusal(workers, piece) {
        return Err(error);
    }
    Ok(answers_of::<O, _>(rt, alloc, version, queries, workers, piece)?)
}
