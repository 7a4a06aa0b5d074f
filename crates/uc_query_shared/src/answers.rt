//! [`answer_all`]: the answers to a batch of queries of a shared store.
ghost use Rattle.std.specs.Prelude.{◌≡◌, ◌≢◌, ◌⊎◌, true, None, Some, IfOk, IfErr, OnOk, length};
ghost use Rattle.std.specs.List.{AllByRecursion, AllZip};
ghost use mathlib.Core.List.{IsPrefix};
ghost use Rattle.uc_query_shared.specs.Asking as asking;
ghost use Rattle.uc_query_shared.specs.Given.{IsAnswerBetween, answers_given};
ghost use Rattle.uc_query_workers.specs.Given.{SomeZip};
ghost use Rattle.uc_query_workers.specs.declared.ask_error.AskError.TheVariants.{Memory};
ghost use Rattle.uc_version_state.specs.Histories.{History, IsLegal, MayFollow, version_after};

use crate::pinned_piece::Pins;
use std::alloc::Global;
use std::marker::{Send, Sync};
use std::thread::Threads;
use uc_oper::Operator;
use uc_query_read::{Answer, Query};
use uc_query_workers::{
    AskError, Batch, Gate, answers_are_mapped, answers_by_workers, ask_refusal,
};
use uc_share::{Name, Reader};

/// Why `workers` can't answer a batch with `readers` in pieces of `piece` queries, if they can't: each worker has a reader of its
/// own. The workers are looked at first.
pub fn batch_refusal(readers: usize, workers: usize, piece: usize) -> Option<AskError>
    ensures { result ≡ asking.batch_refusal readers workers piece }
{
    if workers > readers {
        return Some(AskError::BadWorkers);
    }
    ask_refusal(workers, piece)
}

/// The answers to a batch of queries of a shared store, in their order, by `workers` that each have one of the readers. The batch
/// is cut into pieces of `piece` queries. A worker takes a piece, calls the gate, pins the current version, and answers the piece
/// from it, until no piece is left. Each worker has a thread if one can be made, and else runs after another.
///
/// Whichever pieces the workers take, and whatever happens to the store while they run, each answer is that of all the plain writes
/// that the store was given up to a point of its history, at the sequence numbers that it kept then; a query at another number is
/// answered `NotProtected`. That point is between the history that the reader of some worker had seen before and the one that it
/// has seen after the call. Each query may have a different point.
///
/// Where the store's keeps stay, the answers are those of the plain writes that the store was opened with, at the sequence numbers
/// that it keeps, whatever is fed and installed while the workers run.
///
/// Fails for a number of workers that isn't 1 to [`MOST_WORKERS`](uc_query_workers::MOST_WORKERS) or is above the number of
/// readers, and then for a piece of no query. The readers are returned in their order, even after an `Err`. They have seen no less
/// than before.
pub fn answer_all<O: Operator + Sync, N: Name + Send, G: Gate>(
    rt: &(impl Threads + Sync),
    alloc: Global,
    readers: Vec<Reader<O, N>>,
    queries: &[Query],
    workers: usize,
    piece: usize,
    gate: &G,
) -> (Vec<Reader<O, N>>, Result<Vec<Answer>, AskError>)
    ensures answers { IfOk result.1 (λ answers. AllZip (λ query answer.
        SomeZip (IsAnswerBetween O.meaning N.base query answer) readers.items result.0.items) queries.now answers.items) }
    ensures stay { N.keeps_stay ≡ true → IfOk result.1 (λ answers.
        (h : History) → IsLegal O.meaning h → version_after h ≡ N.base →
        answers.items ≡ answers_given O.meaning h queries.now) }
    ensures ok { OnOk result.1 (asking.batch_refusal (length readers.items) workers piece ≡ None) }
    ensures err { IfErr result.1 (λ error.
        (asking.batch_refusal (length readers.items) workers piece ≡ Some error)
        ⊎ ((asking.batch_refusal (length readers.items) workers piece ≡ None) × (error ≡ Memory))) }
    ensures seen { AllZip IsPrefix readers.items result.0.items }
    ensures legal { AllByRecursion (MayFollow O.meaning N.base) result.0.items }
    ensures same { IfErr result.1 (λ error. error ≢ Memory → result.0.items ≡ readers.items) }
{
    if let Some(error) = batch_refusal(readers.len(), workers, piece) {
        are_legal(&readers);
        return (readers, Err(error));
    }
    answers_are_mapped::<Reader<O, N>, Pins>();
    let batch = Batch::new(queries, piece);
    let (readers, answers) = answers_by_workers(rt, alloc, &batch, workers, &Pins, gate, readers);
    are_legal(&readers);
    match answers {
        Ok(answers) => (readers, Ok(answers)),
        Err(_) => (readers, Err(AskError::Memory)),
    }
}

/// The histories that readers have seen are legal. Proof step: does nothing when it runs.
fn are_legal<O: Operator, N: Name>(readers: &[Reader<O, N>])
    ensures { AllByRecursion (MayFollow O.meaning N.base) readers.now }
{
    for reader in readers {
        reader.recall();
    }
}
