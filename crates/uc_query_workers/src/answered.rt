//! [`answers_by_workers`]: the answers to a batch of queries, by workers.
ghost use Rattle.std.specs.Prelude.{◌<◌, ◌≤◌, vec_len, IfOk};
ghost use Rattle.std.specs.List.{AllZip};
ghost use Rattle.uc_query_workers.specs.Given.{GivenBySome};
ghost use Rattle.uc_query_workers.specs.declared.ask_error.TheConstants.{MOST_WORKERS};

use crate::batch::Batch;
use crate::counter::PieceCounter;
use crate::gate::Gate;
use crate::gathered::gathered;
use crate::job::Job;
use crate::source::Source;
use crate::workers::drawn_by_workers;
use std::alloc::{AllocError, Global};
use std::marker::{Send, Sync};
use std::thread::Threads;
use uc_query_read::Answer;

/// The capacity of each worker's list, in answers: twice its share, since one may take more pieces than another, and all for one
/// worker.
fn room_of_each(queries: usize, workers: usize) -> usize
    requires { 0 < workers }
{
    queries.min((queries / workers).saturating_mul(2))
}

/// The answers to the queries of a batch, in their order, by `workers` that each have one of the places at the source. A worker
/// draws a piece, calls the gate, and has the piece answered from the source, until no piece is left. Each worker has a thread if
/// one can be made, and else runs after another.
///
/// Each query has one answer, such as the source may give to it while one of the places goes from what it was before the call to
/// what it is after. The places come back in their order, also after an `Err`.
pub fn answers_by_workers<P: Send + Drop, S: Source<P>, G: Gate, R: Threads + Sync>(
    rt: &R,
    alloc: Global,
    batch: &Batch<'_>,
    workers: usize,
    source: &S,
    gate: &G,
    places: Vec<P>,
) -> (Vec<P>, Result<Vec<Answer>, AllocError>)
    requires { (0 < workers) × (workers ≤ MOST_WORKERS) × (workers ≤ vec_len places) }
    ensures places { AllZip S.goes_on places.items result.0.items }
    ensures answers { IfOk result.1 (λ answers. AllZip (GivenBySome (S.gives source.now) places.items result.0.items)
        batch.now.queries answers.items) }
{
    let pieces = batch.pieces();
    let workers = workers.min(pieces).max(1);
    let Ok((counter, seat)) = PieceCounter::new(alloc, pieces as u64, workers as u64) else {
        return (places, Err(AllocError));
    };
    let job = Job {
        batch: &*batch,
        counter: &counter,
        gate: &*gate,
        source: &*source,
        room: room_of_each(batch.len(), workers),
    };
    let (places, shares) = drawn_by_workers(rt, alloc, &job, workers, seat, places);
    match shares {
        Err(AllocError) => (places, Err(AllocError)),
        Ok((seat, draws)) => (
            places,
            gathered(alloc, batch, pieces, &counter, seat, draws),
        ),
    }
}
