//! The answers to a batch, put together from what workers drew.
ghost use Rattle.std.specs.Prelude.{◌≡◌, ◌≢◌, ◌*◌, ◌<◌, ◌≤◌, IfOk, Some, length, slice_get};
ghost use Rattle.std.specs.List.{All, AllZip, HoldsAt};
ghost use Rattle.uc_query_workers.specs.Drawing.{AreLeft, HaveDrawn, StandsIn};
ghost use Rattle.uc_query_workers.specs.Draws.{past};
ghost use Rattle.uc_query_workers.specs.Pieces.{AreNumbers};

use crate::batch::Batch;
use crate::counter::PieceCounter;
use crate::drawn::{Drawn, holder_of, take_first};
use crate::seat::PieceSeat;
use std::alloc::{AllocError, Global};
use uc_query_read::Answer;

/// The index of the worker that has piece `number` next, if one does.
fn holder(draws: &[Drawn], number: usize) -> usize
    requires { ¬ All (λ d. slice_get d.numbers.items 0 ≢ Some number) draws.now }
    ensures within { result < length draws.now }
    ensures next { HoldsAt (λ d. slice_get d.numbers.items 0 ≡ Some number) draws.now result }
{
    let Some(place) = holder_of(draws, number) else {
        unreachable!()
    };
    place
}

/// The answers to all pieces, in their order.
fn joined(
    alloc: Global,
    batch: &Batch<'_>,
    pieces: usize,
    mut draws: Vec<Drawn>,
) -> Result<Vec<Answer>, AllocError>
    requires numbers { (length batch.now.queries ≤ pieces * batch.now.piece) × AreNumbers batch.now pieces }
    requires drawn { AreLeft (StandsIn batch.now draws.items) batch.now 0 pieces draws.items }
    ensures { IfOk result (λ answers. AllZip (StandsIn batch.now draws.items) batch.now.queries answers.items) }
{
    let mut all = Vec::with_capacity(alloc, batch.len())?;
    for number in 0..pieces {
        let place = holder(&draws, number);
        take_first(&mut draws[place], batch.piece_of(number).len(), &mut all)?;
    }
    Ok(all)
}

/// The answers to a batch, put together from what workers drew by a seat that has all parts: to each query one that stands with
/// it in what one of them drew.
pub(crate) fn gathered(
    alloc: Global,
    batch: &Batch<'_>,
    pieces: usize,
    counter: &PieceCounter,
    mut seat: PieceSeat,
    draws: Vec<Drawn>,
) -> Result<Vec<Answer>, AllocError>
    requires pieces { pieces ≡ counter.now.pieces }
    requires numbers { (length batch.now.queries ≤ pieces * batch.now.piece) × AreNumbers batch.now pieces }
    requires seat { (seat.table ≡ counter.now.table) × (0 < seat.parts) × (seat.parts ≡ seat.all)
        × (0 < past counter.now.pieces seat.numbers) }
    requires drawn { HaveDrawn (StandsIn batch.now draws.items) batch.now counter.now.pieces seat.numbers draws.items }
    ensures { IfOk result (λ answers. AllZip (StandsIn batch.now draws.items) batch.now.queries answers.items) }
{
    counter.recall_all_drawn(&mut seat);
    joined(alloc, batch, pieces, draws)
}
