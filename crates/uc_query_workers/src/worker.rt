//! A worker that draws pieces, and has them answered from the source.
ghost use Rattle.std.specs.Prelude.{◌≡◌, ◌<◌, [], IfOk, OnOk};
ghost use Rattle.uc_query_workers.specs.Draws.{past};
ghost use Rattle.uc_query_workers.specs.Drawing.{HasDrawn};

use crate::drawn::Drawn;
use crate::gate::Gate;
use crate::job::Job;
use crate::seat::PieceSeat;
use crate::source::Source;
use std::alloc::{AllocError, Global};
use uc_query_read::Answer;

/// Takes pieces as long as there are any, and appends the answers to each to `answers`, which is empty. Returns their numbers, in
/// the order in which they were taken.
fn draw_pieces<P, S: Source<P>, G: Gate>(
    alloc: Global,
    job: &Job<'_, S, G>,
    seat: &mut PieceSeat,
    answers: &mut Vec<Answer>,
    place: &mut P,
) -> Result<Vec<usize>, AllocError>
    requires seat { (seat.old.table ≡ job.now.counter.now.table) × (0 < seat.old.parts) × (seat.old.numbers ≡ []) }
    requires empty { answers.old.items ≡ [] }
    ensures goes_on { S.goes_on place.old place.new }
    ensures seat { OnOk result (seat.new ≡ record seat.old { numbers = seat.new.numbers }) }
    ensures end { OnOk result (0 < past job.now.counter.now.pieces seat.new.numbers) }
    ensures drawn { IfOk result (λ numbers. HasDrawn (S.gives job.now.source.now place.old place.new) job.now.batch.now
        job.now.counter.now.pieces seat.new.numbers numbers.items answers.new.items) }
{
    let mut numbers = Vec::new(alloc);
    while let Some(number) = job.counter.draw(seat) {
        let number = number as usize;
        job.gate.at(number);
        job.source
            .push_answers(place, alloc, job.batch.piece_of(number), answers)?;
        numbers.push(number)?;
    }
    Ok(numbers)
}

/// The pieces that a worker drew by a seat, which comes back with them.
pub(crate) type Share = Result<(PieceSeat, Drawn), AllocError>;

/// Runs one worker. Its place is returned even if allocation fails. `answers` is empty.
pub(crate) fn drawn_by_one<P, S: Source<P>, G: Gate>(
    alloc: Global,
    job: &Job<'_, S, G>,
    mut seat: PieceSeat,
    mut answers: Vec<Answer>,
    mut place: P,
) -> (P, Share)
    requires seat { (seat.table ≡ job.now.counter.now.table) × (0 < seat.parts) × (seat.numbers ≡ []) }
    requires empty { answers.items ≡ [] }
    ensures goes_on { S.goes_on place result.0 }
    ensures seat { IfOk result.1 (λ share. share.0 ≡ record seat { numbers = share.0.numbers }) }
    ensures end { IfOk result.1 (λ share. 0 < past job.now.counter.now.pieces share.0.numbers) }
    ensures drawn { IfOk result.1 (λ share. HasDrawn (S.gives job.now.source.now place result.0) job.now.batch.now
        job.now.counter.now.pieces share.0.numbers share.1.numbers.items share.1.answers.items) }
{
    match draw_pieces(alloc, job, &mut seat, &mut answers, &mut place) {
        Err(AllocError) => (place, Err(AllocError)),
        Ok(numbers) => (place, Ok((seat, Drawn::new(numbers, answers)))),
    }
}
