//! Workers that draw pieces, each with a place of its own.
ghost use denote.Param.Send.{IsSync, IsSend};
ghost use Rattle.std.specs.Prelude.{◌≡◌, ◌+◌, ◌<◌, ◌≤◌, ◌++◌, [], ◌∷◌, vec_len, vec_capacity, IfOk};
ghost use Rattle.std.specs.List.{AllZip};
ghost use Rattle.uc_query_workers.specs.Draws.{past};
ghost use Rattle.uc_query_workers.specs.Drawing.{HasDrawn, HaveDrawn};
ghost use Rattle.uc_query_workers.specs.Given.{GivenBySome};

use crate::counter::PieceCounter;
use crate::drawn::Drawn;
use crate::gate::Gate;
use crate::job::Job;
use crate::seat::PieceSeat;
use crate::source::Source;
use crate::worker::{Share, drawn_by_one};
use std::alloc::{AllocError, Global};
use std::marker::{Send, Sync};
use std::thread::{Threads, join};
use uc_query_read::Answer;

/// The pieces that workers drew, and the seat that took in the seats of all of them.
pub(crate) type Shares = Result<(PieceSeat, Vec<Drawn>), AllocError>;

/// The pieces that one worker drew by a seat, as those of several workers.
fn alone(alloc: Global, seat: PieceSeat, drawn: Drawn) -> Shares
    ensures { IfOk result (λ shares. (shares.0 ≡ seat) × (shares.1.items ≡ drawn ∷ [])) }
{
    Ok((seat, vec![in alloc; drawn]?))
}

/// The pieces that workers drew by a seat, and those that one more drew by a part, which the seat takes in.
fn together(
    counter: &PieceCounter,
    mut seat: PieceSeat,
    mut draws: Vec<Drawn>,
    part: PieceSeat,
    drawn: Drawn,
) -> Shares
    requires tables { (seat.table ≡ counter.now.table) × (part.table ≡ counter.now.table) }
    requires parts { 0 < seat.parts }
    ensures seat { IfOk result (λ shares. shares.0 ≡ record seat {
      parts = seat.parts + part.parts;
      numbers = seat.numbers ++ part.numbers;
    }) }
    ensures end { IfOk result (λ shares. past counter.now.pieces shares.0.numbers
        ≡ past counter.now.pieces seat.numbers + past counter.now.pieces part.numbers) }
    ensures drawn { IfOk result (λ shares. shares.1.items ≡ draws.items ++ drawn ∷ []) }
{
    draws.push(drawn)?;
    counter.join(&mut seat, part);
    Ok((seat, draws))
}

/// Appends a place to the others, for which capacity is reserved.
fn put_back<P: Drop>(places: &mut Vec<P>, place: P)
    requires { vec_len places.old < vec_capacity places.old }
    ensures items { places.new.items ≡ places.old.items ++ place ∷ [] }
    ensures capacity { vec_capacity places.old ≤ vec_capacity places.new }
{
    if places.push(place).is_err() {
        unreachable!()
    }
}

/// Runs one worker in the calling thread, and appends its place to the others, for which capacity is reserved. `answers` is empty.
fn drawn_here<P: Drop, S: Source<P>, G: Gate>(
    alloc: Global,
    job: &Job<'_, S, G>,
    seat: PieceSeat,
    answers: Vec<Answer>,
    place: P,
    mut places: Vec<P>,
) -> (Vec<P>, Shares)
    requires seat { (seat.table ≡ job.now.counter.now.table) × (0 < seat.parts) × (seat.numbers ≡ []) }
    requires empty { answers.items ≡ [] }
    requires room { vec_len places < vec_capacity places }
    ensures capacity { vec_capacity places ≤ vec_capacity result.0 }
    ensures go_on { AllZip S.goes_on (places.items ++ place ∷ []) result.0.items }
    ensures seat { IfOk result.1 (λ shares. shares.0 ≡ record seat { numbers = shares.0.numbers }) }
    ensures end { IfOk result.1 (λ shares. 0 < past job.now.counter.now.pieces shares.0.numbers) }
    ensures drawn { IfOk result.1 (λ shares.
        HaveDrawn (GivenBySome (S.gives job.now.source.now) (places.items ++ place ∷ []) result.0.items) job.now.batch.now
        job.now.counter.now.pieces shares.0.numbers shares.1.items) }
{
    let (place, share) = drawn_by_one(alloc, job, seat, answers, place);
    put_back(&mut places, place);
    match share {
        Err(AllocError) => (places, Err(AllocError)),
        Ok((seat, drawn)) => (places, alone(alloc, seat, drawn)),
    }
}

/// Runs workers, each with one of the places: one in the calling thread, and each other one in its own thread if that can be
/// started. The seat has as many parts as there are workers. The places are returned in their order, even if allocation fails.
///
/// The calling thread starts all the others, one after the other. Threads that start threads at the same time (as in a tree of
/// halves) don't see each other's yet, and the system puts two on one processor while another is idle. It also allocates each
/// worker's list, with the capacity for its answers: the memory of a new thread grows page by page, and each page costs a system
/// call.
#[cycle(workers)]
pub(crate) fn drawn_by_workers<P: Send + Drop, S: Source<P>, G: Gate, R: Threads + Sync>(
    rt: &R,
    alloc: Global,
    job: &Job<'_, S, G>,
    workers: usize,
    mut seat: PieceSeat,
    mut places: Vec<P>,
) -> (Vec<P>, Shares)
    requires seat { (seat.table ≡ job.now.counter.now.table) × (seat.parts ≡ workers) × (seat.numbers ≡ []) }
    requires workers { (0 < workers) × (workers ≤ vec_len places) }
    ensures capacity { vec_capacity places ≤ vec_capacity result.0 }
    ensures go_on { AllZip S.goes_on places.items result.0.items }
    ensures seat { IfOk result.1 (λ shares. shares.0 ≡ record seat { numbers = shares.0.numbers }) }
    ensures end { IfOk result.1 (λ shares. 0 < past job.now.counter.now.pieces shares.0.numbers) }
    ensures drawn { IfOk result.1 (λ shares.
        HaveDrawn (GivenBySome (S.gives job.now.source.now) places.items result.0.items) job.now.batch.now
        job.now.counter.now.pieces shares.0.numbers shares.1.items) }
{
    let Ok(answers) = Vec::with_capacity(alloc, job.room) else {
        return (places, Err(AllocError));
    };
    let Some(place) = places.pop() else {
        unreachable!()
    };
    if workers <= 1 {
        return drawn_here(alloc, job, seat, answers, place, places);
    }
    let fewer = workers - 1;
    let part = job.counter.split(&mut seat);
    let one = move || -> (P, Share)
        requires { IsSend P.row × IsSync S.row × IsSync G.row × (answers.items ≡ [])
            × (part.table ≡ job.now.counter.now.table) × (0 < part.parts) × (part.numbers ≡ []) }
        ensures { S.goes_on place result.0
            × IfOk result.1 (λ share. share.0 ≡ record part { numbers = share.0.numbers })
            × IfOk result.1 (λ share. 0 < past job.entry.now.counter.now.pieces share.0.numbers)
            × IfOk result.1 (λ share. HasDrawn (S.gives job.entry.now.source.now place result.0) job.entry.now.batch.now
            job.entry.now.counter.now.pieces share.0.numbers share.1.numbers.items share.1.answers.items) }
    { drawn_by_one(alloc, job, part, answers, place) };
    let others = move || -> (Vec<P>, Shares)
        requires { IsSync R.row × IsSend P.row × IsSync S.row × IsSync G.row
            × (seat.table ≡ job.now.counter.now.table) × (seat.parts ≡ fewer) × (seat.numbers ≡ [])
            × (0 < fewer) × (fewer ≤ vec_len places) }
        ensures { (vec_capacity places ≤ vec_capacity result.0) × AllZip S.goes_on places.items result.0.items
            × IfOk result.1 (λ shares. shares.0 ≡ record seat { numbers = shares.0.numbers })
            × IfOk result.1 (λ shares. 0 < past job.entry.now.counter.now.pieces shares.0.numbers)
            × IfOk result.1 (λ shares. HaveDrawn (GivenBySome (S.gives job.entry.now.source.now) places.items result.0.items)
            job.entry.now.batch.now job.entry.now.counter.now.pieces shares.0.numbers shares.1.items) }
    { drawn_by_workers(rt, alloc, job, fewer, seat, places) };
    let ((place, share), (others, shares)) = join(rt, one, others);
    let mut places = others;
    put_back(&mut places, place);
    match (shares, share) {
        (Ok((seat, draws)), Ok((part, drawn))) => {
            (places, together(job.counter, seat, draws, part, drawn))
        }
        _ => (places, Err(AllocError)),
    }
}
