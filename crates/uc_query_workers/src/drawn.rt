//! [`Drawn`]: the pieces that a worker drew, and the answers to them.
ghost use Rattle.std.specs.Prelude.{◌≡◌, ◌≢◌, ◌<◌, ◌++◌, Some, slice_get, IfSome, IfNone, OnOk, take, drop, length};
ghost use Rattle.std.specs.List.{All, HoldsAt};

use std::alloc::AllocError;
use std::collections::VecDeque;
use uc_query_read::Answer;

/// The pieces that a worker drew. They are taken from the front when the answers to the batch are put together.
#[derive(Drop)]
pub struct Drawn {
    /// The numbers of the pieces, in the order in which it drew them.
    pub numbers: VecDeque<usize>,
    /// The answers to them, one piece after the other.
    pub answers: VecDeque<Answer>,
}

impl Drawn {
    /// Numbers, and the answers to the pieces with them.
    pub(crate) fn new(numbers: Vec<usize>, answers: Vec<Answer>) -> Drawn
        ensures { (result.numbers.items ≡ numbers.items) × (result.answers.items ≡ answers.items) }
    {
        Drawn {
            numbers: VecDeque::from_vec(numbers),
            answers: VecDeque::from_vec(answers),
        }
    }
}

/// Moves `count` answers from the front of `answers` to the end of `all`. An `Err` loses some of them.
fn move_answers(
    answers: &mut VecDeque<Answer>,
    count: usize,
    all: &mut Vec<Answer>,
) -> Result<(), AllocError>
    ensures moved { OnOk result (all.new.items ≡ all.old.items ++ take count answers.old.items) }
    ensures rest { OnOk result (answers.new.items ≡ drop count answers.old.items) }
{
    for _ in 0..count {
        if let Some(answer) = answers.pop_front() {
            all.push(answer)?;
        }
    }
    Ok(())
}

/// The index of the worker whose next piece is `number`.
pub(crate) fn holder_of(draws: &[Drawn], number: usize) -> Option<usize>
    ensures some { IfSome result (λ place.
        (place < length draws.now)
        × HoldsAt (λ d. slice_get d.numbers.items 0 ≡ Some number) draws.now place) }
    ensures none { IfNone result (All (λ d. slice_get d.numbers.items 0 ≢ Some number) draws.now) }
{
    draws
        .iter()
        .position(|drawn| drawn.numbers.front() == Some(&number))
}

/// Takes the worker's next piece away, and appends its `count` answers to `all`. An `Err` loses some of them.
pub(crate) fn take_first(
    drawn: &mut Drawn,
    count: usize,
    all: &mut Vec<Answer>,
) -> Result<(), AllocError>
    ensures numbers { OnOk result (drawn.new.numbers.items ≡ drop 1 drawn.old.numbers.items) }
    ensures answers { OnOk result (drawn.new.answers.items ≡ drop count drawn.old.answers.items) }
    ensures all { OnOk result (all.new.items ≡ all.old.items ++ take count drawn.old.answers.items) }
{
    let _ = drawn.numbers.pop_front();
    move_answers(&mut drawn.answers, count, all)?;
    Ok(())
}
