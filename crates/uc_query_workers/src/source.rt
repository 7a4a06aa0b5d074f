//! [`Source`]: where workers get the answers to pieces from.
use std::alloc::{AllocError, Global};
use std::marker::Sync;
use uc_query_read::{Answer, Query};

/// The source of answers to pieces. Each worker has its own place at it: a reader of a shared store, and nothing for a version.
/// Each query may be answered from another state, as the worker's place advances.
pub trait Source<Place>: Sync {
    ghost use Rattle.std.specs.Prelude.{List, OnOk};
    ghost use Rattle.uc_query_read.specs.declared.answer.Answer.{Answer as AnswerOf};
    ghost use Rattle.uc_query_read.specs.declared.query.Query.{Query as QueryOf};
    ghost use Rattle.uc_query_workers.specs.Given.{Appended};

    /// The answers that may be given to a query while a worker's place goes from one state to another.
    ghost gives: { Self → Place → Place → QueryOf → AnswerOf → Type 0 };

    /// The states to which a worker's place may advance.
    ghost goes_on: { Place → Place → Type 0 };

    /// Appends an answer to each query of a piece. After an `Err` some of them are there.
    fn push_answers(
        &self,
        place: &mut Place,
        alloc: Global,
        queries: &[Query],
        answers: &mut Vec<Answer>,
    ) -> Result<(), AllocError>
        ensures goes_on { goes_on place.old place.new }
        ensures answers { OnOk result
            (Appended (gives self.now place.old place.new) queries.now answers.old.items answers.new.items) };

    /// A place may stay as it is.
    ghost stays: { (place : Place) → goes_on place place };

    /// Advancing is transitive.
    ghost goes_further: { (first second third : Place) → goes_on first second → goes_on second third →
        goes_on first third };

    /// An answer that may be given on a part of a place's way may be given on all of it.
    ghost gives_on: { (source : Self) (first start end last : Place) (query : QueryOf) (answer : AnswerOf) →
        goes_on first start → goes_on end last → gives source start end query answer →
        gives source first last query answer };
}
