//! The answers of a version to the queries of a piece.
ghost use Rattle.std.specs.Prelude.{◌≡◌, ◌++◌, OnOk};
ghost use Rattle.uc_query_workers.specs.Asking as asking;

use std::alloc::{AllocError, Global};
use uc_oper::Operator;
use uc_query_read::{Answer, Query, answer_one};
use uc_version_state::Version;

/// Appends a version's answers to queries. After an `Err` some of them are there.
pub fn push_answers<O: Operator>(
    alloc: Global,
    version: &Version,
    queries: &[Query],
    answers: &mut Vec<Answer>,
) -> Result<(), AllocError>
    ensures { OnOk result
        (answers.new.items ≡
        answers.old.items ++ asking.answers_of O.meaning version.now queries.now) }
{
    for query in queries {
        answers.push(answer_one::<O>(alloc, version, query)?)?;
    }
    Ok(())
}
