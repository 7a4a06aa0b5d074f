//! The answer to a query of a version.
ghost use Rattle.std.specs.Prelude.{◌≡◌, IfOk};
ghost use Rattle.std.specs.List.Sorted.{IsStrictlySortedBy};
ghost use Rattle.std.specs.Ordering.{nat_cmp};
ghost use Rattle.uc_model.specs.Meaning.{value_of};
ghost use Rattle.uc_query_read.specs.Answers as answers;
ghost use Rattle.uc_query_read.specs.declared.answer.Answer.TheVariants as given;
ghost use Rattle.uc_query_read.specs.declared.query.Query.TheVariants as query;
ghost use Rattle.uc_compact.specs.Inputs.{writes_of};
ghost use Rattle.uc_version_state.specs.Versions.{contents_of, writes_in};
ghost use Rattle.uc_version_state.specs.Snapshots.{with_keep};

use crate::answer::Answer;
use crate::lookup::owned_value_of_runs;
use crate::query::Query;
use crate::scan::rows_of_runs;
use std::alloc::{AllocError, Global};
use uc_oper::Operator;
use uc_version_state::{Placed, Version};

/// Whether a snapshot protects the sequence, by a binary search of the keeps, which rise.
fn is_protected(keeps: &[u64], at: u64) -> bool
    requires { IsStrictlySortedBy nat_cmp keeps.now }
    ensures { result ≡ answers.is_protected keeps.now at }
{
    keeps.binary_search(&at).is_ok()
}

/// The answer from runs, the newest first, at a protected sequence.
fn reading<O: Operator>(alloc: Global, runs: &[Placed], query: &Query) -> Result<Answer, AllocError>
    ensures { IfOk result (λ answer. answer ≡ answers.reading O.meaning (writes_of (contents_of runs.now)) query.now) }
{
    match query {
        Query::Get { key, at } => {
            let value = owned_value_of_runs::<O>(alloc, runs, key.as_slice(), *at)?;
            Ok(Answer::Value(value))
        }
        Query::Scan {
            low,
            high,
            at,
            limit,
        } => {
            let rows = rows_of_runs::<O>(alloc, runs, low.as_slice(), high, *at, *limit)?;
            Ok(Answer::Rows(rows))
        }
    }
}

/// The answer to a query, from runs, the newest first, and the keeps, which rise.
pub(crate) fn answer_of_runs<O: Operator>(
    alloc: Global,
    runs: &[Placed],
    keeps: &[u64],
    query: &Query,
) -> Result<Answer, AllocError>
    requires { IsStrictlySortedBy nat_cmp keeps.now }
    ensures { IfOk result (λ answer.
        answer ≡
        answers.answer_of O.meaning (writes_of (contents_of runs.now)) keeps.now query.now) }
{
    let at = query.at();
    if is_protected(keeps, at) {
        reading::<O>(alloc, runs, query)
    } else {
        Ok(Answer::NotProtected(at))
    }
}

/// The answer to a query, from a version's runs. It is that of [`answer_writes`](crate::answer_writes) for the
/// version's plain writes. It is `NotProtected` for a sequence that the version doesn't keep.
///
/// A lookup costs in each run, from the newest on, what [`Run::effect`](uc_run::Run::effect) does, up to the first run
/// that puts or deletes the key. A scan costs a search in each run at its start. Then it costs a step in each run and
/// what [`Cursor::effect`](uc_run::Cursor::effect) does for each key of a point in its range, up to the last row's.
pub fn answer_one<O: Operator>(
    alloc: Global,
    version: &Version,
    query: &Query,
) -> Result<Answer, AllocError>
    ensures { IfOk result (λ answer.
        answer ≡ answers.answer_of O.meaning (writes_in version.now) version.now.keeps query.now) }
{
    version.recall();
    answer_of_runs::<O>(alloc, version.runs(), version.keeps(), query)
}

/// Looks up a borrowed key; the answer is that of [`Query::Get`], as [`answer_one`] returns it.
pub fn get<O: Operator>(
    alloc: Global,
    version: &Version,
    key: &[u8],
    at: u64,
) -> Result<Answer, AllocError>
    ensures { IfOk result (λ answer.
        answer ≡
        answers.answer_of O.meaning (writes_in version.now) version.now.keeps
        (query.Get key.now at)) }
{
    version.recall();
    if is_protected(version.keeps(), at) {
        let value = owned_value_of_runs::<O>(alloc, version.runs(), key, at)?;
        Ok(Answer::Value(value))
    } else {
        Ok(Answer::NotProtected(at))
    }
}

/// Looks up a borrowed key at the last sequence, whether or not a snapshot is there. The answer is a value.
pub fn get_last<O: Operator>(
    alloc: Global,
    version: &Version,
    key: &[u8],
) -> Result<Answer, AllocError>
    ensures { IfOk result (λ answer.
        answer ≡ given.Value (value_of O.meaning (writes_in version.now) key.now version.now.last)) }
{
    let value = owned_value_of_runs::<O>(alloc, version.runs(), key, version.last())?;
    Ok(Answer::Value(value))
}

/// The answer to a query at the last sequence, whether or not a snapshot is there, or at a snapshot, as [`answer_one`] returns
/// it.
pub fn answer_last<O: Operator>(
    alloc: Global,
    version: &Version,
    query: &Query,
) -> Result<Answer, AllocError>
    ensures { IfOk result (λ answer. answer ≡
        answers.answer_of O.meaning (writes_in version.now) (with_keep version.now.last version.now.keeps) query.now) }
{
    version.recall();
    let at = query.at();
    if at == version.last() || is_protected(version.keeps(), at) {
        reading::<O>(alloc, version.runs(), query)
    } else {
        Ok(Answer::NotProtected(at))
    }
}
