//! Reads at the last sequence, whether or not a snapshot is there.
ghost use Rattle.std.specs.Prelude.{◌≡◌, IfOk};
ghost use Rattle.uc_model.specs.Meaning.{value_of};
ghost use Rattle.uc_query_read.specs.Answers.{answer_of};
ghost use Rattle.uc_query_read.specs.declared.answer.Answer.TheVariants as given;
ghost use Rattle.uc_version_state.specs.Versions.{writes_in};
ghost use Rattle.uc_version_state.specs.Snapshots.{with_keep};

use std::alloc::{AllocError, Global};
use uc_oper::Operator;
use uc_query::{Answer, Query};
use uc_version::Owned;

/// Answers a query as if a snapshot were at the last sequence. It only reads.
pub fn answer_last<O: Operator>(
    alloc: Global,
    store: &Owned<O>,
    query: &Query,
) -> Result<Answer, AllocError>
    ensures { IfOk result (λ answer. answer ≡
        answer_of O.meaning (writes_in store.now.version) (with_keep store.now.version.last store.now.version.keeps) query.now) }
{
    uc_query::answer_last::<O>(alloc, store.version(), query)
}

/// Looks up a borrowed key at the last sequence, whether or not a snapshot is there. The answer is a value. It only reads.
pub fn get_last<O: Operator>(
    alloc: Global,
    store: &Owned<O>,
    key: &[u8],
) -> Result<Answer, AllocError>
    ensures { IfOk result (λ answer. answer ≡
        given.Value (value_of O.meaning (writes_in store.now.version) key.now store.now.version.last)) }
{
    uc_query::get_last::<O>(alloc, store.version(), key)
}
