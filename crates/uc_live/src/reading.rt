//! Reads, which only read.
ghost use Rattle.std.specs.Prelude.{◌≡◌, IfOk, option_map};
ghost use Rattle.uc_model.specs.Meaning.{value_of};
ghost use Rattle.uc_query_read.specs.Answers.{answer_of, first_rows, named_keys};
ghost use Rattle.uc_query_read.specs.declared.query.Query.TheVariants as queries;
ghost use Rattle.uc_live.specs.Lives as lives;
ghost use Rattle.uc_live.specs.Sources.{source_of};
ghost use Rattle.uc_live.specs.Views.{seen_in};

use crate::last_reads::{last_rows, last_value};
use crate::live_store::LiveStore;
use crate::lookup_source::{LookupSource, last_source};
use std::alloc::{AllocError, Global};
use uc_bytes::Bytes;
use uc_model::later_writes_change_nothing;
use uc_oper::{Operator, ValueRef, owned_value};
use uc_query_read::{Answer, Query, Rows, answer_one, equal_values_give_equal_answers, get};

impl<O: Operator> LiveStore<O> {
    /// The value that a key has at the last sequence, if it has one, in memory of its own. It is found as
    /// [`get_ref`](LiveStore::get_ref) does.
    pub fn get(&self, alloc: Global, key: &[u8]) -> Result<Option<Bytes>, AllocError>
        ensures { IfOk result (λ value.
            value ≡ value_of O.meaning (lives.writes_of self.now) key.now (lives.last self.now)) }
    {
        let value = self.get_ref(alloc, key)?;
        owned_value(alloc, value)
    }

    /// The value that a key has at the last sequence, if it has one. It asks the memtables first, and then the runs,
    /// each from the newest on, up to the first that puts or deletes the key. One that was put, and
    /// that nothing is merged into, stays where it is.
    pub fn get_ref(&self, alloc: Global, key: &[u8]) -> Result<Option<ValueRef<'_>>, AllocError>
        ensures { IfOk result (λ value.
            value ≡ value_of O.meaning (lives.writes_of self.now) key.now (lives.last self.now)) }
    {
        last_value::<O>(alloc, self.owned.version(), &self.active, key)
    }

    /// Which part of the store answers [`get`](LiveStore::get) of a key. Fails only if allocation fails, and costs no more than the
    /// lookup.
    pub fn source(&self, alloc: Global, key: &[u8]) -> Result<LookupSource, AllocError>
        ensures { IfOk result (λ source. source ≡ source_of (seen_in self.now) key.now) }
    {
        last_source::<O>(alloc, self.owned.version(), &self.active, key)
    }

    /// Looks up a key at a sequence number. The answer is a value, if the key has one, or `NotProtected` if no snapshot is at that
    /// number. Writes in memtables are newer than each snapshot, so it searches the runs alone.
    pub fn get_at(&self, alloc: Global, key: &[u8], at: u64) -> Result<Answer, AllocError>
        ensures { IfOk result (λ answer.
            answer ≡ answer_of O.meaning (lives.writes_of self.now) self.now.version.keeps (queries.Get key.now at)) }
    {
        later_writes_change_nothing::<O>();
        equal_values_give_equal_answers::<O>();
        self.owned.recall();
        get::<O>(alloc, self.owned.version(), key, at)
    }

    /// The first rows, at most `limit`, of the keys from `low` to below `high`, or to the last one if `high` is `None`, at the last
    /// sequence number. It costs a sort of the writes in memtables, a search in each run, and then a step in each run for each key
    /// in the range up to the last row's.
    pub fn scan(
        &self,
        alloc: Global,
        low: &[u8],
        high: &Option<Bytes>,
        limit: u64,
    ) -> Result<Rows, AllocError>
        ensures { IfOk result (λ rows. rows ≡ first_rows O.meaning (lives.writes_of self.now) (lives.last self.now) limit
            (named_keys (lives.writes_of self.now) low.now high.now)) }
    {
        last_rows::<O>(alloc, self.owned.version(), &self.active, low, high, limit)
    }

    /// The answer to a query at a snapshot, or `NotProtected` if no snapshot is at its sequence number. Writes in memtables are
    /// newer than each snapshot, so it searches the runs alone.
    pub fn answer(&self, alloc: Global, query: &Query) -> Result<Answer, AllocError>
        ensures { IfOk result (λ answer.
            answer ≡ answer_of O.meaning (lives.writes_of self.now) self.now.version.keeps query.now) }
    {
        later_writes_change_nothing::<O>();
        equal_values_give_equal_answers::<O>();
        self.owned.recall();
        answer_one::<O>(alloc, self.owned.version(), query)
    }
}
