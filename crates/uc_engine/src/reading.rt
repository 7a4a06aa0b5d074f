//! Reads, which only read.
ghost use Rattle.std.specs.Prelude.{◌≡◌, IfOk};
ghost use Rattle.uc_query_read.specs.declared.query.Query.TheVariants as queries;
ghost use Rattle.uc_live.specs.Sources.{source_of};
ghost use Rattle.uc_live.specs.Views.{seen_in};
ghost use Rattle.uc_engine.specs.Engines.{answer_in, last_rows, last_value};

use crate::each_operator::with_each;
use crate::engine::{AnyStore, Engine};
use std::alloc::{AllocError, Global};
use uc_bytes::Bytes;
use uc_live::LookupSource;
use uc_oper::{ValueRef, owned_value};
use uc_query_read::{Answer, Query, Rows};

impl Engine {
    /// The value that a key has at the last sequence, if it has one, in memory of its own.
    pub fn get(&self, alloc: Global, key: &[u8]) -> Result<Option<Bytes>, AllocError>
        ensures { IfOk result (λ value. value ≡ last_value self.now key.now) }
    {
        let value = self.get_ref(alloc, key)?;
        owned_value(alloc, value)
    }

    /// The value that a key has at the last sequence, if it has one. One that was put, and that nothing is merged into, stays
    /// where it is.
    pub fn get_ref(&self, alloc: Global, key: &[u8]) -> Result<Option<ValueRef<'_>>, AllocError>
        ensures { IfOk result (λ value. value ≡ last_value self.now key.now) }
    {
        with_each!(AnyStore, &self.store, store => store.get_ref(alloc, key))
    }

    /// Where a lookup of a key at the last sequence is answered.
    pub fn source(&self, alloc: Global, key: &[u8]) -> Result<LookupSource, AllocError>
        ensures { IfOk result (λ source. source ≡ source_of (seen_in self.now.live) key.now) }
    {
        with_each!(AnyStore, &self.store, store => store.source(alloc, key))
    }

    /// Looks a key up at a sequence. The answer is a value, if the key has one, or `NotProtected` if no snapshot is at
    /// the sequence.
    pub fn get_at(&self, alloc: Global, key: &[u8], at: u64) -> Result<Answer, AllocError>
        ensures { IfOk result (λ answer. answer ≡ answer_in self.now (queries.Get key.now at)) }
    {
        with_each!(AnyStore, &self.store, store => store.get_at(alloc, key, at))
    }

    /// The first rows, at most `limit`, of the keys from `low` to below `high`, or to the last one if `high` is `None`,
    /// at the last sequence.
    pub fn scan(
        &self,
        alloc: Global,
        low: &[u8],
        high: &Option<Bytes>,
        limit: u64,
    ) -> Result<Rows, AllocError>
        ensures { IfOk result (λ rows. rows ≡ last_rows self.now low.now high.now limit) }
    {
        with_each!(AnyStore, &self.store, store => store.scan(alloc, low, high, limit))
    }

    /// The answer to a query at a snapshot, or `NotProtected` if no snapshot is at its sequence.
    pub fn answer(&self, alloc: Global, query: &Query) -> Result<Answer, AllocError>
        ensures { IfOk result (λ answer. answer ≡ answer_in self.now query.now) }
    {
        with_each!(AnyStore, &self.store, store => store.answer(alloc, query))
    }
}
