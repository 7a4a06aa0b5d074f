//! [`EngineView`]: the contents of an engine at one point in time.
ghost use Rattle.std.specs.Prelude.{◌≡◌, IfOk, length};
ghost use Rattle.uc_query_read.specs.declared.query.Query.TheVariants as queries;
ghost use Rattle.uc_live.specs.Sources.{source_of};
ghost use Rattle.uc_rows.specs.Laying.{AreLaid};
ghost use Rattle.uc_live.specs.Views as views;
ghost use Rattle.uc_engine.specs.EngineViews.{answer_seen, rows_seen, rows_seen_back, value_seen, viewed_in};

use crate::each_operator::{kind_of, map_each, with_each};
use crate::engine::{AnyStore, Engine};
use crate::operator_kind::{LastBytes, OperatorKind, Texts};
use std::alloc::{AllocError, Global};
use std::marker::Model;
use uc_bytes::Bytes;
use uc_live::{LookupSource, Version, View};
use uc_mixed::Mixed;
use uc_oper::{Counter, Maximum, ValueRef, owned_value};
use uc_query_read::{Answer, Laid, Query};

/// A view of a store of each operator.
#[derive(Drop)]
pub(crate) enum AnyView {
    /// A view of a store that joins byte strings.
    Append(View<Texts>),
    /// A view of a store that adds numbers.
    Counter(View<Counter>),
    /// A view of a store that keeps the greater byte string.
    Maximum(View<Maximum>),
    /// A view of a store that keeps the last bytes.
    Tail(View<LastBytes>),
    /// A view of a store whose operands name their operators.
    Mixed(View<Mixed>),
}

/// The contents of an engine at one point in time. They never change, whatever happens to the engine, even when it is dropped.
/// Threads share it: each read only reads. A contract sees the operator and the contents.
pub struct EngineView {
    pub(crate) view: AnyView,
}

impl Model for EngineView {
    ghost use Rattle.uc_engine.specs.EngineViews.{Viewed};
    ghost use Rattle.uc_engine.specs.HeldEngineViews.{viewed};

    ghost Value = { Viewed };

    ghost view = { viewed };
}

// A destructor of its own: where a value is dropped, the proof of a caller has one call, and not one for each field.
impl Drop for EngineView {
    fn drop(self) {
        let EngineView { view: _ } = self;
    }
}

impl Engine {
    /// A view of the present contents, as `LiveStore::view` returns it. It doesn't show a prepared batch. Fails only if allocation
    /// fails, and changes nothing.
    pub fn view(&mut self, alloc: Global) -> Result<EngineView, AllocError>
        ensures view { IfOk result (λ view. view ≡ viewed_in self.old) }
        ensures same { self.new ≡ self.old }
    {
        let view = map_each!(AnyStore => AnyView, &mut self.store, store => store.view(alloc)?);
        Ok(EngineView { view })
    }
}

impl EngineView {
    /// Another handle to the view, for another thread. It allocates nothing, and fails only if there are 2^63 handles already.
    pub fn again(&self) -> Result<EngineView, AllocError>
        ensures { IfOk result (λ again. again ≡ self.now) }
    {
        let view = map_each!(AnyView => AnyView, &self.view, view => view.again()?);
        Ok(EngineView { view })
    }

    /// The merge operator.
    pub fn kind(&self) -> OperatorKind
        ensures { result ≡ self.now.kind }
    {
        kind_of!(AnyView, &self.view)
    }

    /// Its runs and snapshots.
    pub(crate) fn version(&self) -> &Version
        ensures { result.now ≡ self.now.seen.version }
    {
        with_each!(AnyView, &self.view, view => view.version())
    }

    /// The last sequence; 0 if nothing was written.
    pub fn last(&self) -> u64
        ensures { result ≡ views.last self.now.seen }
    {
        with_each!(AnyView, &self.view, view => view.last())
    }

    /// The number of writes in memtables.
    pub fn gathered(&self) -> usize
        ensures { result ≡ length self.now.seen.gathered }
    {
        with_each!(AnyView, &self.view, view => view.gathered())
    }

    /// The sequences that snapshots protected, which rise, each once.
    pub fn keeps(&self) -> &[u64]
        ensures { result.now ≡ self.now.seen.version.keeps }
    {
        self.version().keeps()
    }

    /// Sorts the writes in memtables, once, so that the scans of this view and of those that are made of it don't. No read changes.
    pub fn sort(&mut self, alloc: Global) -> Result<(), AllocError>
        ensures { self.new ≡ self.old }
    {
        with_each!(AnyView, &mut self.view, view => view.sort(alloc))
    }

    /// The value that a key has at the last sequence, if it has one, in memory of its own.
    pub fn get(&self, alloc: Global, key: &[u8]) -> Result<Option<Bytes>, AllocError>
        ensures { IfOk result (λ value. value ≡ value_seen self.now key.now) }
    {
        let value = self.get_ref(alloc, key)?;
        owned_value(alloc, value)
    }

    /// The value that a key has at the last sequence, if it has one. One that was put, and that nothing is merged into, stays
    /// where it is.
    pub fn get_ref(&self, alloc: Global, key: &[u8]) -> Result<Option<ValueRef<'_>>, AllocError>
        ensures { IfOk result (λ value. value ≡ value_seen self.now key.now) }
    {
        with_each!(AnyView, &self.view, view => view.get_ref(alloc, key))
    }

    /// Where a lookup of a key at the last sequence is answered.
    pub fn source(&self, alloc: Global, key: &[u8]) -> Result<LookupSource, AllocError>
        ensures { IfOk result (λ source. source ≡ source_of self.now.seen key.now) }
    {
        with_each!(AnyView, &self.view, view => view.source(alloc, key))
    }

    /// Looks a key up at a sequence. The answer is a value, if the key has one, or `NotProtected` if no snapshot was at
    /// the sequence.
    pub fn get_at(&self, alloc: Global, key: &[u8], at: u64) -> Result<Answer, AllocError>
        ensures { IfOk result (λ answer. answer ≡ answer_seen self.now (queries.Get key.now at)) }
    {
        with_each!(AnyView, &self.view, view => view.get_at(alloc, key, at))
    }

    /// Copies the first rows, at most `limit`, of the keys from `low` to below `high`, or to the last one if `high` is `None`, at the last
    /// sequence number, to a buffer, one after the other, as far as they fit. It sorts the writes in memtables, unless they are
    /// [sorted](EngineView::sort).
    pub fn lay_rows(
        &self,
        alloc: Global,
        low: &[u8],
        high: &Option<Bytes>,
        limit: u64,
        room: &mut [u8],
    ) -> Result<Laid, AllocError>
        ensures { IfOk result (AreLaid (rows_seen self.now low.now high.now limit) room.old room.new) }
    {
        with_each!(AnyView, &self.view, view => view.lay_rows(alloc, low, high, limit, room))
    }

    /// Copies the last rows, at most `limit`, of the keys from `low` to below `high`, or to the last one if `high` is `None`, at the last
    /// sequence number, to a buffer, one after the other, as far as they fit: the greatest key first.
    pub fn lay_rows_back(
        &self,
        alloc: Global,
        low: &[u8],
        high: &Option<Bytes>,
        limit: u64,
        room: &mut [u8],
    ) -> Result<Laid, AllocError>
        ensures { IfOk result (AreLaid (rows_seen_back self.now low.now high.now limit) room.old room.new) }
    {
        with_each!(AnyView, &self.view, view => view.lay_rows_back(alloc, low, high, limit, room))
    }

    /// The answer to a query at a snapshot, or `NotProtected` if no snapshot was at its sequence.
    pub fn answer(&self, alloc: Global, query: &Query) -> Result<Answer, AllocError>
        ensures { IfOk result (λ answer. answer ≡ answer_seen self.now query.now) }
    {
        with_each!(AnyView, &self.view, view => view.answer(alloc, query))
    }
}
