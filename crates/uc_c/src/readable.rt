//! [`Readable`]: what is read in the same way.
use std::alloc::{AllocError, Global};
use uc_engine::{Answer, Engine, EngineView, LookupSource, Query, ValueRef};
use uc_run::SoughtKey;

/// An engine, or a view of one.
pub trait Readable {
    ghost use Rattle.std.specs.Prelude.{◌≡◌, IfOk};
    ghost use Rattle.uc_query_read.specs.declared.query.Query.TheVariants as queries;
    ghost use Rattle.uc_live.specs.Sources.{source_of};
    ghost use Rattle.uc_engine.specs.EngineViews.{Viewed, answer_seen, value_seen};

    /// The part of it that contracts see.
    ghost viewed: { Self → Viewed };

    /// The value that a key has at the last sequence, if it has one. One that was put stays where it is.
    fn get_ref(&self, alloc: Global, key: &[u8]) -> Result<Option<ValueRef<'_>>, AllocError>
        ensures { IfOk result (λ value. value ≡ value_seen (viewed self.now) key.now) };

    /// Reads what lookups of these keys will read, for all keys side by side, so that the waits for memory overlap. The result has
    /// no meaning; the caller must use it, so that the reads aren't removed. Fails only if allocation fails.
    fn touch(&self, alloc: Global, keys: &[SoughtKey<'_>]) -> Result<u8, AllocError>;

    /// Where a lookup of a key at the last sequence is answered.
    fn source(&self, alloc: Global, key: &[u8]) -> Result<LookupSource, AllocError>
        ensures { IfOk result (λ source. source ≡ source_of (viewed self.now).seen key.now) };

    /// Looks a key up at a sequence. The answer is a value, if the key has one, or `NotProtected` if no snapshot is at
    /// the sequence.
    fn get_at(&self, alloc: Global, key: &[u8], at: u64) -> Result<Answer, AllocError>
        ensures { IfOk result (λ answer. answer ≡ answer_seen (viewed self.now) (queries.Get key.now at)) };

    /// The answer to a query at a snapshot, or `NotProtected` if no snapshot is at its sequence.
    fn answer(&self, alloc: Global, query: &Query) -> Result<Answer, AllocError>
        ensures { IfOk result (λ answer. answer ≡ answer_seen (viewed self.now) query.now) };
}

impl Readable for Engine {
    ghost use Rattle.uc_engine.specs.EngineViews.{viewed_in};

    ghost viewed = { viewed_in };

    fn get_ref(&self, alloc: Global, key: &[u8]) -> Result<Option<ValueRef<'_>>, AllocError> {
        Engine::get_ref(self, alloc, key)
    }

    fn touch(&self, alloc: Global, keys: &[SoughtKey<'_>]) -> Result<u8, AllocError> {
        Engine::touch(self, alloc, keys)
    }

    fn source(&self, alloc: Global, key: &[u8]) -> Result<LookupSource, AllocError> {
        Engine::source(self, alloc, key)
    }

    fn get_at(&self, alloc: Global, key: &[u8], at: u64) -> Result<Answer, AllocError> {
        Engine::get_at(self, alloc, key, at)
    }

    fn answer(&self, alloc: Global, query: &Query) -> Result<Answer, AllocError> {
        Engine::answer(self, alloc, query)
    }
}

impl Readable for EngineView {
    ghost viewed = { λ v. v };

    fn get_ref(&self, alloc: Global, key: &[u8]) -> Result<Option<ValueRef<'_>>, AllocError> {
        EngineView::get_ref(self, alloc, key)
    }

    fn touch(&self, alloc: Global, keys: &[SoughtKey<'_>]) -> Result<u8, AllocError> {
        EngineView::touch(self, alloc, keys)
    }

    fn source(&self, alloc: Global, key: &[u8]) -> Result<LookupSource, AllocError> {
        EngineView::source(self, alloc, key)
    }

    fn get_at(&self, alloc: Global, key: &[u8], at: u64) -> Result<Answer, AllocError> {
        EngineView::get_at(self, alloc, key, at)
    }

    fn answer(&self, alloc: Global, query: &Query) -> Result<Answer, AllocError> {
        EngineView::answer(self, alloc, query)
    }
}
