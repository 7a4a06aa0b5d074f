//! Reading ahead for lookups of many keys.
use crate::engine::Engine;
use crate::engine_view::EngineView;
use std::alloc::{AllocError, Global};
use uc_query_read::touch;
use uc_run::SoughtKey;

impl Engine {
    /// Reads what lookups of these keys will read of the runs, for all keys side by side, so that the waits for memory overlap. The
    /// result has no meaning; the caller must use it, so that the reads aren't removed. Fails only if allocation fails.
    pub fn touch(&self, alloc: Global, keys: &[SoughtKey<'_>]) -> Result<u8, AllocError> {
        touch(alloc, self.version(), keys)
    }
}

impl EngineView {
    /// Reads ahead for lookups of these keys in the view, as [`Engine::touch`] does.
    pub fn touch(&self, alloc: Global, keys: &[SoughtKey<'_>]) -> Result<u8, AllocError> {
        touch(alloc, self.version(), keys)
    }
}
