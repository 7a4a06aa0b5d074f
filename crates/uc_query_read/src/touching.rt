//! Reading ahead for lookups of many keys.
use std::alloc::{AllocError, Global};
use uc_run::SoughtKey;
use uc_version_state::Version;

/// The least size of a run in bytes for which reading ahead pays: a smaller one stays in the cache of a processor's core, and reading
/// ahead costs more than it saves.
const LEAST_BYTES: u64 = 4_194_304;

/// Reads what lookups of these keys will read of a version's large runs, for all keys side by side, so that the waits for memory overlap.
/// The result has no meaning; the caller must use it, so that the reads aren't removed. Fails only if allocation fails.
pub fn touch(alloc: Global, version: &Version, keys: &[SoughtKey<'_>]) -> Result<u8, AllocError> {
    let mut touched = 0;
    for placed in version.runs() {
        let run = placed.run();
        if run.size() >= LEAST_BYTES {
            touched ^= run.touch(alloc, keys)?;
        }
    }
    Ok(touched)
}
