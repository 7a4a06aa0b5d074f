//! A live store: it is written to as a map, and read at a snapshot and at the last sequence.
use crate::visits::{VISITS, number, number_of};
use anyhow::Result;
use std::alloc::Global;
use uc_store::{Counter, LiveStore, OpRef};

/// Counts three times. Returns the visits at a snapshot that was taken before, and those now.
pub(crate) fn count(alloc: Global, store: &mut LiveStore<Counter>) -> Result<(u64, u64)> {
    let snapshot = store.snapshot(alloc)?;
    for visits in 1..4u64 {
        store.write(alloc, OpRef::merge(VISITS, &visits.to_le_bytes()))?;
    }
    let before = store.get_at(alloc, VISITS, snapshot)?;
    let now = store.get(alloc, VISITS)?;
    store.release(snapshot)?;
    Ok((number(&before)?, number_of(&now)?))
}
