//! [`LookupSource`]: where a lookup is answered.
ghost use Rattle.std.specs.Prelude.{◌≡◌, IfOk};
ghost use Rattle.uc_version_state.specs.Versions.{contents_of};
ghost use Rattle.uc_compact.specs.Inputs.{writes_of};
ghost use Rattle.uc_live.specs.Sources.{changes, is_decided_by, is_seen_among, source_of};

use crate::last_reads::last_sequence;
use std::alloc::{AllocError, Global};
use uc_memtable::FlushableMemtables;
use uc_oper::{Effect, EffectRef, Operator};
use uc_run::SoughtKey;
use uc_version::{Placed, Version};

/// Where a lookup at the last sequence is answered.
#[derive(Clone, Copy, Debug, PartialEq, Eq)]
pub enum LookupSource {
    /// The memtables: one of their writes puts the key, or deletes it, alone or in a range. No run is searched.
    Memtable,
    /// The runs' filters: no write in memtables puts or deletes the key, and no write of a run touches it. The lookup checks each
    /// run's filter and its range deletions. If a filter admits the key by chance, the lookup searches the run, and finds nothing.
    Filters,
    /// The runs: no write in memtables puts or deletes the key, and a write of a run touches it.
    Runs,
}

/// Whether an effect is that of some writes, and not of none.
fn is_change(alloc: Global, effect: EffectRef<'_>) -> Result<bool, AllocError>
    ensures { IfOk result (λ is. is ≡ changes effect.entry) }
{
    if effect.is_set() {
        return Ok(true);
    }
    // It borrows no value, so this copies nothing.
    match effect.into_effect(alloc)? {
        Effect::Keep => Ok(false),
        Effect::Fold(_) | Effect::Set(_) => Ok(true),
    }
}

/// Whether a read of a key at a sequence number sees a write in memtables that puts or deletes it.
fn is_decided<O: Operator>(
    alloc: Global,
    gathered: &FlushableMemtables,
    key: &SoughtKey<'_>,
    at: u64,
) -> Result<bool, AllocError>
    ensures { IfOk result (λ decided. decided ≡ is_decided_by gathered.now.shown key.now at) }
{
    let effect = gathered.effect_of_sought::<O>(alloc, key, at)?;
    Ok(effect.is_set())
}

/// Whether a read of a key at a sequence sees a write of the runs. It asks the filters first.
fn is_in_runs<O: Operator>(
    alloc: Global,
    runs: &[Placed],
    key: &SoughtKey<'_>,
    at: u64,
) -> Result<bool, AllocError>
    ensures { IfOk result (λ seen. seen ≡ is_seen_among (writes_of (contents_of runs.now)) key.now at) }
{
    for placed in runs {
        let effect = placed.run().effect_of_sought::<O>(alloc, key, at)?;
        if is_change(alloc, effect)? {
            return Ok(true);
        }
    }
    Ok(false)
}

/// Where a lookup of a key at the last sequence is answered. It asks as the lookup does, but no run after the first that
/// has a write of the key.
pub(crate) fn last_source<O: Operator>(
    alloc: Global,
    version: &Version,
    gathered: &FlushableMemtables,
    key: &[u8],
) -> Result<LookupSource, AllocError>
    ensures { IfOk result (λ source.
        source ≡ source_of (record { version = version.now; gathered = gathered.now.shown }) key.now) }
{
    let last = last_sequence(version, gathered);
    let key = SoughtKey::new(key);
    let decided = is_decided::<O>(alloc, gathered, &key, last)?;
    if decided {
        return Ok(LookupSource::Memtable);
    }
    let seen = is_in_runs::<O>(alloc, version.runs(), &key, last)?;
    if seen {
        return Ok(LookupSource::Runs);
    }
    Ok(LookupSource::Filters)
}
