//! Reads of a version after writes that are newer than all its runs.
ghost use Rattle.std.specs.Prelude.{◌≡◌, ◌∷◌, IfOk, map, reverse};
ghost use Rattle.std.specs.Arc.{arc_value};
ghost use Rattle.uc_oper.specs.Composition.{applied};
ghost use Rattle.uc_model.specs.Meaning.{value_of};
ghost use Rattle.uc_compact.specs.Inputs.{writes_of};
ghost use Rattle.uc_query_read.specs.Answers as answers;
ghost use Rattle.uc_query_read.specs.Answers.{named_keys};
ghost use Rattle.uc_rows.specs.Laying.{AreLaid};
ghost use Rattle.uc_version_state.specs.Versions.{contents_of, writes_in};

use crate::back_scan::lay_rows_back_of_runs;
use crate::lookup::value_of_runs;
use crate::scan::{lay_rows_of_runs, rows_of_runs};
use std::alloc::{AllocError, Global};
use std::sync::Arc;
use uc_bytes::Bytes;
use uc_oper::{Effect, EffectRef, Operator, ValueRef, owned_value};
use uc_rows::{Laid, Rows};
use uc_run::{Run, SoughtKey};
use uc_version_state::{Placed, Version};

/// The value that a newer effect makes of the one that a key has in a version at a sequence. If the effect sets the key, no run is
/// looked into. A value that was put, and that nothing is merged into, stays where it is.
pub fn value_behind<'a, O: Operator>(
    alloc: Global,
    version: &'a Version,
    key: &SoughtKey<'_>,
    at: u64,
    newer: EffectRef<'a>,
) -> Result<Option<ValueRef<'a>>, AllocError>
    ensures { IfOk result (λ value.
        value ≡ applied O.meaning newer.entry (value_of O.meaning (writes_in version.now) key.now at)) }
{
    if newer.is_set() {
        return newer.apply::<O>(alloc, None);
    }
    let older = value_of_runs::<O>(alloc, version.runs(), key, at)?;
    // It borrows no value, so this copies nothing.
    match newer.into_effect(alloc)? {
        Effect::Keep => Ok(older),
        newer => after::<O>(alloc, older, newer),
    }
}

/// The value that an effect makes of another.
fn after<'a, O: Operator>(
    alloc: Global,
    older: Option<ValueRef<'_>>,
    newer: Effect,
) -> Result<Option<ValueRef<'a>>, AllocError>
    ensures { IfOk result (λ value. value ≡ applied O.meaning newer older.entry) }
{
    let older = owned_value(alloc, older)?;
    match newer.apply::<O>(alloc, older)? {
        Some(value) => Ok(Some(ValueRef::own(value))),
        None => Ok(None),
    }
}

/// The rows of a scan of a version at a sequence, whether or not it is protected: the first, at most `limit`, of the keys from `low`
/// on, and below `high` if there is one, that have a value.
pub fn rows_at<O: Operator>(
    alloc: Global,
    version: &Version,
    low: &[u8],
    high: &Option<Bytes>,
    at: u64,
    limit: u64,
) -> Result<Rows, AllocError>
    ensures { IfOk result (λ rows. rows ≡ answers.first_rows O.meaning (writes_in version.now) at limit
        (named_keys (writes_in version.now) low.now high.now)) }
{
    rows_of_runs::<O>(alloc, version.runs(), low, high, at, limit)
}

/// Copies the rows of a scan, as [`rows_at`] finds them, to a buffer, as far as they fit.
pub fn lay_rows_at<O: Operator>(
    alloc: Global,
    version: &Version,
    low: &[u8],
    high: &Option<Bytes>,
    at: u64,
    limit: u64,
    room: &mut [u8],
) -> Result<Laid, AllocError>
    ensures { IfOk result (AreLaid (answers.first_rows O.meaning (writes_in version.now) at limit
        (named_keys (writes_in version.now) low.now high.now)) room.old room.new) }
{
    lay_rows_of_runs::<O>(alloc, version.runs(), low, high, at, limit, room)
}

/// Copies the rows of a scan of a version against the order of keys to a buffer, as far as they fit. The scan is at a sequence, whether
/// or not it is protected: the last rows, at most `limit`, of the keys from `low` on, and below `high` if there is one, that have a
/// value. The greatest key comes first.
pub fn lay_rows_back_at<O: Operator>(
    alloc: Global,
    version: &Version,
    low: &[u8],
    high: &Option<Bytes>,
    at: u64,
    limit: u64,
    room: &mut [u8],
) -> Result<Laid, AllocError>
    ensures { IfOk result (AreLaid (answers.first_rows O.meaning (writes_in version.now) at limit
        (reverse (named_keys (writes_in version.now) low.now high.now))) room.old room.new) }
{
    lay_rows_back_of_runs::<O>(alloc, version.runs(), low, high, at, limit, room)
}

/// A run before those of a version, which are shared. Its own place is of no account.
fn runs_behind(alloc: Global, newer: Arc<Run>, runs: &[Placed]) -> Result<Vec<Placed>, AllocError>
    ensures { IfOk result (λ all. contents_of all.items ≡ arc_value newer ∷ contents_of runs.now) }
{
    let mut all = Vec::with_capacity(alloc, runs.len().saturating_add(1))?;
    all.push(Placed {
        id: 0,
        slot: 0,
        run: newer,
    })?;
    for placed in runs {
        all.push(placed.shared()?)?;
    }
    Ok(all)
}

/// The rows of a scan, as [`rows_at`] gives them, of a version after a run that is newer than all its runs. It copies no run.
pub fn rows_behind<O: Operator>(
    alloc: Global,
    newer: Arc<Run>,
    version: &Version,
    low: &[u8],
    high: &Option<Bytes>,
    at: u64,
    limit: u64,
) -> Result<Rows, AllocError>
    ensures { IfOk result (λ rows.
        rows ≡ answers.first_rows O.meaning (writes_of (arc_value newer ∷ contents_of version.now.runs)) at limit
        (named_keys (writes_of (arc_value newer ∷ contents_of version.now.runs)) low.now high.now)) }
{
    let runs = runs_behind(alloc, newer, version.runs())?;
    rows_of_runs::<O>(alloc, &runs, low, high, at, limit)
}

/// Copies the rows of a scan, as [`rows_behind`] finds them, to a buffer, as far as they fit.
pub fn lay_rows_behind<O: Operator>(
    alloc: Global,
    newer: Arc<Run>,
    version: &Version,
    low: &[u8],
    high: &Option<Bytes>,
    at: u64,
    limit: u64,
    room: &mut [u8],
) -> Result<Laid, AllocError>
    ensures { IfOk result (AreLaid
        (answers.first_rows O.meaning (writes_of (arc_value newer ∷ contents_of version.now.runs)) at limit
        (named_keys (writes_of (arc_value newer ∷ contents_of version.now.runs)) low.now high.now)) room.old room.new) }
{
    let runs = runs_behind(alloc, newer, version.runs())?;
    lay_rows_of_runs::<O>(alloc, &runs, low, high, at, limit, room)
}

/// Copies the rows of a scan against the order of keys, as [`lay_rows_back_at`] does, of a version after a run that is newer than all
/// its runs. It copies no run.
pub fn lay_rows_back_behind<O: Operator>(
    alloc: Global,
    newer: Arc<Run>,
    version: &Version,
    low: &[u8],
    high: &Option<Bytes>,
    at: u64,
    limit: u64,
    room: &mut [u8],
) -> Result<Laid, AllocError>
    ensures { IfOk result (AreLaid
        (answers.first_rows O.meaning (writes_of (arc_value newer ∷ contents_of version.now.runs)) at limit
        (reverse (named_keys (writes_of (arc_value newer ∷ contents_of version.now.runs)) low.now high.now))) room.old room.new) }
{
    let runs = runs_behind(alloc, newer, version.runs())?;
    lay_rows_back_of_runs::<O>(alloc, &runs, low, high, at, limit, room)
}
