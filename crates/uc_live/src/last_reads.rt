//! Reads at the last sequence number, of a version and of the writes in memtables after it.
ghost use Rattle.std.specs.Prelude.{◌≡◌, ◌≢◌, ◌++◌, [], reverse, IfOk};
ghost use Rattle.std.specs.Arc.{arc_value};
ghost use Rattle.uc_batch.specs.Rising.{IsRising, last_of};
ghost use Rattle.uc_model.specs.Meaning.{value_of};
ghost use Rattle.uc_query_read.specs.Answers.{first_rows, named_keys};
ghost use Rattle.uc_rows.specs.Laying.{AreLaid};
ghost use Rattle.uc_run.specs.Flush.{flushed};
ghost use Rattle.uc_version_state.specs.Versions.{writes_in};

use std::alloc::{AllocError, Global};
use std::sync::Arc;
use uc_bytes::Bytes;
use uc_memtable::FlushableMemtables;
use uc_model::effect_continues_value;
use uc_oper::{Operator, ValueRef};
use uc_query_read::{
    Laid, Rows, equal_values_give_equal_answers, lay_rows_at, lay_rows_back_at,
    lay_rows_back_behind, lay_rows_behind, rows_at, rows_back_are_rows_reversed, rows_behind,
    value_behind,
};
use uc_run::{Run, SoughtKey, flush_keeps_every_effect};
use uc_version::Version;

/// The last sequence; 0 if nothing was written.
pub(crate) fn last_sequence(version: &Version, gathered: &FlushableMemtables) -> u64
    ensures { result ≡ last_of version.now.last gathered.now.shown }
{
    if gathered.is_empty() {
        return version.last();
    }
    gathered.last()
}

/// The value that a key has at the last sequence, if it has one. It asks the memtables first, and then the runs, each
/// from the newest on, up to the first that puts or deletes the key. A value that was put, and that nothing is merged into,
/// stays where it is.
pub(crate) fn last_value<'a, O: Operator>(
    alloc: Global,
    version: &'a Version,
    gathered: &'a FlushableMemtables,
    key: &[u8],
) -> Result<Option<ValueRef<'a>>, AllocError>
    ensures { IfOk result (λ value. value ≡ value_of O.meaning
        (writes_in version.now ++ gathered.now.shown) key.now (last_of version.now.last gathered.now.shown)) }
{
    effect_continues_value::<O>();
    let last = last_sequence(version, gathered);
    let key = SoughtKey::new(key);
    let newer = gathered.effect_of_sought::<O>(alloc, &key, last)?;
    value_behind::<O>(alloc, version, &key, last, newer)
}

/// The run of the writes in memtables. It costs a sort.
pub(crate) fn sorted(alloc: Global, gathered: &FlushableMemtables) -> Result<Arc<Run>, AllocError>
    requires { gathered.now.shown ≢ [] }
    ensures { IfOk result (λ run. arc_value run ≡ flushed gathered.now.shown) }
{
    Ok(Arc::new(alloc, gathered.to_run(alloc)?)?)
}

/// The rows of a scan at the last sequence number, as [`last_rows`] finds them, with the run of the writes in memtables.
pub(crate) fn sorted_rows<O: Operator>(
    alloc: Global,
    version: &Version,
    gathered: &FlushableMemtables,
    newer: Arc<Run>,
    low: &[u8],
    high: &Option<Bytes>,
    limit: u64,
) -> Result<Rows, AllocError>
    requires some { gathered.now.shown ≢ [] }
    requires rising { IsRising version.now.last gathered.now.shown }
    requires newer { arc_value newer ≡ flushed gathered.now.shown }
    ensures { IfOk result (λ rows. rows ≡ first_rows O.meaning
        (writes_in version.now ++ gathered.now.shown) (last_of version.now.last gathered.now.shown) limit
        (named_keys (writes_in version.now ++ gathered.now.shown) low.now high.now)) }
{
    flush_keeps_every_effect::<O>();
    equal_values_give_equal_answers::<O>();
    effect_continues_value::<O>();
    rows_behind::<O>(alloc, newer, version, low, high, gathered.last(), limit)
}

/// The first rows, at most `limit`, of the keys from `low` to below `high`, or to the last one if `high` is `None`, at the last
/// sequence number. It costs a sort of the writes in memtables, a search in each run, and then a step in each run for each key in
/// the range up to the last row's.
pub(crate) fn last_rows<O: Operator>(
    alloc: Global,
    version: &Version,
    gathered: &FlushableMemtables,
    low: &[u8],
    high: &Option<Bytes>,
    limit: u64,
) -> Result<Rows, AllocError>
    requires { IsRising version.now.last gathered.now.shown }
    ensures { IfOk result (λ rows. rows ≡ first_rows O.meaning
        (writes_in version.now ++ gathered.now.shown) (last_of version.now.last gathered.now.shown) limit
        (named_keys (writes_in version.now ++ gathered.now.shown) low.now high.now)) }
{
    if gathered.is_empty() {
        return rows_at::<O>(alloc, version, low, high, version.last(), limit);
    }
    let newer = sorted(alloc, gathered)?;
    sorted_rows::<O>(alloc, version, gathered, newer, low, high, limit)
}

/// Copies the rows of a scan, as [`sorted_rows`] finds them, to a buffer, as far as they fit.
pub(crate) fn lay_sorted_rows<O: Operator>(
    alloc: Global,
    version: &Version,
    gathered: &FlushableMemtables,
    newer: Arc<Run>,
    low: &[u8],
    high: &Option<Bytes>,
    limit: u64,
    room: &mut [u8],
) -> Result<Laid, AllocError>
    requires some { gathered.now.shown ≢ [] }
    requires rising { IsRising version.now.last gathered.now.shown }
    requires newer { arc_value newer ≡ flushed gathered.now.shown }
    ensures { IfOk result (AreLaid (first_rows O.meaning
        (writes_in version.now ++ gathered.now.shown) (last_of version.now.last gathered.now.shown) limit
        (named_keys (writes_in version.now ++ gathered.now.shown) low.now high.now)) room.old room.new) }
{
    flush_keeps_every_effect::<O>();
    equal_values_give_equal_answers::<O>();
    effect_continues_value::<O>();
    lay_rows_behind::<O>(
        alloc,
        newer,
        version,
        low,
        high,
        gathered.last(),
        limit,
        room,
    )
}

/// Copies the rows of a scan, as [`last_rows`] finds them, to a buffer, as far as they fit.
pub(crate) fn lay_rows<O: Operator>(
    alloc: Global,
    version: &Version,
    gathered: &FlushableMemtables,
    low: &[u8],
    high: &Option<Bytes>,
    limit: u64,
    room: &mut [u8],
) -> Result<Laid, AllocError>
    requires { IsRising version.now.last gathered.now.shown }
    ensures { IfOk result (AreLaid (first_rows O.meaning
        (writes_in version.now ++ gathered.now.shown) (last_of version.now.last gathered.now.shown) limit
        (named_keys (writes_in version.now ++ gathered.now.shown) low.now high.now)) room.old room.new) }
{
    if gathered.is_empty() {
        return lay_rows_at::<O>(alloc, version, low, high, version.last(), limit, room);
    }
    let run = sorted(alloc, gathered)?;
    lay_sorted_rows::<O>(alloc, version, gathered, run, low, high, limit, room)
}

/// Copies the rows of a scan in descending order of key, as [`lay_rows_back`] finds them, with the run of the writes in memtables.
pub(crate) fn lay_sorted_rows_back<O: Operator>(
    alloc: Global,
    version: &Version,
    gathered: &FlushableMemtables,
    newer: Arc<Run>,
    low: &[u8],
    high: &Option<Bytes>,
    limit: u64,
    room: &mut [u8],
) -> Result<Laid, AllocError>
    requires some { gathered.now.shown ≢ [] }
    requires rising { IsRising version.now.last gathered.now.shown }
    requires newer { arc_value newer ≡ flushed gathered.now.shown }
    ensures { IfOk result (AreLaid (first_rows O.meaning
        (writes_in version.now ++ gathered.now.shown) (last_of version.now.last gathered.now.shown) limit
        (reverse (named_keys (writes_in version.now ++ gathered.now.shown) low.now high.now))) room.old room.new) }
{
    flush_keeps_every_effect::<O>();
    equal_values_give_equal_answers::<O>();
    effect_continues_value::<O>();
    rows_back_are_rows_reversed::<O>();
    lay_rows_back_behind::<O>(
        alloc,
        newer,
        version,
        low,
        high,
        gathered.last(),
        limit,
        room,
    )
}

/// Copies the last rows, at most `limit`, of the keys from `low` to below `high`, or to the last one if `high` is `None`, at the last
/// sequence, to a buffer, as far as they fit: the greatest key first. It costs what [`last_rows`] does.
pub(crate) fn lay_rows_back<O: Operator>(
    alloc: Global,
    version: &Version,
    gathered: &FlushableMemtables,
    low: &[u8],
    high: &Option<Bytes>,
    limit: u64,
    room: &mut [u8],
) -> Result<Laid, AllocError>
    requires { IsRising version.now.last gathered.now.shown }
    ensures { IfOk result (AreLaid (first_rows O.meaning
        (writes_in version.now ++ gathered.now.shown) (last_of version.now.last gathered.now.shown) limit
        (reverse (named_keys (writes_in version.now ++ gathered.now.shown) low.now high.now))) room.old room.new) }
{
    if gathered.is_empty() {
        return lay_rows_back_at::<O>(alloc, version, low, high, version.last(), limit, room);
    }
    let run = sorted(alloc, gathered)?;
    lay_sorted_rows_back::<O>(alloc, version, gathered, run, low, high, limit, room)
}
