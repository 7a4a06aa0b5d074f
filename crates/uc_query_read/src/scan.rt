//! The rows of a scan of runs.
ghost use Rattle.std.specs.Prelude.{◌≡◌, ◌++◌, ◌∷◌, [], ℕ, List, false, IfOk, OnOk};
ghost use Rattle.uc_query_read.specs.Answers as answers;
ghost use Rattle.uc_query_read.specs.Answers.{named_keys};
ghost use Rattle.uc_compact.specs.Inputs.{writes_of, points_of};
ghost use Rattle.uc_version_state.specs.Versions.{contents_of};
ghost use Rattle.uc_query_read.specs.Ahead.{keys_ahead};
ghost use Rattle.uc_rows.specs.Laying.{AreLaid};
ghost use Rattle.uc_rows.specs.RowBytes.{Row};

use crate::answer_laws::{scan_keys_are_named, scan_keys_rise, scan_rows_are_first};
use crate::cursors::Cursors;
use std::alloc::{AllocError, Global};
use uc_bytes::Bytes;
use uc_model::value_is_given;
use uc_oper::{Operator, ValueRef};
use uc_rows::{Laid, RowBuffer, Rows};
use uc_run::plain_list_is_in_order;
use uc_version_state::Placed;

/// The bytes of memory that a scan allocates at first for each of its rows: as many as a small row takes.
const ROW_ROOM: usize = 128;

/// The most rows for which it allocates memory at first.
const FEW_ROWS: u64 = 512;

/// The first of the keys of the runs' points in the range that have a value at the sequence, with it. A key without one
/// doesn't count.
fn first_rows<O: Operator>(
    alloc: Global,
    runs: &[Placed],
    low: &[u8],
    high: &Option<Bytes>,
    at: u64,
    limit: u64,
) -> Result<RowBuffer, AllocError>
    ensures { IfOk result (λ rows. rows ≡ answers.first_rows O.meaning (writes_of (contents_of runs.now)) at limit
        (keys_ahead (points_of (contents_of runs.now)) low.now false high.now)) }
{
    let mut rows = RowBuffer::with_capacity(alloc, limit.min(FEW_ROWS) as usize * ROW_ROOM)?;
    let mut cursors = Cursors::from(alloc, runs, low, high)?;
    while (rows.len() as u64) < limit {
        if let Some((key, value)) = cursors.next_alone::<O>(at) {
            rows.push(key, value)?;
            continue;
        }
        let Some((key, value)) = cursors.next::<O>(alloc, at)? else {
            break;
        };
        match value {
            Some(value) => rows.push(key, value.as_slice())?,
            None => cursors.skip_dead::<O>(at),
        }
    }
    Ok(rows)
}

/// Adds a row to those that were laid out, whose value is borrowed or not.
pub(crate) fn add_row(
    laid: &mut Laid,
    room: &mut [u8],
    key: &[u8],
    value: ValueRef<'_>,
) -> Result<(), AllocError>
    ensures { OnOk result ((rows : List Row) (first : List ℕ) → AreLaid rows first room.old laid.old →
        AreLaid (rows ++ (key.now, value.entry) ∷ []) first room.new laid.new) }
{
    laid.add(room, key, value.as_slice())
}

/// Copies these rows to a buffer, as far as they fit.
fn lay_first_rows<O: Operator>(
    alloc: Global,
    runs: &[Placed],
    low: &[u8],
    high: &Option<Bytes>,
    at: u64,
    limit: u64,
    room: &mut [u8],
) -> Result<Laid, AllocError>
    ensures { IfOk result (AreLaid (answers.first_rows O.meaning (writes_of (contents_of runs.now)) at limit
        (keys_ahead (points_of (contents_of runs.now)) low.now false high.now)) room.old room.new) }
{
    let mut laid = Laid::new();
    let mut walk = Cursors::from(alloc, runs, low, high)?;
    while laid.rows < limit {
        if let Some((key, value)) = walk.next_alone::<O>(at) {
            laid.add(room, key, value)?;
            continue;
        }
        let Some((key, found)) = walk.next::<O>(alloc, at)? else {
            break;
        };
        match found {
            Some(value) => add_row(&mut laid, room, key, value)?,
            None => walk.skip_dead::<O>(at),
        }
    }
    Ok(laid)
}

/// The rows of a scan of runs, the newest first: the first keys in the range that a put or a merge names and that have
/// a value at the sequence.
pub(crate) fn rows_of_runs<O: Operator>(
    alloc: Global,
    runs: &[Placed],
    low: &[u8],
    high: &Option<Bytes>,
    at: u64,
    limit: u64,
) -> Result<Rows, AllocError>
    ensures { IfOk result (λ rows. rows ≡ answers.first_rows O.meaning (writes_of (contents_of runs.now)) at limit
        (named_keys (writes_of (contents_of runs.now)) low.now high.now)) }
{
    plain_list_is_in_order();
    scan_keys_rise();
    scan_keys_are_named();
    scan_rows_are_first::<O>();
    value_is_given::<O>();
    let rows = first_rows::<O>(alloc, runs, low, high, at, limit)?;
    Ok(Rows::known(rows))
}

/// Copies the rows of a scan of runs, as [`rows_of_runs`] finds them, to a buffer, as far as they fit.
pub(crate) fn lay_rows_of_runs<O: Operator>(
    alloc: Global,
    runs: &[Placed],
    low: &[u8],
    high: &Option<Bytes>,
    at: u64,
    limit: u64,
    room: &mut [u8],
) -> Result<Laid, AllocError>
    ensures { IfOk result (AreLaid (answers.first_rows O.meaning (writes_of (contents_of runs.now)) at limit
        (named_keys (writes_of (contents_of runs.now)) low.now high.now)) room.old room.new) }
{
    plain_list_is_in_order();
    scan_keys_rise();
    scan_keys_are_named();
    value_is_given::<O>();
    lay_first_rows::<O>(alloc, runs, low, high, at, limit, room)
}
