//! The rows of a scan of runs against the order of their keys.
ghost use Rattle.std.specs.Prelude.{◌≡◌, false, reverse, IfOk};
ghost use Rattle.uc_query_read.specs.Answers as answers;
ghost use Rattle.uc_query_read.specs.Answers.{named_keys};
ghost use Rattle.uc_compact.specs.Inputs.{writes_of, points_of};
ghost use Rattle.uc_version_state.specs.Versions.{contents_of};
ghost use Rattle.uc_query_read.specs.Ahead.{keys_ahead};
ghost use Rattle.uc_rows.specs.Laying.{AreLaid};

use crate::answer_laws::{scan_keys_are_named, scan_keys_rise};
use crate::back_walk::BackWalk;
use crate::scan::add_row;
use std::alloc::{AllocError, Global};
use uc_bytes::Bytes;
use uc_model::value_is_given;
use uc_oper::Operator;
use uc_rows::Laid;
use uc_run::plain_list_is_in_order;
use uc_version_state::Placed;

/// Copies to a buffer, as far as they fit, the last of the keys of the runs' points in the range that have a value at the sequence, with
/// it: the greatest first. A key without one doesn't count.
fn lay_last_rows<O: Operator>(
    alloc: Global,
    runs: &[Placed],
    low: &[u8],
    high: &Option<Bytes>,
    at: u64,
    limit: u64,
    room: &mut [u8],
) -> Result<Laid, AllocError>
    ensures { IfOk result (AreLaid (answers.first_rows O.meaning (writes_of (contents_of runs.now)) at limit
        (reverse (keys_ahead (points_of (contents_of runs.now)) low.now false high.now))) room.old room.new) }
{
    let mut laid = Laid::new();
    let mut walk = BackWalk::from(alloc, runs, low, high)?;
    while laid.rows < limit {
        if let Some((key, value)) = walk.next_alone::<O>(at) {
            laid.add(room, key, value)?;
            continue;
        }
        let Some((key, found)) = walk.next::<O>(alloc, at)? else {
            break;
        };
        match found {
            Some(value) => add_row(&mut laid, room, key, value)?,
            None => walk.skip_dead::<O>(alloc, at),
        }
    }
    Ok(laid)
}

/// Copies to a buffer, as far as they fit, the rows of a scan of runs, the newest first, against the order of keys: the last keys in the
/// range that a put or a merge names and that have a value at the sequence, the greatest first.
pub(crate) fn lay_rows_back_of_runs<O: Operator>(
    alloc: Global,
    runs: &[Placed],
    low: &[u8],
    high: &Option<Bytes>,
    at: u64,
    limit: u64,
    room: &mut [u8],
) -> Result<Laid, AllocError>
    ensures { IfOk result (AreLaid (answers.first_rows O.meaning (writes_of (contents_of runs.now)) at limit
        (reverse (named_keys (writes_of (contents_of runs.now)) low.now high.now))) room.old room.new) }
{
    plain_list_is_in_order();
    scan_keys_rise();
    scan_keys_are_named();
    value_is_given::<O>();
    lay_last_rows::<O>(alloc, runs, low, high, at, limit, room)
}
