//! Lines that ask to read, by their fields: the same in a script and before a log.

ghost use Rattle.std.specs.Prelude.{◌≡◌, IfOk};
ghost use Rattle.uc_script.specs.Queries.{get_of, scan_of};

use crate::field::{high, number, seq, text};
use crate::query::Query;
use std::alloc::{AllocError, Global};

/// `get K S`.
#[tactic(auto, unfolding(crate::specs::Queries::get_of))]
pub(crate) fn read_get(
    alloc: Global,
    word: &[u8],
    key: &[u8],
    at: &[u8],
) -> Result<Option<Query>, AllocError>
    ensures { IfOk result (λ query. query ≡ get_of word.now key.now at.now) }
{
    if word != b"get".as_slice() {
        return Ok(None);
    }
    let Some(key) = text(alloc, key)? else {
        return Ok(None);
    };
    let Some(at) = seq(at) else {
        return Ok(None);
    };
    Ok(Some(Query::Get { key, at }))
}

/// `scan LOW HIGH LIMIT S`.
#[tactic(auto, unfolding(crate::specs::Queries::scan_of))]
pub(crate) fn read_scan(
    alloc: Global,
    word: &[u8],
    low: &[u8],
    end: &[u8],
    limit: &[u8],
    at: &[u8],
) -> Result<Option<Query>, AllocError>
    ensures { IfOk result (λ query. query ≡ scan_of word.now low.now end.now limit.now at.now) }
{
    if word != b"scan".as_slice() {
        return Ok(None);
    }
    let Some(low) = text(alloc, low)? else {
        return Ok(None);
    };
    let Some(high) = high(alloc, end)? else {
        return Ok(None);
    };
    let Some(limit) = number(limit) else {
        return Ok(None);
    };
    let Some(at) = seq(at) else {
        return Ok(None);
    };
    Ok(Some(Query::Scan {
        low,
        high,
        limit,
        at,
    }))
}
