//! The answers of one thread that looks at every write.
ghost use Rattle.std.specs.Prelude.{◌≡◌, IfOk, OnOk};
ghost use Rattle.uc_query_read.specs.Answers as answers;

use crate::answer::Answer;
use crate::query::Query;
use std::alloc::{AllocError, Global};
use std::collections::BTreeSet;
use uc_batch::Writes;
use uc_bytes::{Bytes, Op, Write};
use uc_model::value_at;
use uc_oper::Operator;
use uc_rows::{RowBuffer, Rows};

/// Whether a key is in the range from `low` to below `high`, if there is one.
fn is_in_range(key: &Bytes, low: &Bytes, high: &Option<Bytes>) -> bool
    ensures { result ≡ answers.is_in_range low.now high.now key.now }
{
    let above = low.cmp(key).is_le();
    match high {
        None => above,
        Some(high) => above && key.cmp(high).is_lt(),
    }
}

/// Adds the key that an operation names, if it is a put or a merge of a key in the range.
fn add_key(
    keys: &mut BTreeSet<Bytes>,
    op: &Op,
    low: &Bytes,
    high: &Option<Bytes>,
) -> Result<(), AllocError>
    ensures { OnOk result (keys.new.keys ≡ answers.with_key low.now high.now keys.old.keys op.now) }
{
    match op {
        Op::Put(key, _) | Op::Merge(key, _) => {
            if is_in_range(key, low, high) {
                keys.insert(key.clone()?)?;
            }
        }
        Op::Delete(_) | Op::DeleteRange(_, _) => {}
    }
    Ok(())
}

/// The keys of the range that puts and merges name, in byte order, each once.
fn named_keys(
    alloc: Global,
    writes: &[Write],
    low: &Bytes,
    high: &Option<Bytes>,
) -> Result<Vec<Bytes>, AllocError>
    ensures { IfOk result (λ keys. keys.items ≡ answers.named_keys writes.now low.now high.now) }
{
    let mut keys = BTreeSet::new(alloc);
    for write in writes {
        add_key(&mut keys, &write.op, low, high)?;
    }
    keys.into_iter().collect(alloc)
}

/// The first of these keys that have a value at the sequence, with it.
fn first_rows<O: Operator>(
    alloc: Global,
    writes: &[Write],
    keys: &[Bytes],
    at: u64,
    limit: u64,
) -> Result<RowBuffer, AllocError>
    ensures { IfOk result (λ rows. rows ≡ answers.first_rows O.meaning writes.now at limit keys.now) }
{
    let mut rows = RowBuffer::new(alloc);
    for key in keys {
        if rows.len() as u64 >= limit {
            break;
        }
        if let Some(value) = value_at::<O>(alloc, writes, key.as_slice(), at)? {
            rows.push(key.as_slice(), value.as_slice())?;
        }
    }
    Ok(rows)
}

/// Whether a snapshot protects the sequence.
fn is_protected(keeps: &[u64], at: u64) -> bool
    ensures { result ≡ answers.is_protected keeps.now at }
{
    keeps.iter().any(|keep| *keep == at)
}

/// The answer at a sequence that is protected.
fn reading<O: Operator>(
    alloc: Global,
    writes: &[Write],
    query: &Query,
) -> Result<Answer, AllocError>
    ensures { IfOk result (λ answer. answer ≡ answers.reading O.meaning writes.now query.now) }
{
    match query {
        Query::Get { key, at } => {
            let value = value_at::<O>(alloc, writes, key.as_slice(), *at)?;
            Ok(Answer::Value(value))
        }
        Query::Scan {
            low,
            high,
            at,
            limit,
        } => {
            let keys = named_keys(alloc, writes, low, high)?;
            let rows = first_rows::<O>(alloc, writes, &keys, *at, *limit)?;
            Ok(Answer::Rows(Rows::known(rows)))
        }
    }
}

/// Answers a query from the plain writes, by folding for each key those that touch it. The keeps are the sequences that
/// snapshots protect, in any order; for any other sequence the answer is `NotProtected`.
///
/// It is the reference for the faster ways: a lookup looks at every write, and a scan at every write for each row.
pub fn answer_writes<O: Operator>(
    alloc: Global,
    writes: &Writes,
    keeps: &[u64],
    query: &Query,
) -> Result<Answer, AllocError>
    ensures { IfOk result (λ answer. answer ≡ answers.answer_of O.meaning writes.now.list keeps.now query.now) }
{
    let at = query.at();
    if is_protected(keeps, at) {
        reading::<O>(alloc, writes.list(), query)
    } else {
        Ok(Answer::NotProtected(at))
    }
}
