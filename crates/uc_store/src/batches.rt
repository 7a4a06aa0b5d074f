//! [`feed_batch`]: operations that are fed to a store as one batch.
ghost use Rattle.std.specs.Prelude.{◌≡◌, ◌+◌, ◌≤◌, ◌^◌, None, IfOk, IfErr, length};
ghost use Rattle.uc_batch.specs.Batch as batch;
ghost use Rattle.uc_version_state.specs.Feeds.{memtables_in, feed_refusal};
ghost use Rattle.uc_version.specs.Feeding.{after_feed};
ghost use Rattle.uc_store.specs.Batches.{IsNext, next_writes, IsNotFed};

use crate::feed_batch_error::FeedBatchError;
use std::alloc::{AllocError, Global};
use uc_batch::{Op, Write, Writes, fits_batch};
use uc_oper::Operator;
use uc_version::Owned;

/// Operations as writes, with sequences from `seq` on.
pub(crate) fn numbered(alloc: Global, mut seq: u64, ops: Vec<Op>) -> Result<Vec<Write>, AllocError>
    requires { seq + length ops.items ≤ 2 ^ 56 }
    ensures { IfOk result (λ writes. writes.items ≡ batch.numbered seq ops.items) }
{
    let mut writes = Vec::with_capacity(alloc, ops.len())?;
    for op in ops {
        writes.push(Write { seq, op })?;
        seq += 1;
    }
    Ok(writes)
}

/// Feeds operations as one batch (LevelDB, `WriteBatch`): they get the sequence numbers after the store's last one. Returns the
/// number of new runs, as [`Owned::feed`] does. If they don't fit one batch, if the store rejects them or if allocation fails, the
/// store is unchanged.
///
/// A log has the same batch, if `write_batch` of uc_batch encodes it with the sequence number after the last one.
pub fn feed_batch<O: Operator>(
    alloc: Global,
    store: &mut Owned<O>,
    ops: Vec<Op>,
) -> Result<u64, FeedBatchError>
    ensures ok { IfOk result (λ count. let writes = next_writes store.old.version ops.items in
        IsNext store.old.version ops.items
        × (feed_refusal store.old.version writes ≡ None)
        × (count ≡ length (memtables_in store.old.version writes))
        × (store.new ≡ after_feed writes store.old)) }
    ensures err { IfErr result (λ error. IsNotFed store.old.version ops.items error × (store.new ≡ store.old)) }
{
    store.recall();
    let first = store.version().last() + 1;
    if !fits_batch(first, &ops) {
        return Err(FeedBatchError::DoesNotFit);
    }
    let Some(writes) = Writes::of(numbered(alloc, first, ops)?) else {
        unreachable!();
    };
    match store.feed(alloc, &writes) {
        Ok(count) => Ok(count),
        Err(error) => Err(FeedBatchError::NotFed(error)),
    }
}
