//! [`feed_shared_batch`]: operations that are fed as one batch to a store that threads share.
ghost use Rattle.std.specs.Prelude.{◌≡◌, ◌<◌, ◌^◌, IfOk, IfErr, fold};
ghost use mathlib.Core.List.{IsPrefix};
ghost use Rattle.uc_version_state.specs.Histories.{MayFollow, after};
ghost use Rattle.uc_store.specs.SharedBatches.{FeedsNext, IsNotFedNext};

use crate::batches::numbered;
use crate::feed_batch_error::FeedBatchError;
use std::alloc::{AllocError, Global};
use std::sync::Wait;
use uc_batch::{Op, Writes, fits_batch};
use uc_oper::Operator;
use uc_share::{Name, Reader, Store};

/// The last sequence of what is shown now.
fn last_shown<O: Operator, N: Name>(reader: &mut Reader<O, N>) -> Result<u64, AllocError>
    ensures seen { IsPrefix reader.old reader.new }
    ensures legal { MayFollow O.meaning N.base reader.new }
    ensures last { IfOk result (λ last. last ≡ (fold after N.base reader.new).last) }
    ensures small { IfOk result (λ last. last < 2 ^ 56) }
{
    let pin = reader.pin()?;
    pin.version().recall();
    Ok(pin.version().last())
}

/// Feeds operations as one batch (LevelDB, `WriteBatch`): they get the sequence numbers after the store's last one. Returns the
/// number of new runs, as [`Store::feed`] does. If they don't fit one batch, if the store rejects them or if allocation fails,
/// nothing is fed. If another thread feeds after the last sequence number was read and before this feed, the store returns
/// [`FeedError::Back`](crate::FeedError::Back), and the caller may try again. It waits as [`Store::feed`] does.
pub fn feed_shared_batch<O: Operator, N: Name, W: Wait + Drop>(
    rt: &impl Wait,
    alloc: Global,
    store: &Store<O, N, W>,
    ops: Vec<Op>,
    reader: &mut Reader<O, N>,
) -> Result<u64, FeedBatchError>
    ensures seen { IsPrefix reader.old reader.new }
    ensures legal { MayFollow O.meaning N.base reader.new }
    ensures fed { IfOk result (FeedsNext N.base ops.items reader.old reader.new) }
    ensures err { IfErr result (IsNotFedNext N.base ops.items reader.old reader.new) }
{
    let first = last_shown(reader)? + 1;
    if !fits_batch(first, &ops) {
        return Err(FeedBatchError::DoesNotFit);
    }
    let Some(writes) = Writes::of(numbered(alloc, first, ops)?) else {
        unreachable!();
    };
    match store.feed(rt, alloc, &writes, reader) {
        Ok(count) => Ok(count),
        Err(error) => Err(FeedBatchError::NotFed(error)),
    }
}
