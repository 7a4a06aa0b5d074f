//! From the bytes of a batch to its writes.
ghost use Rattle.std.specs.Prelude.{◌≡◌, ◌++◌, List, IfOk, OnOk, Ok};
ghost use Rattle.uc_batch.specs.Reads.{Gives};
ghost use Rattle.uc_batch.specs.Batch.{batch_of};
ghost use Rattle.uc_batch.specs.Grammar.{Accepts};
ghost use Rattle.uc_bytes.specs.declared.write.Write.{Write as WriteOf};

use crate::batch_writes::BatchWrites;
use crate::error::BatchError;
use std::alloc::{AllocError, Global};
use uc_bytes::Write;

/// Adds copies of writes, with their keys and values.
pub(crate) fn push_copies(
    alloc: Global,
    list: &mut Vec<Write>,
    writes: BatchWrites<'_>,
) -> Result<(), AllocError>
    ensures { OnOk result (list.new.items ≡ list.old.items ++ writes.entry) }
{
    for write in writes {
        list.push(write.to_write(alloc)?)?;
    }
    Ok(())
}

/// Reads a batch, and copies its writes.
fn copy_batch(alloc: Global, bytes: &[u8], last: u64) -> Result<Vec<Write>, BatchError>
    ensures { Gives (λ writes. writes.items) result (batch_of last bytes.now) }
{
    let writes = BatchWrites::read(bytes, last)?;
    let mut list = Vec::new(alloc);
    push_copies(alloc, &mut list, writes)?;
    Ok(list)
}

/// Reads a batch that comes after the sequence number `last` (0 if none was used before), and returns its writes with their
/// sequence numbers.
///
/// Every encoding of a number is accepted (RocksDB, `write_batch.cc`). See [`BatchError`] for the errors and their order.
pub fn read_batch(alloc: Global, bytes: &[u8], last: u64) -> Result<Vec<Write>, BatchError>
    // An accepted batch is a batch of these writes.
    ensures sound { IfOk result (λ writes. Accepts last bytes.now writes.items) }

    // A batch of these writes is accepted, unless memory runs out.
    ensures complete { (writes : List WriteOf) → Accepts last bytes.now writes →
        Gives (λ read. read.items) result (Ok writes) }

    // The fault that is returned.
    ensures exact { Gives (λ writes. writes.items) result (batch_of last bytes.now) }
{
    copy_batch(alloc, bytes, last)
}
