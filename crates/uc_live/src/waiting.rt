//! Writes that are prepared in memtables.
ghost use Rattle.std.specs.Prelude.{◌≡◌, ◌++◌, ◌∷◌, ◌<◌, ◌-◌, ◌^◌, [], OnOk, OnErr};
ghost use Rattle.uc_batch.specs.Rising.{IsRising, last_of};
ghost use Rattle.uc_run.specs.Size.{memtable_size};

use std::alloc::{AllocError, Global};
use uc_batch::BatchWrites;
use uc_bytes::WriteRef;
use uc_memtable::FlushableMemtables;
use uc_run::op_size;

/// Prepares one more write. Fails only if allocation fails, or if all prepared writes together would have 2^64 bytes, which no
/// memory holds. An `Err` changes nothing.
pub(crate) fn prepare_one(
    active: &mut FlushableMemtables,
    write: &WriteRef<'_>,
) -> Result<(), AllocError>
    requires above { last_of 0 (active.old.shown ++ active.old.waiting) < write.now.seq }
    requires below { write.now.seq < 2 ^ 56 }
    ensures ok { OnOk result (active.new ≡ record active.old { waiting = active.old.waiting ++ write.now ∷ [] }) }
    ensures small { OnOk result (memtable_size (active.new.shown ++ active.new.waiting) < 2 ^ 64 - 1) }
    ensures err { OnErr result (active.new ≡ active.old) }
{
    if active.size_of_all() >= u64::MAX - op_size(write.op()) {
        return Err(AllocError);
    }
    active.prepare(write)
}

/// Prepares the writes of a batch. An `Err` gives all up that waits.
pub(crate) fn prepare_all(
    active: &mut FlushableMemtables,
    writes: BatchWrites<'_>,
) -> Result<(), AllocError>
    requires rising { IsRising (last_of 0 (active.old.shown ++ active.old.waiting)) writes }
    requires small { memtable_size (active.old.shown ++ active.old.waiting) < 2 ^ 64 - 1 }
    ensures ok { OnOk result (active.new ≡ record active.old { waiting = active.old.waiting ++ writes.entry }) }
    ensures small { memtable_size (active.new.shown ++ active.new.waiting) < 2 ^ 64 - 1 }
    ensures err { OnErr result (active.new ≡ record active.old { waiting = [] }) }
{
    for write in writes {
        if let Err(error) = prepare_one(active, &write) {
            active.give_up();
            return Err(error);
        }
    }
    Ok(())
}
