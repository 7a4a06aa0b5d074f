//! Writes that are copied from one memtable to another.
ghost use Rattle.std.specs.Prelude.{◌≡◌, ◌≤◌, ◌++◌, OnOk, OnErr, length, take, drop};
ghost use Rattle.uc_batch.specs.Rising.{IsRising, last_of};

use crate::active_memtable::ActiveMemtable;
use std::alloc::AllocError;
use uc_run::Memtable;

/// Prepares copies of the writes of a memtable from one place to below another, which lie after all of the active one.
/// An `Err` leaves some of them waiting.
pub(crate) fn prepare_range(
    active: &mut ActiveMemtable,
    writes: &Memtable,
    first: usize,
    end: usize,
) -> Result<(), AllocError>
    requires ordered { first ≤ end }
    requires within { end ≤ length writes.now }
    requires rising { IsRising (last_of 0 (active.old.shown ++ active.old.waiting)) (drop first (take end writes.now)) }
    ensures ok { OnOk result (active.new ≡
        record active.old { waiting = active.old.waiting ++ drop first (take end writes.now) }) }
    ensures err { OnErr result (active.new.shown ≡ active.old.shown) }
{
    for place in first..end {
        let Some(write) = writes.write(place) else {
            unreachable!();
        };
        active.prepare(&write)?;
    }
    Ok(())
}
