//! [`fed_version`]: the version after writes that are fed, whose memtables are flushed.
ghost use Rattle.std.specs.Prelude.{◌≡◌, ◌≤◌, IfOk, map};
ghost use Rattle.uc_batch.specs.Rising as rising;
ghost use Rattle.uc_batch.specs.Rising.{IsRising};
ghost use Rattle.uc_run.specs.Flush.{flushed};
ghost use Rattle.uc_version_state.specs.Flushes.{memtables as memtables_of};
ghost use Rattle.uc_version_state.specs.Feeds.{MayFeed, fed, memtables_in};

use crate::memtables::Memtables;
use crate::workers::Workers;
use std::alloc::{AllocError, Global};
use uc_bytes::{Write, WriteRef};
use uc_run::Run;
use uc_version_state::{Version, feeds_and_keeps_give_versions};

/// The last sequence of writes, or `last` if there is none.
fn last_of(last: u64, writes: &[Write]) -> u64
    ensures { result ≡ rising.last_of last writes.now }
{
    match writes.last() {
        None => last,
        Some(write) => write.seq,
    }
}

/// The runs of the memtables that writes fill, the oldest first. A memtable is flushed once it has `limit` bytes, and so is the
/// last one, at the end. It costs two copies of each key and value, and a sort of each memtable.
pub fn flush_writes<W: Workers>(
    workers: &W,
    alloc: Global,
    limit: u64,
    writes: &[Write],
) -> Result<Vec<Run>, AllocError>
    requires can { W.can_work }
    requires limit { 1 ≤ limit }
    requires rising { IsRising 0 writes.now }
    ensures { IfOk result (λ runs. runs.items ≡ map flushed (memtables_of limit writes.now)) }
{
    let mut memtables = Memtables::new(alloc);
    for write in writes {
        memtables.insert(workers, alloc, limit, &WriteRef::of(write))?;
    }
    memtables.into_runs(workers, alloc)
}

/// The version after these flushed memtables were fed to it, the oldest first: a new one that shares the existing runs. It costs
/// one pass over the runs for their slots, and reads no key or value.
pub fn version_with_flushed(
    alloc: Global,
    version: &Version,
    writes: &[Write],
    runs: Vec<Run>,
) -> Result<Version, AllocError>
    requires may { MayFeed version.now writes.now }
    requires runs { runs.items ≡ map flushed (memtables_in version.now writes.now) }
    ensures { IfOk result (λ next. next ≡ fed writes.now version.now) }
{
    version.recall();
    feeds_and_keeps_give_versions();
    version.with_runs(alloc, runs, last_of(version.last(), writes))
}

/// The version after writes were fed to it, as a new one that shares the existing runs. It costs a copy of each key and value and a
/// sort of each memtable that the writes fill, and one pass over the runs for their slots. Threads flush full memtables
/// concurrently, up to four of which it holds at a time.
pub fn fed_version<W: Workers>(
    workers: &W,
    alloc: Global,
    version: &Version,
    writes: &[Write],
) -> Result<Version, AllocError>
    requires can { W.can_work }
    requires may { MayFeed version.now writes.now }
    ensures { IfOk result (λ next. next ≡ fed writes.now version.now) }
{
    version.recall();
    let runs = flush_writes(workers, alloc, version.limit(), writes)?;
    version_with_flushed(alloc, version, writes, runs)
}
