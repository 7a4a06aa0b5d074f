//! [`version_with_memtable`]: the version after a memtable's writes are fed, whose run is made of the memtable itself.
ghost use Rattle.std.specs.Prelude.{◌≡◌, ◌≢◌, ◌<◌, [], IfOk};
ghost use Rattle.uc_run.specs.Size.{memtable_size};
ghost use Rattle.uc_version_state.specs.Feeds.{MayFeed, fed};

use std::alloc::{AllocError, Global};
use uc_run::Memtable;
use uc_version_state::{Version, feeds_and_keeps_give_versions, small_writes_fill_one_memtable};

/// The version after a memtable's writes were fed to it, as a new one that shares the existing runs. The memtable is below the
/// version's limit, so it becomes one run. It costs one copy of each key and value and a sort, and one pass over the runs for their
/// slots.
pub fn version_with_memtable(
    alloc: Global,
    version: &Version,
    memtable: &Memtable,
) -> Result<Version, AllocError>
    requires some { memtable.now ≢ [] }
    requires small { memtable_size memtable.now < version.now.limit }
    requires may { MayFeed version.now memtable.now }
    ensures { IfOk result (λ next. next ≡ fed memtable.now version.now) }
{
    version.recall();
    feeds_and_keeps_give_versions();
    small_writes_fill_one_memtable();
    let mut runs = Vec::new(alloc);
    runs.push(memtable.to_run(alloc)?)?;
    version.with_runs(alloc, runs, memtable.last())
}
