//! [`FullMemtable`]: a memtable that waits to be flushed.
ghost use Rattle.std.specs.Prelude.{◌≡◌, ◌≢◌, [], IfOk};
ghost use Rattle.uc_run.specs.Flush.{flushed};

use std::alloc::{AllocError, Global};
use std::marker::Model;
use uc_run::{Memtable, Run};

/// A memtable that takes no more writes and waits to be flushed. It isn't empty.
#[derive(Drop)]
pub struct FullMemtable {
    memtable: Memtable,
}

impl Model for FullMemtable {
    ghost use Rattle.std.specs.Prelude.{◌≢◌, [], List};
    ghost use Rattle.uc_bytes.specs.declared.write.Write.{Write};

    ghost Value = { List Write };

    ghost view = { λ full. full.memtable };

    ghost invariant = { λ full. full.memtable ≢ [] };
}

impl FullMemtable {
    /// A memtable, which waits from now on.
    pub(crate) fn new(memtable: Memtable) -> FullMemtable
        requires { memtable ≢ [] }
        ensures { result ≡ memtable }
    {
        FullMemtable { memtable }
    }

    /// The memtable, which takes writes again.
    pub(crate) fn into_memtable(self) -> Memtable
        ensures { result ≡ self }
    {
        self.memtable
    }

    /// The run of its writes.
    pub(crate) fn to_run(&self, alloc: Global) -> Result<Run, AllocError>
        ensures { IfOk result (λ run. run ≡ flushed self.now) }
    {
        self.memtable.to_run(alloc)
    }
}
