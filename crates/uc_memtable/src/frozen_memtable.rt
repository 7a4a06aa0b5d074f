//! [`FrozenMemtable`]: a memtable that takes no more writes.
ghost use Rattle.std.specs.Prelude.{◌≡◌, IfOk, IfErr};

use crate::active_memtable::ActiveMemtable;
use std::alloc::{AllocError, AllocFailed, Global};
use std::marker::Model;
use std::sync::Arc;

/// A memtable that takes no more writes, and which threads share. A contract sees it as the writes that it shows. What
/// waits in it is of no account.
#[derive(Drop)]
pub(crate) struct FrozenMemtable {
    memtable: Arc<ActiveMemtable>,
}

impl Model for FrozenMemtable {
    ghost use Rattle.std.specs.Prelude.{List};
    ghost use Rattle.uc_bytes.specs.declared.write.Write.{Write};
    ghost use Rattle.uc_memtable.specs.HeldFrozen.{frozen};

    ghost Value = { List Write };

    ghost view = { frozen };
}

impl FrozenMemtable {
    /// Freezes a memtable. An `Err` hands it back.
    pub(crate) fn new(
        alloc: Global,
        memtable: ActiveMemtable,
    ) -> Result<FrozenMemtable, ActiveMemtable>
        ensures ok { IfOk result (λ frozen. frozen ≡ memtable.shown) }
        ensures err { IfErr result (λ back. back ≡ memtable) }
    {
        match Arc::new(alloc, memtable) {
            Ok(memtable) => Ok(FrozenMemtable { memtable }),
            Err(AllocFailed { value }) => Err(value),
        }
    }

    /// The memtable again, which is shared.
    pub(crate) fn shared(&self) -> Result<FrozenMemtable, AllocError>
        ensures { IfOk result (λ again. again ≡ self.now) }
    {
        Ok(FrozenMemtable {
            memtable: self.memtable.clone()?,
        })
    }

    /// The memtable itself.
    pub(crate) fn memtable(&self) -> &ActiveMemtable
        ensures { result.now.shown ≡ self.now }
    {
        &self.memtable
    }
}
