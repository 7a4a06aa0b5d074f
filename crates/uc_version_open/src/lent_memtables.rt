//! [`LentMemtables`]: full memtables that other threads flush.
ghost use Rattle.std.specs.Prelude.{◌≡◌, [], IfOk};

use crate::full_memtable::FullMemtable;
use std::alloc::{AllocError, Global};
use std::marker::Model;
use std::sync::Arc;

/// Full memtables, the oldest first, that other threads may flush while the store that owns them takes writes.
#[derive(Drop)]
pub(crate) struct LentMemtables {
    memtables: Option<Arc<Vec<FullMemtable>>>,
}

impl Model for LentMemtables {
    ghost use Rattle.std.specs.Prelude.{List, vec_items};
    ghost use Rattle.std.specs.Arc.{arc_value};
    ghost use Rattle.uc_bytes.specs.declared.write.Write.{Write};
    ghost use Rattle.uc_version_open.specs.Lending.{items_in};

    ghost Value = { List (List Write) };

    ghost view = { λ lent. items_in (λ memtables. vec_items (arc_value memtables)) lent.memtables };
}

impl LentMemtables {
    /// None. It doesn't allocate.
    pub(crate) fn none() -> LentMemtables
        ensures { result ≡ [] }
    {
        LentMemtables { memtables: None }
    }

    /// These memtables.
    pub(crate) fn of(
        alloc: Global,
        memtables: Vec<FullMemtable>,
    ) -> Result<LentMemtables, AllocError>
        ensures { IfOk result (λ lent. lent ≡ memtables.items) }
    {
        let memtables = Arc::new(alloc, memtables)?;
        Ok(LentMemtables {
            memtables: Some(memtables),
        })
    }

    /// The same memtables, for another owner.
    pub(crate) fn share(&self) -> Result<LentMemtables, AllocError>
        ensures { IfOk result (λ lent. lent ≡ self.now) }
    {
        let Some(memtables) = &self.memtables else {
            return Ok(LentMemtables::none());
        };
        let memtables = Arc::try_clone(memtables)?;
        Ok(LentMemtables {
            memtables: Some(memtables),
        })
    }

    /// The memtables.
    pub(crate) fn as_slice(&self) -> &[FullMemtable]
        ensures { result.now ≡ self.now }
    {
        match &self.memtables {
            Some(memtables) => memtables.as_slice(),
            None => &[],
        }
    }
}

/// A loan: memtables, and where their runs belong.
#[derive(Drop)]
pub(crate) struct Loan {
    /// The number of older memtables.
    pub(crate) older: usize,
    /// The lent memtables.
    pub(crate) memtables: LentMemtables,
}
