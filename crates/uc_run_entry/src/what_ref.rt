//! [`WhatRef`]: a point's operation on its key, with a borrowed value or operand.
ghost use Rattle.std.specs.Prelude.{◌≡◌, IfOk};
ghost use Rattle.uc_oper.specs.Composition.{composed};
ghost use Rattle.uc_run_entry.specs.Lookup.{what_effect};
ghost use Rattle.uc_run_entry.specs.Packed as packed;

use crate::entry::What;
use std::alloc::{AllocError, Global};
use uc_bytes::Bytes;
use uc_oper::{Effect, Operator};

/// The change that a point makes to its key: a [`What`] with a borrowed byte string, so it takes no memory.
#[derive(Clone, Copy, Debug, PartialEq, Eq)]
pub enum WhatRef<'a> {
    /// The key has this value.
    Put(&'a [u8]),
    /// The key has no value.
    Delete,
    /// The key's value is combined with this operand (RocksDB wiki, "Merge Operator").
    Merge(&'a [u8]),
}

impl<'a> WhatRef<'a> {
    /// Borrows the value or operand of `what`.
    pub fn of(what: &'a What) -> WhatRef<'a>
        ensures { packed.what_of result ≡ what.now }
    {
        match what {
            What::Put(value) => WhatRef::Put(value.as_slice()),
            What::Delete => WhatRef::Delete,
            What::Merge(operand) => WhatRef::Merge(operand.as_slice()),
        }
    }

    /// A copy that owns its value or operand.
    pub fn to_what(self, alloc: Global) -> Result<What, AllocError>
        ensures { IfOk result (λ what. what ≡ packed.what_of self.entry) }
    {
        Ok(match self {
            WhatRef::Put(value) => What::Put(Bytes::from_slice(alloc, value)?),
            WhatRef::Delete => What::Delete,
            WhatRef::Merge(operand) => What::Merge(Bytes::from_slice(alloc, operand)?),
        })
    }

    /// The effect of an effect and then of this. An operand is appended to the effect's bytes, and only bytes that are
    /// kept are copied. An `Err` loses the effect.
    pub fn after<O: Operator>(self, alloc: Global, before: Effect) -> Result<Effect, AllocError>
        ensures { IfOk result (λ both. both ≡ composed O.meaning before (what_effect (packed.what_of self.entry))) }
    {
        match self {
            WhatRef::Put(value) => Ok(Effect::Set(Some(Bytes::from_slice(alloc, value)?))),
            WhatRef::Delete => Ok(Effect::Set(None)),
            WhatRef::Merge(operand) => before.folded::<O>(alloc, operand),
        }
    }
}
