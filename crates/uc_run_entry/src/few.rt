//! [`Few`]: one of many lists of sequences.
ghost use Rattle.std.specs.Prelude.{◌≡◌, ◌<◌, [], length, IfOk};
ghost use Rattle.std.specs.Arc.{arc_value};
ghost use Rattle.std.specs.List.{slice_index_or};

use crate::lists::Lists;
use std::alloc::AllocError;
use std::marker::Model;
use std::sync::Arc;

/// The sequences of one of many fragments, whose lists stand in one vector. A contract sees the list.
#[derive(Drop)]
pub(crate) struct Few {
    lists: Arc<Lists<u64>>,
    number: usize,
}

impl Model for Few {
    ghost use Rattle.std.specs.Prelude.{ℕ, ◌<◌, List, [], length};
    ghost use Rattle.std.specs.Arc.{arc_value};
    ghost use Rattle.std.specs.List.{slice_index_or};

    ghost Value = { List ℕ };

    ghost view = { λ l. slice_index_or (arc_value l.lists) l.number [] };

    ghost invariant = { λ l. l.number < length (arc_value l.lists) };
}

impl Few {
    /// The list with a number.
    pub(crate) fn new(lists: Arc<Lists<u64>>, number: usize) -> Few
        requires { number < length (arc_value lists) }
        ensures { result ≡ slice_index_or (arc_value lists) number [] }
    {
        Few { lists, number }
    }

    /// The sequences.
    pub(crate) fn as_slice(&self) -> &[u64]
        ensures { result.now ≡ self.now }
    {
        self.lists.list(self.number)
    }

    /// The same sequences, which share the vector.
    pub(crate) fn again(&self) -> Result<Few, AllocError>
        ensures { IfOk result (λ again. again ≡ self.now) }
    {
        Ok(Few {
            lists: self.lists.clone()?,
            number: self.number,
        })
    }
}
