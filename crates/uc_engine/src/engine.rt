//! [`Engine`]: a live store whose operator is a value.
ghost use Rattle.std.specs.Prelude.{◌≡◌, length};
ghost use Rattle.uc_batch.specs.Rising.{IsRising};
ghost use Rattle.uc_version.specs.Owners.{IsOwner};
ghost use Rattle.uc_live.specs.Lives as lives;
ghost use Rattle.uc_live.specs.Lives.{owner_in};

use crate::each_operator::{kind_of, with_each};
use crate::operator_kind::{LastBytes, OperatorKind, Texts};
use std::marker::Model;
use uc_live::{LiveStore, StoreId, Version};
use uc_mixed::Mixed;
use uc_oper::{Counter, Maximum};

/// A store of each operator.
#[derive(Drop)]
pub(crate) enum AnyStore {
    /// A store that joins byte strings.
    Append(LiveStore<Texts>),
    /// A store that adds numbers.
    Counter(LiveStore<Counter>),
    /// A store that keeps the greater byte string.
    Maximum(LiveStore<Maximum>),
    /// A store that keeps the last bytes.
    Tail(LiveStore<LastBytes>),
    /// A store whose operands name their operators.
    Mixed(LiveStore<Mixed>),
}

/// A live store whose operator is chosen when it opens. A contract sees which operator it is, and the store.
pub struct Engine {
    pub(crate) store: AnyStore,
}

impl Model for Engine {
    ghost use Rattle.uc_engine.specs.Engines.{Engined};
    ghost use Rattle.uc_engine.specs.HeldEngines.{engined};

    ghost Value = { Engined };

    ghost view = { engined };
}

// A destructor of its own: where a value is dropped, the proof of a caller has one call, and not one for each field.
impl Drop for Engine {
    fn drop(self) {
        let Engine { store: _ } = self;
    }
}

impl Engine {
    /// The invariant of every engine, as `LiveStore::recall` says it. Proof step: does nothing when it runs.
    pub fn recall(&self)
        ensures owner { IsOwner (owner_in self.now.live) }
        ensures rising { IsRising self.now.live.version.last self.now.live.gathered }
    {
        with_each!(AnyStore, &self.store, store => store.recall())
    }

    /// The merge operator.
    pub fn kind(&self) -> OperatorKind
        ensures { result ≡ self.now.kind }
    {
        kind_of!(AnyStore, &self.store)
    }

    /// The store's id, as its options say.
    pub fn id(&self) -> StoreId
        ensures { result ≡ self.now.live.options.id }
    {
        with_each!(AnyStore, &self.store, store => store.id())
    }

    /// Its runs and snapshots.
    pub(crate) fn version(&self) -> &Version
        ensures { result.now ≡ self.now.live.version }
    {
        with_each!(AnyStore, &self.store, store => store.version())
    }

    /// The last sequence; 0 if nothing was written.
    pub fn last(&self) -> u64
        ensures { result ≡ lives.last self.now.live }
    {
        with_each!(AnyStore, &self.store, store => store.last())
    }

    /// The number of writes in memtables.
    pub fn gathered(&self) -> usize
        ensures { result ≡ length self.now.live.gathered }
    {
        with_each!(AnyStore, &self.store, store => store.gathered())
    }

    /// The sequences that snapshots protect, which rise, each once.
    pub fn keeps(&self) -> &[u64]
        ensures { result.now ≡ self.now.live.version.keeps }
    {
        self.version().keeps()
    }
}
