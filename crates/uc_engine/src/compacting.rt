//! Flushes and compactions by the calling thread.
ghost use Rattle.std.specs.Prelude.{◌≡◌, ◌≢◌, [], IfOk, IfErr, OnOk};
ghost use Rattle.uc_live.specs.Compacting.{next_stretch, HasNoRoom, IsCompacted};
ghost use Rattle.uc_live.specs.Going.{GoesOn};
ghost use Rattle.uc_live.specs.Writing.{Prepares};
ghost use Rattle.uc_live.specs.declared.room_error.RoomError.TheVariants.{RunsClaimed};
ghost use Rattle.uc_engine.specs.Engines.{meaning_of};

use crate::each_operator::with_each;
use crate::engine::{AnyStore, Engine};
use std::alloc::Global;
use uc_live::RoomError;

impl Engine {
    /// Flushes the memtables, as `LiveStore::flush` does.
    pub fn flush(&mut self, alloc: Global) -> Result<(), RoomError>
        ensures kind { self.new.kind ≡ self.old.kind }
        ensures prepares { Prepares (meaning_of self.old.kind) self.old.live self.new.live [] }
        ensures all { OnOk result (self.new.live.gathered ≡ []) }
        ensures err { IfErr result (λ error. HasNoRoom error self.new.live) }
    {
        with_each!(AnyStore, &mut self.store, store => store.flush(alloc))
    }

    /// Compacts the stretch of runs that is picked next, if there is one, as `LiveStore::compact_once` does. Returns
    /// whether there was one.
    pub fn compact_once(&mut self, alloc: Global) -> Result<bool, RoomError>
        ensures kind { self.new.kind ≡ self.old.kind }
        ensures ok { IfOk result (λ compacted.
            IsCompacted (meaning_of self.old.kind) (next_stretch self.old.live) compacted self.old.live self.new.live) }
        ensures err { IfErr result (λ error. HasNoRoom error self.old.live × (self.new ≡ self.old)) }
        ensures goes_on { IfOk result (λ _. GoesOn (meaning_of self.old.kind) self.old.live self.new.live []) }
        ensures never { IfErr result (λ error. error ≢ RunsClaimed) }
    {
        with_each!(AnyStore, &mut self.store, store => store.compact_once(alloc))
    }

    /// Flushes if memtables hold more than this many writes and no batch is prepared, as `LiveStore::settle` does.
    pub fn settle(&mut self, alloc: Global, most: usize)
        ensures kind { self.new.kind ≡ self.old.kind }
        ensures prepares { Prepares (meaning_of self.old.kind) self.old.live self.new.live self.old.live.prepared }
    {
        with_each!(AnyStore, &mut self.store, store => store.settle(alloc, most))
    }
}
