//! Snapshots that come and go.
ghost use Rattle.std.specs.Prelude.{◌≡◌, [], Contains, IfOk, IfErr, OnOk};
ghost use Rattle.uc_version_state.specs.declared.release_error.ReleaseError.TheVariants.{NotKept};
ghost use Rattle.uc_live.specs.Compacting.{HasNoRoom};
ghost use Rattle.uc_live.specs.Snapshots.{TakesSnapshot, without_snapshot};
ghost use Rattle.uc_live.specs.Writing.{Prepares};
ghost use Rattle.uc_engine.specs.Engines.{meaning_of, with_live};

use crate::each_operator::with_each;
use crate::engine::{AnyStore, Engine};
use std::alloc::Global;
use uc_live::{ReleaseError, RoomError};

impl Engine {
    /// Takes a snapshot at the last sequence, and returns that, as `LiveStore::snapshot` does.
    pub fn snapshot(&mut self, alloc: Global) -> Result<u64, RoomError>
        ensures kind { self.new.kind ≡ self.old.kind }
        ensures ok { IfOk result (TakesSnapshot (meaning_of self.old.kind) self.old.live self.new.live) }
        ensures err { IfErr result (λ error. HasNoRoom error self.new.live
            × Prepares (meaning_of self.old.kind) self.old.live self.new.live []) }
    {
        with_each!(AnyStore, &mut self.store, store => store.snapshot(alloc))
    }

    /// Releases a snapshot that was taken at the sequence number. Fails if there is none.
    pub fn release(&mut self, seq: u64) -> Result<(), ReleaseError>
        ensures ok { OnOk result
            (Contains self.old.live.snapshots seq × (self.new ≡ with_live (without_snapshot seq self.old.live) self.old)) }
        ensures err { IfErr result (λ error.
            (error ≡ NotKept seq) × ¬ Contains self.old.live.snapshots seq × (self.new ≡ self.old)) }
    {
        with_each!(AnyStore, &mut self.store, store => store.release(seq))
    }
}
