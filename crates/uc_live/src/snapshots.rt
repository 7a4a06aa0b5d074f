//! Snapshots that come and go.
ghost use Rattle.std.specs.Prelude.{◌≡◌, [], ◌++◌, ◌∷◌, Contains, IfOk, IfErr, OnOk, OnErr};
ghost use Rattle.uc_version_state.specs.declared.release_error.ReleaseError.TheVariants.{NotKept};
ghost use Rattle.uc_live.specs.Compacting.{HasNoRoom};
ghost use Rattle.uc_live.specs.Snapshots as snapshots;
ghost use Rattle.uc_live.specs.Snapshots.{TakesSnapshot, with_snapshot, without_snapshot};
ghost use Rattle.uc_live.specs.Writing.{Prepares};

use crate::live_store::LiveStore;
use crate::room_error::RoomError;
use std::alloc::{AllocError, Global};
use uc_oper::Operator;
use uc_version::ReleaseError;

/// Takes the first of some sequences that is this one out of them. Returns whether it was there.
fn take_one(seqs: &mut Vec<u64>, seq: u64) -> bool
    ensures found { result ≡ snapshots.is_among seq seqs.old.items }
    ensures rest { seqs.new.items ≡ snapshots.without_one seq seqs.old.items }
{
    match seqs.iter().position(|held| *held == seq) {
        None => false,
        Some(place) => {
            seqs.remove(place);
            true
        }
    }
}

impl<O: Operator> LiveStore<O> {
    /// Takes a snapshot at the version's last sequence. An `Err` changes nothing.
    fn keep_last(&mut self) -> Result<(), AllocError>
        ensures ok { OnOk result (self.new ≡ with_snapshot self.old) }
        ensures err { OnErr result (self.new ≡ self.old) }
    {
        self.snapshots.push(self.owned.version().last())?;
        if let Err(error) = self.owned.keep() {
            self.snapshots.pop();
            return Err(error);
        }
        Ok(())
    }

    /// Takes a snapshot (RocksDB wiki, "Snapshot") at the last sequence number, and returns that number. The memtables are flushed
    /// first, as [`flush`](LiveStore::flush) does. A snapshot that is taken twice must be released twice.
    ///
    /// Fails as a flush does. No snapshot is there then that wasn't before.
    pub fn snapshot(&mut self, alloc: Global) -> Result<u64, RoomError>
        ensures ok { IfOk result (TakesSnapshot O.meaning self.old self.new) }
        ensures err { IfErr result (λ error. HasNoRoom error self.new × Prepares O.meaning self.old self.new []) }
    {
        self.flush(alloc)?;
        self.keep_last()?;
        Ok(self.owned.version().last())
    }

    /// Releases a snapshot that was taken at the sequence number. Fails if there is none.
    pub fn release(&mut self, seq: u64) -> Result<(), ReleaseError>
        ensures ok { OnOk result (Contains self.old.snapshots seq × (self.new ≡ without_snapshot seq self.old)) }
        ensures err { IfErr result (λ error.
            (error ≡ NotKept seq) × ¬ Contains self.old.snapshots seq × (self.new ≡ self.old)) }
    {
        if !take_one(&mut self.snapshots, seq) {
            return Err(ReleaseError::NotKept(seq));
        }
        if !self.snapshots.contains(&seq) {
            self.owned.release(seq)?;
        }
        Ok(())
    }
}
