//! [`LiveStore`]: a store with one owner and memtables.
ghost use Rattle.std.specs.Prelude.{◌≡◌, ◌≢◌, [], true, false, IfOk, IfErr, length};
ghost use Rattle.uc_batch.specs.Rising.{IsRising};
ghost use Rattle.uc_version.specs.Owners.{IsOwner};
ghost use Rattle.uc_live.specs.LiveOptions as live_options;
ghost use Rattle.uc_live.specs.Lives as lives;
ghost use Rattle.uc_live.specs.Lives.{created, owner_in};
ghost use Rattle.uc_live.specs.declared.open_error.LiveOpenError.TheVariants.{BadOption, NoRoom};
ghost use Rattle.uc_live.specs.declared.room_error.RoomError.TheVariants.{Memory};

use crate::last_reads::last_sequence;
use crate::live_options::LiveOptions;
use crate::open_error::LiveOpenError;
use crate::store_id::StoreId;
use std::alloc::Global;
use std::marker::Model;
use uc_memtable::FlushableMemtables;
use uc_oper::Operator;
use uc_version::{Owned, Version};
use uc_version_state::{feeds_and_keeps_give_versions, opening_gives_a_version};

/// A store with one owner that keeps new writes in memtables.
pub struct LiveStore<O: Operator> {
    pub(crate) owned: Owned<O>,
    /// The writes in memtables, and the prepared ones.
    pub(crate) active: FlushableMemtables,
    /// The sequence of each snapshot, the oldest first, as often as it was taken.
    pub(crate) snapshots: Vec<u64>,
    /// The number of flush jobs that were taken out. Each has the number that this became with it.
    pub(crate) flushes: u64,
    /// The number of writes that the last flush job has, while it is pending. They are set apart.
    pub(crate) leaving: Option<usize>,
    pub(crate) options: LiveOptions,
}

impl<O: Operator> Model for LiveStore<O> {
    ghost use Rattle.uc_live.specs.Lives.{Live};
    ghost use Rattle.uc_live.specs.HeldLives.{live, IsLive};

    ghost Value = { Live };

    ghost view = { live };

    ghost invariant = { IsLive };
}

// A destructor of its own: where a value is dropped, the proof of a caller has one call, and not one for each field.
impl<O: Operator> Drop for LiveStore<O> {
    fn drop(self) {
        let LiveStore {
            owned: _,
            active: _,
            snapshots: _,
            flushes: _,
            leaving: _,
            options: _,
        } = self;
    }
}

/// A version without writes and without keeps. It doesn't allocate.
fn empty_version(alloc: Global, options: &LiveOptions) -> Version
    requires { live_options.are_good options.now ≡ true }
    ensures { result ≡ (created options.now).version }
{
    opening_gives_a_version();
    feeds_and_keeps_give_versions();
    let first_id = options.store.first_id;
    Version::new(Vec::new(alloc), Vec::new(alloc), 0, first_id, u64::MAX)
}

impl<O: Operator> LiveStore<O> {
    /// A store without writes and snapshots. Fails if an option is out of range, or if allocation fails.
    pub fn create(alloc: Global, options: LiveOptions) -> Result<LiveStore<O>, LiveOpenError>
        ensures store { IfOk result (λ store. store ≡ created options) }
        ensures good { IfOk result (λ _. live_options.are_good options ≡ true) }
        ensures err { IfErr result (λ error.
            error ≢ NoRoom Memory → (error ≡ BadOption) × (live_options.are_good options ≡ false)) }
    {
        if !options.are_good() {
            return Err(LiveOpenError::BadOption);
        }
        let version = empty_version(alloc, &options);
        let owned = Owned::new(alloc, version, options.store)?;
        Ok(LiveStore {
            owned,
            active: FlushableMemtables::new(alloc),
            snapshots: Vec::new(alloc),
            flushes: 0,
            leaving: None,
            options,
        })
    }

    /// The invariant of every live store: its runs and its claims are an owner's, the writes in memtables are newer than the runs,
    /// and its options are valid. Proof step: does nothing when it runs.
    pub fn recall(&self)
        ensures owner { IsOwner (owner_in self.now) }
        ensures rising { IsRising self.now.version.last self.now.gathered }
        ensures good { live_options.are_good self.now.options ≡ true }
    {
        self.owned.recall();
    }

    /// The store's id, as its options say.
    pub fn id(&self) -> StoreId
        ensures { result ≡ self.now.options.id }
    {
        self.options.id
    }

    /// Its runs and snapshots, without the writes in memtables.
    pub fn version(&self) -> &Version
        ensures { result.now ≡ self.now.version }
    {
        self.owned.version()
    }

    /// The last sequence; 0 if nothing was written.
    pub fn last(&self) -> u64
        ensures { result ≡ lives.last self.now }
    {
        last_sequence(self.owned.version(), &self.active)
    }

    /// The number of writes in memtables.
    pub fn gathered(&self) -> usize
        ensures { result ≡ length self.now.gathered }
    {
        self.active.len()
    }
}
