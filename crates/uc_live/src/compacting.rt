//! Compactions by the calling thread.
ghost use Rattle.std.specs.Prelude.{◌≡◌, ◌≢◌, ◌<◌, [], None, true, IfOk, IfErr, OnOk, length};
ghost use Rattle.uc_claims.specs.declared.table.TheConstants.{MOST_SLOTS};
ghost use Rattle.uc_live.specs.Compacting.{next_stretch, HasNoRoom, IsCompacted};
ghost use Rattle.uc_live.specs.Going.{GoesOn};
ghost use Rattle.uc_live.specs.declared.room_error.RoomError.TheVariants.{RunsClaimed};

use crate::live_store::LiveStore;
use crate::room_error::RoomError;
use std::alloc::Global;
use uc_oper::Operator;
use uc_version::{
    Alone, CompactError, MOST_SLOTS, claimable_stretches_can_be_compacted, picks_can_be_claimed,
};
use uc_version_state::something_is_picked_above_the_trigger;

impl<O: Operator> LiveStore<O> {
    /// Compacts the stretch of runs that is picked next, if there is one (RocksDB wiki, "Universal Compaction"), and installs the
    /// result. Returns whether there was one: call it until it returns `false`. The calling thread does all the work. Fails if run
    /// IDs are exhausted, or if allocation fails, and then leaves the store unchanged.
    pub fn compact_once(&mut self, alloc: Global) -> Result<bool, RoomError>
        ensures ok { IfOk result (λ compacted.
            IsCompacted O.meaning (next_stretch self.old) compacted self.old self.new) }
        ensures fewer { IfOk result (λ compacted.
            compacted ≡ true → length self.new.version.runs < length self.old.version.runs) }
        ensures goes_on { IfOk result (λ compacted. GoesOn O.meaning self.old self.new []) }
        ensures err { IfErr result (λ error. HasNoRoom error self.old × (self.new ≡ self.old)) }
        ensures never { IfErr result (λ error. error ≢ RunsClaimed) }
    {
        self.owned.recall();
        picks_can_be_claimed();
        claimable_stretches_can_be_compacted::<O>();
        let Some(stretch) = self.owned.pick() else {
            return Ok(false);
        };
        match self.owned.compact_now_by(&Alone, alloc, stretch) {
            Ok(_) => Ok(true),
            Err(CompactError::IdsSpent) => Err(RoomError::IdsSpent),
            Err(CompactError::Memory) => Err(RoomError::Memory),
            Err(CompactError::NotClaimed(_)) => unreachable!(),
        }
    }

    /// Compacts while something is picked. Want of memory or of ids ends it early: what isn't compacted now is picked
    /// later.
    pub(crate) fn compact_while_picked(&mut self, alloc: Global)
        ensures goes_on { GoesOn O.meaning self.old self.new [] }
        ensures gathered { self.new.gathered ≡ self.old.gathered }
        ensures prepared { self.new.prepared ≡ self.old.prepared }
    {
        while let Ok(true) = self.compact_once(alloc) {}
    }

    /// Whether a slot is free, where nothing is picked. If none is, runs are claimed.
    fn find_slot(&self) -> Result<(), RoomError>
        requires { next_stretch self.now ≡ None }
        ensures free { OnOk result (length self.now.version.runs < MOST_SLOTS) }
        ensures err { IfErr result (λ error. HasNoRoom error self.now) }
    {
        something_is_picked_above_the_trigger();
        if self.owned.version().runs().len() >= MOST_SLOTS {
            return Err(RoomError::RunsClaimed);
        }
        Ok(())
    }

    /// Compacts until there are fewer runs than those from which on writes stop, or none is picked. Then a slot is
    /// free, unless jobs have the runs that would be compacted.
    pub(crate) fn make_slot(&mut self, alloc: Global) -> Result<(), RoomError>
        ensures goes_on { GoesOn O.meaning self.old self.new [] }
        ensures gathered { self.new.gathered ≡ self.old.gathered }
        ensures prepared { self.new.prepared ≡ self.old.prepared }
        ensures free { OnOk result (length self.new.version.runs < MOST_SLOTS) }
        ensures err { IfErr result (λ error. HasNoRoom error self.new) }
    {
        while self.version().runs().len() >= self.options.stop_trigger as usize {
            if !self.compact_once(alloc)? {
                return self.find_slot();
            }
        }
        Ok(())
    }
}
