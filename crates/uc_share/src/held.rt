//! [`Held`]: the right to compact a stretch.
ghost use Rattle.std.specs.Prelude.{◌≡◌, ◌≤◌, ◌↔◌, IfOk, IfErr, IsTrue, fold, length};
ghost use mathlib.Core.List.{IsPrefix};
ghost use Rattle.uc_claims.specs.declared.table.TheConstants.{MOST_SLOTS};
ghost use Rattle.uc_version_state.specs.Versions.{ids_of};
ghost use Rattle.uc_version_state.specs.Refusals.{AreInPlace};
ghost use Rattle.uc_version_state.specs.Histories.{MayFollow, after};
ghost use Rattle.uc_version_compact.specs.Compacting.{compaction_at};
ghost use Rattle.uc_share.specs.Claims.{IsClaim, IsLookRefused, claimed_runs};

use crate::name::Name;
use crate::pin::Pin;
use crate::reader::Reader;
use crate::taken::Taken;
use std::alloc::{AllocError, Global};
use std::marker::{Model, Sync};
use std::thread::Threads;
use uc_claims::HeldSlots;
use uc_compact::Compacted;
use uc_oper::Operator;
use uc_version_compact::{compact_stretch, run_ids};
use uc_version_state::{Placed, Stretch, Version, neighbours_stand_where_their_ids_say};

/// Why no claim is made of slots that are taken.
pub(crate) enum LookError {
    /// Their runs aren't neighbours any more.
    Moved,
    /// Memory ran out.
    Memory,
}

/// The right to compact a stretch of a pinned version: while it lives, nobody else can claim one of its runs. Give it back by
/// [`abandon`](crate::Store::abandon) or [`install`](crate::Store::install): if it is dropped, its slots stay taken for good.
///
/// It is made only of taken slots, by checking the current version. So an owner of one has taken its slots first, has checked then,
/// and still has them.
pub struct Held<O: Operator, N: Name> {
    taken: Taken<O, N>,
}

impl<O: Operator, N: Name> Model for Held<O, N> {
    ghost use Rattle.uc_share.specs.Claims.{Claim};

    ghost Value = { Claim };

    ghost view = { λ h. h.taken };
}

// A destructor of its own: where a value is dropped, the proof of a caller has one call, and not one for each field.
impl<O: Operator, N: Name> Drop for Held<O, N> {
    fn drop(self) {
        let Held { taken: _ } = self;
    }
}

/// Whether runs stand in a version as neighbours in their order, by their ids.
fn are_in_place(version: &Version, runs: &[Placed]) -> bool
    requires { length runs.now ≤ MOST_SLOTS }
    ensures { IsTrue result ↔ AreInPlace version.now (ids_of runs.now) }
{
    version.recall();
    neighbours_stand_where_their_ids_say();
    let ids = run_ids(runs);
    version.place_of(&ids[..runs.len()]).is_some()
}

impl<O: Operator, N: Name> Held<O, N> {
    /// Checks whether the runs whose slots are taken are neighbours in their order in the current version, which the reader has
    /// seen after the call. Fails as [`Reader::pin`] does, and the reader has seen no more then.
    pub(crate) fn look(
        taken: Taken<O, N>,
        reader: &mut Reader<O, N>,
    ) -> Result<Held<O, N>, (Taken<O, N>, LookError)>
        ensures seen { IsPrefix reader.old reader.new }
        ensures legal { MayFollow O.meaning N.base reader.new }
        ensures ok { IfOk result (λ held. held ≡ taken) }
        ensures there { IfOk result (λ _.
            AreInPlace (fold after N.base reader.new) (ids_of (claimed_runs taken))) }
        ensures err { IfErr result (λ refused. refused.0 ≡ taken) }
        ensures refused { IfErr result (λ refused.
            IsLookRefused taken reader.old reader.new (fold after N.base reader.new) refused.1) }
    {
        let Ok(present) = reader.pin() else {
            return Err((taken, LookError::Memory));
        };
        if are_in_place(present.version(), taken.runs()) {
            return Ok(Held { taken });
        }
        Err((taken, LookError::Moved))
    }

    /// The slots, if the right is discarded.
    pub(crate) fn into_taken(self) -> Taken<O, N>
        ensures { result ≡ self }
    {
        let Held { taken } = self;
        taken
    }

    /// The seat with the slots of the claimed runs.
    pub(crate) fn slots(&self) -> &HeldSlots
        ensures { result.now ≡ self.now.seat }
    {
        self.taken.slots()
    }

    /// The stretch is two runs or more, which the pinned version has. It does nothing.
    pub fn recall(&self)
        ensures { IsClaim self.now }
    {
        self.taken.recall();
    }

    /// The version that was pinned.
    pub fn pin(&self) -> &Pin<O, N>
        ensures { result.now ≡ self.now.pin }
    {
        self.taken.pin()
    }

    /// The stretch of it that is claimed.
    pub fn stretch(&self) -> Stretch
        ensures { result ≡ self.now.stretch }
    {
        self.taken.stretch()
    }

    /// The runs that are claimed, as they were pinned.
    pub fn runs(&self) -> &[Placed]
        ensures runs { result.now ≡ claimed_runs self.now }
        ensures two { 2 ≤ length result.now }
        ensures few { length result.now ≤ MOST_SLOTS }
    {
        self.taken.runs()
    }
}

impl<O: Operator + Sync, N: Name> Held<O, N> {
    /// Compacts the claimed runs under the keeps that were pinned, and for the oldest run exactly if the stretch ends with the
    /// oldest that was pinned.
    pub fn compact(
        &self,
        rt: &(impl Threads + Sync),
        alloc: Global,
    ) -> Result<Compacted<O>, AllocError>
        ensures { IfOk result (λ made. made ≡ compaction_at self.now.pin.version self.now.stretch) }
    {
        self.recall();
        compact_stretch::<O>(rt, alloc, self.pin().version(), self.stretch())
    }
}
