//! [`Owned`]: a store with one owner.
ghost use Rattle.std.specs.Prelude.{◌≡◌, ◌<◌, Some, None, true, IfOk, IfErr, IfSome, IfNone};
ghost use Rattle.uc_claims.specs.declared.table.TheConstants.{MOST_SLOTS};
ghost use Rattle.uc_version_state.specs.Picks.{picked};
ghost use Rattle.uc_version_state.specs.Options.{are_good};
ghost use Rattle.uc_version_state.specs.Versions.{contents_of};
ghost use Rattle.uc_version.specs.Owners.{IsOwner, is_busy, unclaimed};
ghost use Rattle.uc_version_compact.specs.Picking.{candidates_of};
ghost use Rattle.uc_version.specs.Claiming as claiming;
ghost use Rattle.uc_version.specs.Installing as installing;

use crate::claims::{free_number, held_by, held_stretch, move_up};
use crate::held_stretch::{HeldStretch, MOST_CLAIMS};
use crate::owned_claim::OwnedClaim;
use crate::runs::{held_runs, last_id, newest_id};
use crate::slots::{busy_slots, claim_slots, give_slots};
use std::alloc::{AllocError, Global};
use std::marker::{Model, PhantomData, Sync};
use std::thread::Threads;
use uc_claims::{ClaimTable, HeldSlots, MOST_SLOTS};
use uc_compact::{Compacted, Merger};
use uc_oper::Operator;
use uc_version_compact::{
    ClaimError, InstallError, compact_stretch, compact_stretch_by, install_refusal, own_refusal,
    pick, runs_of,
};
use uc_version_state::{Options, Stretch, Version, install_gives_a_version};

/// A store with one owner: a version, and the claims of stretches of its runs.
pub struct Owned<O: Operator> {
    pub(crate) version: Version,
    options: Options,
    table: ClaimTable,
    held: HeldSlots,
    pub(crate) claims: [Option<HeldStretch>; MOST_CLAIMS],
    operator: PhantomData<O>,
}

impl<O: Operator> Model for Owned<O> {
    ghost use Rattle.uc_version.specs.Owners.{Owner};
    ghost use Rattle.uc_version.specs.HeldOwners.{owner, IsOwned};

    ghost Value = { Owner };

    ghost view = { owner };

    ghost invariant = { IsOwned };
}

// A destructor of its own: where a value is dropped, the proof of a caller has one call, and not one for each field.
impl<O: Operator> Drop for Owned<O> {
    fn drop(self) {
        let Owned {
            version: _,
            options: _,
            table: _,
            held: _,
            claims: _,
            operator: _,
        } = self;
    }
}

impl<O: Operator> Owned<O> {
    /// A store with this version and no claims.
    pub fn new(alloc: Global, version: Version, options: Options) -> Result<Owned<O>, AllocError>
        requires { are_good options ≡ true }
        ensures { IfOk result (λ owned. owned ≡ unclaimed version options) }
    {
        version.recall();
        let (table, seat) = ClaimTable::new(alloc, MOST_SLOTS)?;
        let Ok(held) = table.take(seat, &[]) else {
            unreachable!();
        };
        Ok(Owned {
            version,
            options,
            table,
            held,
            claims: [None; MOST_CLAIMS],
            operator: PhantomData,
        })
    }

    /// The invariant of every owner. Proof step: does nothing when it runs.
    pub fn recall(&self)
        ensures { IsOwner self.now }
    {
        let _ = &self.version;
    }

    /// The version now: runs, snapshots and last sequence.
    pub fn version(&self) -> &Version
        ensures { result.now ≡ self.now.version }
    {
        &self.version
    }

    /// Whether the run with a slot is claimed.
    pub fn busy(&self, slot: usize) -> bool
        requires { slot < MOST_SLOTS }
        ensures { result ≡ is_busy self.now slot }
    {
        self.held.has(slot)
    }

    /// The stretch of unclaimed runs that is compacted next (RocksDB wiki, "Universal Compaction"). It doesn't allocate.
    pub fn pick(&self) -> Option<Stretch>
        ensures { result ≡ picked self.now.options (candidates_of self.now.version (is_busy self.now)) }
    {
        pick(&self.version, &self.options, &busy_slots(&self.held))
    }

    /// Whether this store holds the claim: one with its number and its ids.
    pub fn holds(&self, claim: &OwnedClaim) -> bool
        ensures { result ≡ claiming.is_held self.now claim.now }
    {
        match held_by(&self.claims, claim.number) {
            None => false,
            Some(held) => held.newest == claim.newest && held.oldest == claim.oldest,
        }
    }

    /// Claims a stretch, so that it may be compacted. Fails if the stretch isn't all there, has fewer than two runs, or has claimed
    /// runs, the newest of which is named. The store is unchanged then. It doesn't allocate.
    pub fn claim(&mut self, stretch: Stretch) -> Result<OwnedClaim, ClaimError>
        ensures ok { IfOk result (λ claim.
            (claiming.claim_refusal self.old stretch ≡ None)
            × (claim ≡ claiming.claim_of self.old stretch)
            × (self.new ≡ claiming.with_claim self.old claim stretch)) }
        ensures err { IfErr result (λ error.
            (claiming.claim_refusal self.old stretch ≡ Some error) × (self.new ≡ self.old)) }
    {
        let runs = match runs_of(self.version.runs(), stretch) {
            Ok(runs) => runs,
            Err(error) => return Err(error),
        };
        let newest = newest_id(runs);
        let oldest = last_id(runs);
        if let Err(error) = claim_slots(&self.table, &mut self.held, runs) {
            return Err(error);
        }
        let number = free_number(&self.claims);
        self.claims[number] = Some(HeldStretch {
            first: stretch.first,
            count: stretch.count,
            newest,
            oldest,
        });
        Ok(OwnedClaim {
            number,
            newest,
            oldest,
        })
    }

    /// Gives a claim back without a change. It doesn't allocate.
    pub fn abandon(&mut self, claim: OwnedClaim)
        requires { claiming.is_held self.old claim ≡ true }
        ensures { self.new ≡ claiming.without_claim self.old claim }
    {
        let held = held_stretch(&self.claims, &claim);
        give_slots(&self.table, &mut self.held, held_runs(&self.version, &held));
        self.claims[claim.number] = None;
    }

    /// Compacts the runs of a claim under the current keeps, and with the oldest run exactly if it is the last of them.
    /// Threads do a part of it.
    pub fn compact(
        &self,
        rt: &(impl Threads + Sync),
        alloc: Global,
        claim: &OwnedClaim,
    ) -> Result<Compacted<O>, AllocError>
    where
        O: Sync,
        requires { claiming.is_held self.now claim.now ≡ true }
        ensures { IfOk result (λ made.
            made ≡
            installing.compaction_of self.now.version
            (installing.stretch_of self.now claim.now)) }
    {
        let held = held_stretch(&self.claims, claim);
        compact_stretch::<O>(rt, alloc, &self.version, held.place())
    }

    /// Compacts the runs of a claim as `compact` does, by this merger.
    pub fn compact_by<M: Merger<O>>(
        &self,
        merger: &M,
        alloc: Global,
        claim: &OwnedClaim,
    ) -> Result<Compacted<O>, AllocError>
        requires can { M.can_merge merger.now }
        requires held { claiming.is_held self.now claim.now ≡ true }
        ensures { IfOk result (λ made.
            made ≡
            installing.compaction_of self.now.version
            (installing.stretch_of self.now claim.now)) }
    {
        let held = held_stretch(&self.claims, claim);
        compact_stretch_by::<O, M>(merger, alloc, &self.version, held.place())
    }

    /// Why `made`, which was made of the claim's runs, may not replace them, if it may not. It compares no points.
    pub(crate) fn own_refusal_of(
        &self,
        claim: &OwnedClaim,
        made: &Compacted<O>,
    ) -> Option<InstallError>
        requires held { claiming.is_held self.now claim.now ≡ true }
        requires own { made.now.inputs ≡ contents_of (installing.claimed_runs self.now claim.now) }
        ensures none { IfNone result
            (installing.MayReplace self.now.version (installing.stretch_of self.now claim.now) made.now) }
        ensures some { IfSome result
            (installing.IsRefused self.now.version (installing.stretch_of self.now claim.now) made.now) }
    {
        let held = held_stretch(&self.claims, claim);
        own_refusal(held_runs(&self.version, &held), &self.version, made)
    }

    /// Why `made` may not replace the claim's runs, if it may not. It goes over the points of these runs.
    fn refusal_of(&self, claim: &OwnedClaim, made: &Compacted<O>) -> Option<InstallError>
        requires { claiming.is_held self.now claim.now ≡ true }
        ensures none { IfNone result
            (installing.MayReplace self.now.version (installing.stretch_of self.now claim.now) made.now) }
        ensures some { IfSome result
            (installing.IsRefused self.now.version (installing.stretch_of self.now claim.now) made.now) }
    {
        let held = held_stretch(&self.claims, claim);
        install_refusal(held_runs(&self.version, &held), &self.version, made)
    }

    /// Replaces the claim's runs by `made`, which may replace them, and gives the claim back. Returns the id of the new
    /// run. It compares no points, copies no run and doesn't allocate.
    pub(crate) fn replace_claimed(&mut self, claim: OwnedClaim, made: Compacted<O>) -> u64
        requires held { claiming.is_held self.old claim ≡ true }
        requires may { installing.MayReplace self.old.version (installing.stretch_of self.old claim) made }
        ensures id { result ≡ self.old.version.next_id }
        ensures after { self.new ≡ installing.after_install O.meaning self.old claim made }
    {
        made.recall_standing();
        install_gives_a_version::<O>();
        let held = held_stretch(&self.claims, &claim);
        give_slots(&self.table, &mut self.held, held_runs(&self.version, &held));
        self.claims[claim.number] = None;
        move_up(&mut self.claims, held.first, held.count);
        let id = self.version.next_id();
        self.version
            .replace(held.first, held.count, made.into_output());
        id
    }

    /// Replaces the claim's runs by their compaction, and gives the claim back. Returns the id of the new run. It copies no run and
    /// doesn't allocate. Before any change it reads the points of the claim's runs, which takes up to four tenths of the time of
    /// their compaction. On failure it returns both, and the store is unchanged.
    ///
    /// The run that `compact` made for this claim fails only if run IDs are exhausted, whatever was fed, kept, released or
    /// installed since.
    pub fn install(
        &mut self,
        claim: OwnedClaim,
        made: Compacted<O>,
    ) -> Result<u64, (OwnedClaim, Compacted<O>, InstallError)>
        requires { claiming.is_held self.old claim ≡ true }
        ensures ok { IfOk result (λ id.
            installing.MayReplace self.old.version (installing.stretch_of self.old claim) made
            × (id ≡ self.old.version.next_id)
            × (self.new ≡ installing.after_install O.meaning self.old claim made)) }
        ensures err { IfErr result (λ refused.
            (refused.0 ≡ claim) × (refused.1 ≡ made)
            × installing.IsRefused self.old.version (installing.stretch_of self.old claim) made
            refused.2
            × (self.new ≡ self.old)) }
    {
        if let Some(error) = self.refusal_of(&claim, &made) {
            return Err((claim, made, error));
        }
        Ok(self.replace_claimed(claim, made))
    }
}
