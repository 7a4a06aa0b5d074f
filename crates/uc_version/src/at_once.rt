//! Stretches that are compacted at once: one call claims, compacts and installs.
ghost use Rattle.std.specs.Prelude.{◌≡◌, None, true, map, IfOk, IfErr};
ghost use Rattle.std.specs.Arc.{arc_value};
ghost use Rattle.uc_compact.specs.Inputs.{Stand};
ghost use Rattle.uc_version_state.specs.Installs.{IdLeft, MayInstall};
ghost use Rattle.uc_version.specs.Claiming as claiming;
ghost use Rattle.uc_version.specs.Installing.{stretch_of, compaction_of, after_install};
ghost use Rattle.uc_version.specs.AtOnce.{IsNotMade, IsNotCompacted, install_at, after_compaction};

use crate::compact_error::CompactError;
use crate::laws::{claims_are_held, claims_can_be_compacted};
use crate::owned::Owned;
use crate::owned_claim::OwnedClaim;
use std::alloc::Global;
use std::marker::Sync;
use std::sync::Arc;
use std::thread::Threads;
use uc_compact::{By, Compacted, Merger, merge_in_threads};
use uc_oper::Operator;
use uc_run::Run;
use uc_version_state::Stretch;

impl<O: Operator> Owned<O> {
    /// The run that a claim's runs become, if an id is left for it; otherwise nothing is compacted.
    fn compaction<M: Merger<O>>(
        &self,
        merger: &M,
        alloc: Global,
        claim: &OwnedClaim,
    ) -> Result<Compacted<O>, CompactError>
        requires can { M.can_merge merger.now }
        requires held { claiming.is_held self.now claim.now ≡ true }
        ensures ok { IfOk result (λ made.
            IdLeft self.now.version
            × (made ≡ compaction_of self.now.version (stretch_of self.now claim.now))) }
        ensures err { IfErr result (λ error. IsNotMade self.now.version error) }
    {
        if self.version().next_id() == u64::MAX {
            return Err(CompactError::IdsSpent);
        }
        Ok(self.compact_by(merger, alloc, claim)?)
    }

    /// Replaces a claim's runs by what they became, and compares no points: it was made of these runs. Returns its id.
    fn put_in_place(&mut self, claim: OwnedClaim, made: Compacted<O>) -> u64
        requires held { claiming.is_held self.old claim ≡ true }
        requires left { IdLeft self.old.version }
        requires made { made ≡ compaction_of self.old.version (stretch_of self.old claim) }
        ensures id { result ≡ self.old.version.next_id }
        ensures after { self.new ≡ after_install O.meaning self.old claim made }
    {
        self.recall();
        claims_can_be_compacted();
        self.replace_claimed(claim, made)
    }

    /// Gives a claim back after a failure, and returns the error.
    fn give_up(&mut self, claim: OwnedClaim, error: CompactError) -> CompactError
        requires { claiming.is_held self.old claim ≡ true }
        ensures { (result ≡ error) × (self.new ≡ claiming.without_claim self.old claim) }
    {
        self.abandon(claim);
        error
    }

    /// Claims a stretch, compacts it under the current keeps, and installs the result, in one call. Returns the id of
    /// the new run; the claims that are held stay. If the stretch can't be claimed, no id is left or memory runs out,
    /// the store is as it was, and the first of these is returned. Threads do a part of it.
    pub fn compact_now(
        &mut self,
        rt: &(impl Threads + Sync),
        alloc: Global,
        stretch: Stretch,
    ) -> Result<u64, CompactError>
    where
        O: Sync,
        ensures ok { IfOk result (λ id.
            (claiming.claim_refusal self.old stretch ≡ None)
            × MayInstall O.meaning self.old.version (install_at O.meaning self.old.version stretch)
            × (id ≡ self.old.version.next_id)
            × (self.new ≡ after_compaction O.meaning self.old stretch)) }
        ensures err { IfErr result (λ error. IsNotCompacted self.old stretch error × (self.new ≡ self.old)) }
    {
        let merger = By(
            |alloc: Global, inputs: &[Arc<Run>], keeps: &[u64], oldest: bool|
                requires { Stand (map arc_value inputs.now) keeps.now }
            { merge_in_threads::<O>(rt, alloc, inputs, keeps, oldest) },
        );
        self.compact_now_by(&merger, alloc, stretch)
    }

    /// Claims a stretch, compacts it and installs the result as `compact_now` does, by this merger.
    pub fn compact_now_by<M: Merger<O>>(
        &mut self,
        merger: &M,
        alloc: Global,
        stretch: Stretch,
    ) -> Result<u64, CompactError>
        requires can { M.can_merge merger.now }
        ensures ok { IfOk result (λ id.
            (claiming.claim_refusal self.old stretch ≡ None)
            × MayInstall O.meaning self.old.version (install_at O.meaning self.old.version stretch)
            × (id ≡ self.old.version.next_id)
            × (self.new ≡ after_compaction O.meaning self.old stretch)) }
        ensures err { IfErr result (λ error. IsNotCompacted self.old stretch error × (self.new ≡ self.old)) }
    {
        self.recall();
        claims_are_held();
        let claim = match self.claim(stretch) {
            Ok(claim) => claim,
            Err(error) => return Err(CompactError::NotClaimed(error)),
        };
        match self.compaction(merger, alloc, &claim) {
            Ok(made) => Ok(self.put_in_place(claim, made)),
            Err(error) => Err(self.give_up(claim, error)),
        }
    }
}
