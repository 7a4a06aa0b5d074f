//! The turns that put what a claim was compacted to in its place.
ghost use Rattle.std.specs.Prelude.{◌≡◌, ◌≢◌, ◌<◌, Bool, true, false, Option, List, None, Some, IfOk};
ghost use Rattle.std.specs.Prelude.{IfErr, OnErr, slice_index_or};
ghost use Rattle.uc_version.specs.declared.held_stretch.TheConstants.{MOST_CLAIMS as MOST};
ghost use Rattle.uc_version.specs.Owners.{Owner};
ghost use Rattle.uc_version.specs.Claiming as claiming;
ghost use Rattle.uc_version.specs.Claiming.{Claim};
ghost use Rattle.uc_version.specs.Installing.{stretch_of, compaction_of};
ghost use Rattle.uc_query.specs.Names.{AreHeld, named};
ghost use Rattle.uc_query.specs.Turns.{has_id, compacted, replied, install_turn, compact_turn};

use crate::reply::Reply;
use std::alloc::{AllocError, Global};
use std::marker::Sync;
use std::thread::Threads;
use uc_compact::Compacted;
use uc_oper::Operator;
use uc_version::{CompactError, InstallError, Owned, OwnedClaim, Stretch, claims_can_be_compacted};

/// Puts what a claim's stretch was compacted to in its place. Where no id is left it hands the claim back, and nothing is
/// changed.
fn put_in_place<O: Operator>(
    owned: &mut Owned<O>,
    claim: OwnedClaim,
    made: Compacted<O>,
) -> Result<u64, OwnedClaim>
    requires held { claiming.is_held owned.old claim ≡ true }
    requires made { made ≡ compaction_of owned.old.version (stretch_of owned.old claim) }
    ensures ok { IfOk result (λ id.
        (has_id owned.old.version ≡ true) × (id ≡ owned.old.version.next_id)
        × (owned.new ≡ compacted O.meaning owned.old claim)) }
    ensures err { IfErr result (λ back.
        (has_id owned.old.version ≡ false) × (back ≡ claim) × (owned.new ≡ owned.old)) }
{
    owned.recall();
    claims_can_be_compacted();
    match owned.install(claim, made) {
        Ok(id) => Ok(id),
        Err(refused) => Err(refused.0),
    }
}

/// Puts what the stretch of the claim under a name was compacted to in its place, and takes the claim out.
fn put_named_in_place<O: Operator>(
    claims: &mut [Option<OwnedClaim>],
    owned: &mut Owned<O>,
    name: u8,
    made: Compacted<O>,
) -> Reply
    requires name { name < MOST }
    requires held { AreHeld owned.old claims.old }
    requires made { (c : Claim) → slice_index_or claims.old name None ≡ Some c →
        made ≡ compaction_of owned.old.version (stretch_of owned.old c) }
    ensures held { AreHeld owned.new claims.new }
    ensures turn { install_turn O.meaning (named owned.old claims.old) name (slice_index_or claims.old name None)
        ≡ replied (named owned.new claims.new) result }
{
    let place = usize::from(name);
    let Some(claim) = claims[place].take() else {
        return Reply::NoClaim(name);
    };
    match put_in_place(owned, claim, made) {
        Ok(id) => Reply::Installed(id),
        Err(back) => {
            claims[place] = Some(back);
            Reply::NotInstalled(InstallError::IdsSpent)
        }
    }
}

/// Compacts what is claimed under a name, and puts it in place. Want of memory changes nothing.
pub(crate) fn install_under<O: Operator + Sync>(
    rt: &(impl Threads + Sync),
    alloc: Global,
    claims: &mut [Option<OwnedClaim>],
    owned: &mut Owned<O>,
    name: u8,
) -> Result<Reply, AllocError>
    requires name { name < MOST }
    requires held { AreHeld owned.old claims.old }
    ensures held { AreHeld owned.new claims.new }
    ensures turn { IfOk result (λ reply.
        install_turn O.meaning (named owned.old claims.old) name (slice_index_or claims.old name None)
        ≡ replied (named owned.new claims.new) reply) }
    ensures unchanged { OnErr result ((owned.new ≡ owned.old) × (claims.new ≡ claims.old)) }
{
    let Some(claim) = &claims[usize::from(name)] else {
        return Ok(Reply::NoClaim(name));
    };
    let made = owned.compact(rt, alloc, claim)?;
    Ok(put_named_in_place(claims, owned, name, made))
}

/// Compacts a stretch and puts what it becomes in place. Where that fails nothing is changed.
pub(crate) fn compact_at_once<O: Operator + Sync>(
    rt: &(impl Threads + Sync),
    alloc: Global,
    owned: &mut Owned<O>,
    stretch: Stretch,
) -> Result<Reply, AllocError>
    ensures held { (names : List (Option Claim)) → AreHeld owned.old names → AreHeld owned.new names }
    ensures turn { (names : List (Option Claim)) → IfOk result (λ reply.
        compact_turn O.meaning (named owned.old names) stretch (claiming.claim_refusal owned.old stretch)
        ≡ replied (named owned.new names) reply) }
    ensures unchanged { OnErr result (owned.new ≡ owned.old) }
{
    match owned.compact_now(rt, alloc, stretch) {
        Ok(id) => Ok(Reply::Compacted(id)),
        Err(CompactError::NotClaimed(error)) => Ok(Reply::Refused(error)),
        Err(CompactError::IdsSpent) => Ok(Reply::NotInstalled(InstallError::IdsSpent)),
        Err(CompactError::Memory) => Err(AllocError),
    }
}
