//! The turns that claim under a name and give back.
ghost use Rattle.std.specs.Prelude.{◌≡◌, ◌<◌, Option, List, None, slice_index_or};
ghost use Rattle.uc_version.specs.Claiming.{Claim};
ghost use Rattle.uc_version.specs.declared.held_stretch.TheConstants.{MOST_CLAIMS as MOST};
ghost use Rattle.uc_query.specs.Names.{AreHeld, IsNamedHeld, given_back, named, released};
ghost use Rattle.uc_query.specs.Turns.{claim_turn, abandon_turn, replied};

use crate::reply::Reply;
use uc_oper::Operator;
use uc_version::{MOST_CLAIMS, Owned, OwnedClaim, Stretch, claims_are_held};

/// Claims a stretch under a name that is free. A name that is held is rejected before the stretch is checked.
pub(crate) fn claim_under<O: Operator>(
    claims: &mut [Option<OwnedClaim>],
    owned: &mut Owned<O>,
    name: u8,
    stretch: Stretch,
) -> Reply
    requires name { name < MOST }
    requires held { AreHeld owned.old claims.old }
    ensures held { AreHeld owned.new claims.new }
    ensures turn { claim_turn (named owned.old claims.old) name stretch (slice_index_or claims.old name None)
        ≡ replied (named owned.new claims.new) result }
{
    owned.recall();
    claims_are_held();
    let place = usize::from(name);
    if claims[place].is_some() {
        return Reply::NameHeld(name);
    }
    match owned.claim(stretch) {
        Err(error) => Reply::Refused(error),
        Ok(claim) => {
            claims[place] = Some(claim);
            Reply::Claimed(name)
        }
    }
}

/// Gives back what is claimed under a name.
pub(crate) fn abandon_under<O: Operator>(
    claims: &mut [Option<OwnedClaim>],
    owned: &mut Owned<O>,
    name: u8,
) -> Reply
    requires name { name < MOST }
    requires held { AreHeld owned.old claims.old }
    ensures held { AreHeld owned.new claims.new }
    ensures turn { abandon_turn (named owned.old claims.old) name (slice_index_or claims.old name None)
        ≡ replied (named owned.new claims.new) result }
{
    match claims[usize::from(name)].take() {
        None => Reply::NoClaim(name),
        Some(claim) => {
            owned.abandon(claim);
            Reply::Abandoned(name)
        }
    }
}

/// Gives back the claim that a name stands for, if it stands for one.
fn give_back<O: Operator>(owned: &mut Owned<O>, claim: Option<OwnedClaim>)
    requires { IsNamedHeld owned.old claim }
    ensures { owned.new ≡ given_back owned.old claim }
{
    if let Some(held) = claim {
        owned.abandon(held);
    }
}

/// Gives back all claims under names.
pub(crate) fn give_all_back<O: Operator>(
    claims: [Option<OwnedClaim>; MOST_CLAIMS],
    owned: &mut Owned<O>,
)
    requires { AreHeld owned.old claims }
    ensures { owned.new ≡ released (named owned.old claims) }
{
    for claim in claims {
        give_back(owned, claim);
    }
}
