//! The claims of an owner, by their numbers.
ghost use Rattle.std.specs.Prelude.{◌≡◌, ◌+◌, ◌<◌, ◌^◌, Some, true, IfSome, map};
ghost use Rattle.std.specs.List.{AllByRecursion};
ghost use Rattle.uc_version.specs.Claiming as claiming;
ghost use Rattle.uc_version.specs.Claiming.{has_ids};
ghost use Rattle.uc_version.specs.Feeding as feeding;
ghost use Rattle.uc_version.specs.Installing as installing;

use crate::held_stretch::HeldStretch;
use crate::owned_claim::OwnedClaim;

/// The least number that no held claim has.
pub(crate) fn free_number(claims: &[Option<HeldStretch>]) -> usize
    ensures { result ≡ claiming.free_number claims.now }
{
    for (number, claim) in claims.iter().enumerate() {
        if claim.is_none() {
            return number;
        }
    }
    claims.len()
}

/// The stretch of the claim that has a number, if one is held.
pub(crate) fn held_by(claims: &[Option<HeldStretch>], number: usize) -> Option<HeldStretch>
    ensures { result ≡ claiming.held_by claims.now number }
{
    match claims.get(number) {
        None => None,
        Some(held) => *held,
    }
}

/// The stretch of a claim that is held.
pub(crate) fn held_stretch(claims: &[Option<HeldStretch>], claim: &OwnedClaim) -> HeldStretch
    requires { has_ids (claiming.held_by claims.now claim.now.number) claim.now ≡ true }
    ensures { claiming.held_by claims.now claim.now.number ≡ Some result }
{
    match held_by(claims, claim.number) {
        None => unreachable!(),
        Some(held) => held,
    }
}

/// A held stretch, after `count` runs that come after the first ones became one.
fn moved_up(held: Option<HeldStretch>, first: usize, count: usize) -> Option<HeldStretch>
    ensures { result ≡ installing.moved_up first count held }
{
    match held {
        None => None,
        Some(stretch) if first < stretch.first => Some(HeldStretch {
            first: stretch.first.saturating_sub(count.saturating_sub(1)),
            ..stretch
        }),
        Some(stretch) => Some(stretch),
    }
}

/// Moves up the stretches that come after `count` runs which became one.
pub(crate) fn move_up(claims: &mut [Option<HeldStretch>], first: usize, count: usize)
    ensures { claims.new ≡ map (installing.moved_up first count) claims.old }
{
    for number in 0..claims.len() {
        claims[number] = moved_up(claims[number], first, count);
    }
}

/// A held stretch, after `count` runs more.
fn moved_down(held: Option<HeldStretch>, count: usize) -> Option<HeldStretch>
    requires { IfSome held (λ stretch. stretch.first + count < 2 ^ 63) }
    ensures { result ≡ feeding.moved_down count held }
{
    match held {
        None => None,
        Some(stretch) => Some(HeldStretch {
            first: stretch.first + count,
            ..stretch
        }),
    }
}

/// Moves all stretches down, after `count` runs more.
pub(crate) fn move_down(claims: &mut [Option<HeldStretch>], count: usize)
    requires { AllByRecursion (λ held. IfSome held (λ stretch. stretch.first + count < 2 ^ 63)) claims.old }
    ensures { claims.new ≡ map (feeding.moved_down count) claims.old }
{
    for number in 0..claims.len() {
        claims[number] = moved_down(claims[number], count);
    }
}
