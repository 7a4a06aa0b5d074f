//! [`Held`]: a claim of a store's runs, under a name.
use crate::out::Halt;
use std::alloc::AllocError;
use uc_compact::Compacted;
use uc_oper::Operator;
use uc_query::Reply;
use uc_version::{Owned, OwnedClaim, Stretch};
use uc_version_state::Placed;

/// A claim under a name: the id of its newest run, the number of its runs, and their compaction, if it was made.
pub(crate) struct Held<O: Operator> {
    pub(crate) name: u8,
    pub(crate) newest: u64,
    pub(crate) count: usize,
    pub(crate) claim: OwnedClaim,
    pub(crate) made: Option<Compacted<O>>,
}

impl<O: Operator> Drop for Held<O> {
    fn drop(self) {
        let Held {
            name: _,
            newest: _,
            count: _,
            claim: _,
            made: _,
        } = self;
    }
}

impl<O: Operator> Held<O> {
    /// Adds the compaction of the claim's runs.
    pub(crate) fn put_made(&mut self, made: Compacted<O>) {
        self.made = Some(made);
    }

    /// Returns the name, the newest run, the number of runs, the claim, and the compaction.
    pub(crate) fn into_parts(self) -> (u8, u64, usize, OwnedClaim, Option<Compacted<O>>) {
        let Held {
            name,
            newest,
            count,
            claim,
            made,
        } = self;
        (name, newest, count, claim, made)
    }
}

/// Returns the index of a name's claim.
pub(crate) fn find<O: Operator>(claims: &[Held<O>], name: u8) -> Option<usize> {
    for (place, held) in claims.iter().enumerate() {
        if held.name == name {
            return Some(place);
        }
    }
    None
}

/// Returns the claim with a name.
pub(crate) fn held_under<O: Operator>(
    claims: &mut Vec<Held<O>>,
    name: u8,
) -> Result<&mut Held<O>, Halt> {
    let place = find(claims, name).unwrap_or(usize::MAX);
    match claims.get_mut(place) {
        Some(held) => Ok(held),
        None => Err(Halt::Refused),
    }
}

/// Removes and returns the claim with a name.
pub(crate) fn taken<O: Operator>(claims: &mut Vec<Held<O>>, name: u8) -> Option<Held<O>> {
    match find(claims, name) {
        Some(place) if place < claims.len() => Some(claims.swap_remove(place)),
        _ => None,
    }
}

/// Appends a claim.
pub(crate) fn hold<O: Operator>(
    claims: &mut Vec<Held<O>>,
    held: Held<O>,
) -> Result<(), AllocError> {
    claims.push(held)?;
    Ok(())
}

/// Returns the id of the run at an index, or 0 if there is none.
fn id_at(runs: &[Placed], place: usize) -> u64 {
    match runs.get(place) {
        Some(placed) => placed.id(),
        None => 0,
    }
}

/// Claims a stretch under a name.
pub(crate) fn claim<O: Operator>(
    store: &mut Owned<O>,
    claims: &mut Vec<Held<O>>,
    name: u8,
    stretch: Stretch,
) -> Result<Reply, Halt> {
    if find(claims, name).is_some() {
        return Ok(Reply::NameHeld(name));
    }
    claims.reserve(1)?;
    let newest = id_at(store.version().runs(), stretch.first);
    match store.claim(stretch) {
        Ok(claim) => {
            let held = Held {
                name,
                newest,
                count: stretch.count,
                claim,
                made: None,
            };
            hold(claims, held)?;
            Ok(Reply::Claimed(name))
        }
        Err(error) => Ok(Reply::Refused(error)),
    }
}

/// Returns a claim to the store, if the store has it.
fn give_back<O: Operator>(store: &mut Owned<O>, claim: OwnedClaim) -> Result<(), Halt> {
    if !store.holds(&claim) {
        return Err(Halt::Refused);
    }
    store.abandon(claim);
    Ok(())
}

/// Returns the claim with a name to the store.
pub(crate) fn abandon<O: Operator>(
    store: &mut Owned<O>,
    claims: &mut Vec<Held<O>>,
    name: u8,
) -> Result<Reply, Halt> {
    match taken(claims, name) {
        Some(held) => {
            let (_, _, _, claim, _) = held.into_parts();
            give_back(store, claim)?;
            Ok(Reply::Abandoned(name))
        }
        None => Ok(Reply::NoClaim(name)),
    }
}
