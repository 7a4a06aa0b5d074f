//! The turns that feed writes, and that take and release snapshots.
ghost use Rattle.std.specs.Prelude.{◌≡◌, ◌≢◌, Option, List, IfOk, OnErr};
ghost use Rattle.uc_query_read.specs.Answers.{is_protected};
ghost use Rattle.uc_version_state.specs.Feeds as feeds;
ghost use Rattle.uc_version_state.specs.declared.feed_error.FeedError.TheVariants.{Memory};
ghost use Rattle.uc_version.specs.Claiming.{Claim};
ghost use Rattle.uc_query.specs.declared.reply.Reply.TheVariants.{NotFed};
ghost use Rattle.uc_query.specs.Names.{AreHeld, named};
ghost use Rattle.uc_query.specs.Turns.{feed_turn, keep_turn, release_turn, replied};

use crate::reply::Reply;
use std::alloc::{AllocError, Global};
use uc_batch::Writes;
use uc_oper::Operator;
use uc_version::Owned;
use uc_version_state::FeedError;

/// The reply to writes that aren't fed, unless memory ran out.
fn not_fed(error: FeedError) -> Result<Reply, AllocError>
    ensures ok { IfOk result (λ reply. (reply ≡ NotFed error) × (error ≢ Memory)) }
    ensures err { OnErr result (error ≡ Memory) }
{
    match error {
        FeedError::Memory => Err(AllocError),
        refusal => Ok(Reply::NotFed(refusal)),
    }
}

/// Feeds writes. Want of memory changes nothing.
pub(crate) fn feed_writes<O: Operator>(
    alloc: Global,
    owned: &mut Owned<O>,
    writes: &Writes,
) -> Result<Reply, AllocError>
    ensures held { (names : List (Option Claim)) → AreHeld owned.old names → AreHeld owned.new names }
    ensures turn { (names : List (Option Claim)) → IfOk result (λ reply.
        feed_turn (named owned.old names) writes.now.list (feeds.feed_refusal owned.old.version writes.now.list)
        ≡ replied (named owned.new names) reply) }
    ensures unchanged { OnErr result (owned.new ≡ owned.old) }
{
    match owned.feed(alloc, writes) {
        Ok(count) => Ok(Reply::Fed(count)),
        Err(error) => not_fed(error),
    }
}

/// Takes a snapshot at the last sequence. Want of memory changes nothing.
pub(crate) fn keep_last<O: Operator>(owned: &mut Owned<O>) -> Result<Reply, AllocError>
    ensures held { (names : List (Option Claim)) → AreHeld owned.old names → AreHeld owned.new names }
    ensures turn { (names : List (Option Claim)) → IfOk result (λ reply.
        keep_turn (named owned.old names) ≡ replied (named owned.new names) reply) }
    ensures unchanged { OnErr result (owned.new ≡ owned.old) }
{
    let last = owned.keep()?;
    Ok(Reply::Kept(last))
}

/// Releases a snapshot, if the sequence is one.
pub(crate) fn release_keep<O: Operator>(owned: &mut Owned<O>, seq: u64) -> Reply
    ensures held { (names : List (Option Claim)) → AreHeld owned.old names → AreHeld owned.new names }
    ensures turn { (names : List (Option Claim)) →
        release_turn (named owned.old names) seq (is_protected owned.old.version.keeps seq)
        ≡ replied (named owned.new names) result }
{
    match owned.release(seq) {
        Ok(()) => Reply::Released(seq),
        Err(_) => Reply::NotReleased(seq),
    }
}
