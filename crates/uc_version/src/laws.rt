//! Laws about owners.
ghost use Rattle.std.specs.Prelude.{◌≡◌, ◌≢◌, ℕ, List, Some, None, true, fold};
ghost use Rattle.uc_bytes.specs.declared.write.Write.{Write};
ghost use Rattle.uc_version_state.specs.declared.stretch.Stretch.{Stretch};
ghost use Rattle.uc_version_state.specs.Picks.{picked};
ghost use Rattle.uc_compact.specs.Inputs.{Compaction, Stand};
ghost use Rattle.uc_version_state.specs.Versions.{ids_of};
ghost use Rattle.uc_version_state.specs.Installs.{MayInstall, installed, newest_id};
ghost use Rattle.uc_version_state.specs.Feeds.{MayFeed};
ghost use Rattle.uc_version_state.specs.declared.event.Event.{Event};
ghost use Rattle.uc_version_state.specs.Histories.{MayFollow, after};
ghost use Rattle.uc_version.specs.Owners.{Owner, IsOwner, is_busy, last_id};
ghost use Rattle.uc_version_compact.specs.Picking.{candidates_of};
ghost use Rattle.uc_version.specs.Claiming.{Claim, is_held, claim_refusal, claim_of, with_claim, without_claim};
ghost use Rattle.uc_version.specs.Installing.{stretch_of, claimed_runs, compaction_of, IdLeft, MayReplace};
ghost use Rattle.uc_version.specs.Installing.{IsRefused, after_install, install_of};
ghost use Rattle.uc_version.specs.AtOnce.{install_at, after_compaction};
ghost use Rattle.uc_version.specs.Feeding.{after_feed, after_keep, after_release};
ghost use Rattle.uc_version.specs.Jobs.{IsOwn, task_of};
ghost use Rattle.uc_version_compact.specs.declared.install_error.InstallError.{InstallError};
ghost use Rattle.uc_version_compact.specs.declared.install_error.InstallError.TheVariants.{IdsSpent};

use uc_oper::Operator;
use uc_version_compact::own_compactions_stay_installable;
use uc_version_state::{
    feeds_and_keeps_give_versions, install_gives_a_version, picks_are_unclaimed_runs,
};

/// An install for a held claim is an event that may happen to the version, and leaves the version after it.
pub fn installs_are_events<O: Operator>()
    ensures may { (o : Owner) (c : Claim) (made : Compaction) → IsOwner o → is_held o c ≡ true →
        Stand made.inputs made.keeps →
        MayReplace o.version (stretch_of o c) made →
        MayInstall O.meaning o.version (install_of O.meaning o.version (stretch_of o c) made) }
    ensures after { (o : Owner) (c : Claim) (made : Compaction) → IsOwner o → is_held o c ≡ true →
        Stand made.inputs made.keeps →
        MayReplace o.version (stretch_of o c) made →
        (after_install O.meaning o c made).version ≡
        installed (install_of O.meaning o.version (stretch_of o c) made) o.version }
{}

/// A pick can be claimed: it is there, has two runs or more, and nobody has claimed any of them.
pub fn picks_can_be_claimed()
    ensures { (o : Owner) (s : Stretch) → IsOwner o → picked o.options (candidates_of o.version (is_busy o)) ≡ Some s →
        claim_refusal o s ≡ None }
{
    picks_are_unclaimed_runs();
}

/// After a claim, after giving one back and after an install there is an owner again, and so after a feed, a keep and a
/// release.
pub fn owners_stay_owners<O: Operator>()
    ensures claimed { (o : Owner) (s : Stretch) → IsOwner o → claim_refusal o s ≡ None →
        IsOwner (with_claim o (claim_of o s) s) }
    ensures given_back { (o : Owner) (c : Claim) → IsOwner o → is_held o c ≡ true → IsOwner (without_claim o c) }
    ensures installed { (o : Owner) (c : Claim) (made : Compaction) → IsOwner o → is_held o c ≡ true →
        Stand made.inputs made.keeps →
        MayReplace o.version (stretch_of o c) made → IsOwner (after_install O.meaning o c made) }
    ensures fed { (o : Owner) (ws : List Write) → IsOwner o → MayFeed o.version ws → IsOwner (after_feed ws o) }
    ensures kept { (o : Owner) → IsOwner o → IsOwner (after_keep o) }
    ensures let_go { (o : Owner) (seq : ℕ) → IsOwner o → IsOwner (after_release seq o) }
{
    install_gives_a_version::<O>();
    feeds_and_keeps_give_versions();
}

/// A claim notes the ids of its newest and its oldest run. It is held on and keeps its runs when another claim is made or
/// given back, when another's runs are replaced, and after a feed, a keep and a release.
pub fn claims_keep_their_runs<O: Operator>()
    ensures notes { (o : Owner) (c : Claim) → IsOwner o → is_held o c ≡ true →
        (c.newest ≡ newest_id (ids_of (claimed_runs o c))) × (c.oldest ≡ last_id (ids_of (claimed_runs o c))) }
    ensures kept { (o : Owner) (c other : Claim) (made : Compaction) → IsOwner o → is_held o c ≡ true →
        is_held o other ≡ true →
        other.number ≢ c.number → claimed_runs (after_install O.meaning o c made) other ≡ claimed_runs o other }
    ensures held_on { (o : Owner) (c other : Claim) (made : Compaction) → IsOwner o → is_held o c ≡ true →
        is_held o other ≡ true →
        other.number ≢ c.number → is_held (after_install O.meaning o c made) other ≡ true }
    ensures over_a_claim { (o : Owner) (c : Claim) (s : Stretch) → IsOwner o → is_held o c ≡ true →
        claim_refusal o s ≡ None →
        (is_held (with_claim o (claim_of o s) s) c ≡ true)
        × (claimed_runs (with_claim o (claim_of o s) s) c ≡ claimed_runs o c)
        × (c.number ≢ (claim_of o s).number) }
    ensures over_an_abandon { (o : Owner) (c other : Claim) → IsOwner o → is_held o c ≡ true → is_held o other ≡ true →
        other.number ≢ c.number →
        (is_held (without_claim o other) c ≡ true) × (claimed_runs (without_claim o other) c ≡ claimed_runs o c) }
    ensures over_a_feed { (o : Owner) (c : Claim) (ws : List Write) → IsOwner o → is_held o c ≡ true →
        MayFeed o.version ws →
        (is_held (after_feed ws o) c ≡ true) × (claimed_runs (after_feed ws o) c ≡ claimed_runs o c) }
    ensures over_a_keep { (o : Owner) (c : Claim) → IsOwner o → is_held o c ≡ true →
        (is_held (after_keep o) c ≡ true) × (claimed_runs (after_keep o) c ≡ claimed_runs o c) }
    ensures over_a_release { (o : Owner) (c : Claim) (seq : ℕ) → IsOwner o → is_held o c ≡ true →
        (is_held (after_release seq o) c ≡ true) × (claimed_runs (after_release seq o) c ≡ claimed_runs o c) }
{}

/// A claim that succeeds is held after it is made.
pub fn claims_are_held()
    ensures { (o : Owner) (s : Stretch) → IsOwner o → claim_refusal o s ≡ None →
        is_held (with_claim o (claim_of o s) s) (claim_of o s) ≡ true }
{}

/// A claim can be compacted under the current keeps, and be installed if an id is left. Nothing else can make it fail.
pub fn claims_can_be_compacted()
    ensures stand { (o : Owner) (c : Claim) → IsOwner o → is_held o c ≡ true →
        Stand (compaction_of o.version (stretch_of o c)).inputs (compaction_of o.version (stretch_of o c)).keeps }
    ensures may { (o : Owner) (c : Claim) → IsOwner o → is_held o c ≡ true → IdLeft o.version →
        MayReplace o.version (stretch_of o c) (compaction_of o.version (stretch_of o c)) }
    ensures refused { (o : Owner) (c : Claim) (error : InstallError) → IsOwner o → is_held o c ≡ true →
        IsRefused o.version (stretch_of o c) (compaction_of o.version (stretch_of o c)) error →
        (error ≡ IdsSpent) × ¬ IdLeft o.version }
{}

/// The run that a claim's runs were compacted to may be installed at any later time, while the claim is held and has its runs, if
/// an id is left. Feeds, keeps, releases and other installs may come between. Nothing else can make it fail: it has each keep that
/// it must have, and if it was made for the oldest run, no run comes after its own.
pub fn own_compactions_are_refused_for_ids_alone<O: Operator>()
    ensures may { (o p : Owner) (c : Claim) (events : List Event) → IsOwner o → IsOwner p →
        is_held o c ≡ true → is_held p c ≡ true →
        MayFollow O.meaning o.version events → p.version ≡ fold after o.version events →
        claimed_runs p c ≡ claimed_runs o c → IdLeft p.version →
        MayReplace p.version (stretch_of p c) (compaction_of o.version (stretch_of o c)) }
    ensures refused { (o p : Owner) (c : Claim) (events : List Event) (error : InstallError) → IsOwner o → IsOwner p →
        is_held o c ≡ true → is_held p c ≡ true →
        MayFollow O.meaning o.version events → p.version ≡ fold after o.version events →
        claimed_runs p c ≡ claimed_runs o c →
        IsRefused p.version (stretch_of p c) (compaction_of o.version (stretch_of o c)) error →
        (error ≡ IdsSpent) × ¬ IdLeft p.version }
{
    own_compactions_stay_installable::<O>();
}

/// A job that is started is held by its store, and was made of the runs of its claim. So it stays, as claims keep their runs
/// until they are given back.
pub fn jobs_are_own()
    ensures { (o : Owner) (s : Stretch) → IsOwner o → claim_refusal o s ≡ None →
        (is_held (with_claim o (claim_of o s) s) (task_of o s).claim ≡ true) × IsOwn (with_claim o (claim_of o s) s) (task_of o s) }
{}

/// A stretch that can be claimed can be compacted at once if an id is left. It is claimed, its compaction is an event
/// that may happen, and the install gives the claim back. So the owner holds the same claims as before, and they keep their
/// runs.
pub fn claimable_stretches_can_be_compacted<O: Operator>()
    ensures may { (o : Owner) (s : Stretch) → IsOwner o → claim_refusal o s ≡ None → IdLeft o.version →
        MayInstall O.meaning o.version (install_at O.meaning o.version s) }
    ensures after { (o : Owner) (s : Stretch) → IsOwner o → claim_refusal o s ≡ None → IdLeft o.version →
        let claimed = with_claim o (claim_of o s) s in let c = claim_of o s in
        after_install O.meaning claimed c (compaction_of claimed.version (stretch_of claimed c)) ≡ after_compaction O.meaning o s }
    ensures stays { (o : Owner) (s : Stretch) → IsOwner o → claim_refusal o s ≡ None → IdLeft o.version →
        IsOwner (after_compaction O.meaning o s) }
    ensures given_back { (o : Owner) (s : Stretch) → without_claim (with_claim o (claim_of o s) s) (claim_of o s) ≡ o }
    ensures kept { (o : Owner) (s : Stretch) (c : Claim) → IsOwner o → claim_refusal o s ≡ None → IdLeft o.version → is_held o c ≡ true →
        (is_held (after_compaction O.meaning o s) c ≡ true)
        × (claimed_runs (after_compaction O.meaning o s) c ≡ claimed_runs o c) }
{
    install_gives_a_version::<O>();
}
