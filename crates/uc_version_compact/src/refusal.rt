//! Why a compaction isn't installed in place of claimed runs.
ghost use Rattle.std.specs.Prelude.{◌≡◌, ◌≤◌, ◌↔◌, IsTrue, IfSome, IfNone, length};
ghost use Rattle.uc_claims.specs.declared.table.TheConstants.{MOST_SLOTS};
ghost use Rattle.uc_version_state.specs.Versions as versions;
ghost use Rattle.uc_version_state.specs.Versions.{contents_of};
ghost use Rattle.uc_version_state.specs.Installs.{terms_of};
ghost use Rattle.uc_version_state.specs.Refusals.{AreReplaceable, IsRefused};
ghost use Rattle.uc_version_compact.specs.Compacting as compacting;
ghost use Rattle.uc_version_compact.specs.Compacting.{IsInstallable, IsNotInstallable};

use crate::install_error::InstallError;
use crate::runs::run_ids;
use uc_compact::Compacted;
use uc_oper::Operator;
use uc_version_state::{Placed, Refusal, Terms, Version};

/// Whether these runs were compacted: as many, with the same points, fragments and ranges. It goes over their points.
pub fn are_inputs<O: Operator>(made: &Compacted<O>, runs: &[Placed]) -> bool
    ensures { IsTrue result ↔ (made.now.inputs ≡ contents_of runs.now) }
{
    let inputs = made.inputs();
    if inputs.len() != runs.len() {
        return false;
    }
    for (place, placed) in runs.iter().enumerate() {
        if !inputs[place].same(placed.run()) {
            return false;
        }
    }
    true
}

/// The error for a version that can't install a compaction.
pub fn error_of(refusal: Refusal) -> InstallError
    ensures { result ≡ compacting.error_of refusal }
{
    match refusal {
        Refusal::OlderBehind => InstallError::WrongInputs,
        Refusal::UnknownKeep(keep) => InstallError::WrongKeeps(keep),
        Refusal::NotInPlace => InstallError::Stale,
        Refusal::IdsSpent => InstallError::IdsSpent,
    }
}

/// Why a version can't install a compaction in place of the claimed runs, if so. It ignores the inputs of the compaction, compares
/// no points and doesn't allocate.
pub fn present_refusal<O: Operator>(
    claimed: &[Placed],
    present: &Version,
    made: &Compacted<O>,
) -> Option<Refusal>
    requires { length claimed.now ≤ MOST_SLOTS }
    ensures none { IfNone result (AreReplaceable present.now (versions.ids_of claimed.now) (terms_of made.now)) }
    ensures some { IfSome result (λ refusal.
        IsRefused present.now (versions.ids_of claimed.now) (terms_of made.now) refusal) }
{
    made.recall_standing();
    let ids = run_ids(claimed);
    let terms = Terms::new(made.keeps(), made.oldest(), made.output().high_seq());
    present.replace_refusal(&ids[..claimed.len()], &terms)
}

/// Why a compaction of the claimed runs may not be installed in their place in the present version, or `None`. It
/// compares no points and doesn't allocate.
pub fn own_refusal<O: Operator>(
    claimed: &[Placed],
    present: &Version,
    made: &Compacted<O>,
) -> Option<InstallError>
    requires few { length claimed.now ≤ MOST_SLOTS }
    requires own { made.now.inputs ≡ contents_of claimed.now }
    ensures none { IfNone result (IsInstallable present.now claimed.now made.now) }
    ensures some { IfSome result (λ error. IsNotInstallable present.now claimed.now made.now error) }
{
    match present_refusal(claimed, present, made) {
        None => None,
        Some(refusal) => Some(error_of(refusal)),
    }
}

/// Why a compaction may not be installed in place of the claimed runs in the present version, or `None`. It goes over
/// the points of the claimed runs, and doesn't allocate.
pub fn install_refusal<O: Operator>(
    claimed: &[Placed],
    present: &Version,
    made: &Compacted<O>,
) -> Option<InstallError>
    requires { length claimed.now ≤ MOST_SLOTS }
    ensures none { IfNone result (IsInstallable present.now claimed.now made.now) }
    ensures some { IfSome result (λ error. IsNotInstallable present.now claimed.now made.now error) }
{
    if !are_inputs(made, claimed) {
        return Some(InstallError::WrongInputs);
    }
    own_refusal(claimed, present, made)
}
