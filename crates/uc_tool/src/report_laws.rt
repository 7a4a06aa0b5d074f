//! Laws about what is printed.
ghost use Rattle.std.specs.Prelude.{◌≡◌, None, true};
ghost use Rattle.uc_version.specs.Owners.{Owner, IsOwner};
ghost use Rattle.uc_query.specs.Turns.{has_id};
ghost use Rattle.uc_tool.specs.Report.{compactions_of, pick_of};

use uc_oper::Operator;
use uc_version::{claimable_stretches_can_be_compacted, picks_can_be_claimed};
use uc_version_state::picks_are_unclaimed_runs;

/// The compactions of a report end because universal compaction picks nothing more, or because no id is left for another run.
pub fn compactions_end_where_nothing_is_picked<O: Operator>()
    ensures { (o : Owner) → IsOwner o → let left = (compactions_of O.meaning o).owner in
        has_id left.version ≡ true → pick_of left ≡ None }
{
    picks_are_unclaimed_runs();
    picks_can_be_claimed();
    claimable_stretches_can_be_compacted::<O>();
}
