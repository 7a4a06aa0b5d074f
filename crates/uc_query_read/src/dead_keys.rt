//! Keys after a dead one that have no value either, since a newer run's range deletion hides them.
ghost use Rattle.std.specs.Prelude.{◌≡◌, ℕ, Bool, List, true, map, option_map, IfSome};
ghost use Rattle.std.specs.List.{AllByRecursion};
ghost use Rattle.uc_run.specs.NextKey.{IsNextKey};
ghost use Rattle.uc_compact.specs.Inputs.{points_of, writes_of};
ghost use Rattle.uc_query_read.specs.Walks.{runs_of, StandsAt, IsOfRun};
ghost use Rattle.uc_query_read.specs.Dead.{IsHidden, AreDead};

use uc_model::{effect_gives_value, effects_of_parts_compose};
use uc_oper::Operator;
use uc_run::{Cursor, lesser};
use uc_run_entry::plain_list_does_what_is_found;

/// The least of the cursors' next keys.
fn least_key<'a>(cursors: &[Cursor<'a>]) -> Option<&'a [u8]>
    ensures { (low : List ℕ) (strict : Bool) → AllByRecursion (StandsAt low strict) cursors.now →
        IsNextKey (points_of (runs_of cursors.now)) low strict (option_map (λ k. k.now) result) }
{
    let mut least = None;
    for cursor in cursors {
        least = lesser(least, cursor.key());
    }
    least
}

/// The place of the first run that hides a key, and where the hiding ends.
fn hidden_by<'a>(cursors: &[Cursor<'a>], key: &[u8], at: u64) -> Option<(usize, &'a [u8])>
    requires of_runs { AllByRecursion IsOfRun cursors.now }
    ensures { IfSome result (λ r. IsHidden cursors.now key.now at r.0 r.1.now) }
{
    for place in 0..cursors.len() {
        if let Some(end) = cursors[place].hidden_to(key, at) {
            return Some((place, end));
        }
    }
    None
}

/// If a run hides a passed key, a bound above it; no key between them has a value. The bound is the end of the hiding,
/// or an earlier point of that run or a newer one. It costs a step for each run, and a search among the fragments of
/// some.
pub(crate) fn dead_up_to<'a, O: Operator>(
    cursors: &[Cursor<'a>],
    key: &[u8],
    at: u64,
) -> Option<&'a [u8]>
    requires stand { AllByRecursion (StandsAt key.now true) cursors.now }
    requires of_runs { AllByRecursion IsOfRun cursors.now }
    ensures { IfSome result (λ bound. AreDead O.meaning (writes_of (runs_of cursors.now)) at key.now bound.now) }
{
    plain_list_does_what_is_found::<O>();
    effects_of_parts_compose::<O>();
    effect_gives_value::<O>();
    let (place, end) = hidden_by(cursors, key, at)?;
    lesser(Some(end), least_key(&cursors[..place + 1]))
}
