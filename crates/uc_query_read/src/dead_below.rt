//! Keys before a dead one that have no value either, since a newer run's range deletion hides them.
ghost use Rattle.std.specs.Prelude.{◌≡◌, Some, option_map, IfSome};
ghost use Rattle.std.specs.List.{AllByRecursion};
ghost use Rattle.uc_compact.specs.Inputs.{writes_of};
ghost use Rattle.uc_query_read.specs.Back.{bound_at, later_of, StandsBelow};
ghost use Rattle.uc_query_read.specs.Dead.{AreDeadBelow, IsHiddenFrom};
ghost use Rattle.uc_query_read.specs.Walks.{runs_of, IsOfRun};

use crate::back_walk::greatest_key;
use uc_model::{effect_gives_value, effects_of_parts_compose};
use uc_oper::Operator;
use uc_run::{BackCursor, text_order};
use uc_run_entry::plain_list_does_what_is_found;

/// The place of the first run that hides a key, and where the hiding begins. Only runs with range deletions can.
fn hidden_by<'a>(cursors: &[BackCursor<'a>], key: &[u8], at: u64) -> Option<(usize, &'a [u8])>
    requires { AllByRecursion IsOfRun cursors.now }
    ensures { IfSome result (λ r. IsHiddenFrom cursors.now key.now at r.0 r.1.now) }
{
    for place in 0..cursors.len() {
        if let Some(begin) = cursors[place].hidden_from(key, at) {
            return Some((place, begin));
        }
    }
    None
}

/// The greater of two bounds: what is below a key, or up to another if there is one.
fn later<'a>(begin: &'a [u8], last: Option<&'a [u8]>) -> (&'a [u8], bool)
    ensures { (result.0.now, result.1) ≡ later_of begin.now (option_map (λ k. k.now) last.entry) }
{
    match last {
        None => (begin, false),
        Some(last) => {
            if text_order(last, begin).is_lt() {
                (begin, false)
            } else {
                (last, true)
            }
        }
    }
}

/// If a run hides a passed key, a bound before it: no key from the bound up to the key has a value. The bound is where the hiding begins,
/// or after a later point of that run or a newer one; it says whether the keys at it are still to come. It costs a step for each run,
/// and a search among the fragments of some.
pub(crate) fn dead_from<'a, O: Operator>(
    cursors: &[BackCursor<'a>],
    key: &[u8],
    at: u64,
) -> Option<(&'a [u8], bool)>
    requires stand { AllByRecursion (StandsBelow (Some key.now)) cursors.now }
    requires of_runs { AllByRecursion IsOfRun cursors.now }
    ensures { IfSome result (λ bound.
        AreDeadBelow O.meaning (writes_of (runs_of cursors.now)) at key.now (bound_at bound.0.now bound.1)) }
{
    plain_list_does_what_is_found::<O>();
    effects_of_parts_compose::<O>();
    effect_gives_value::<O>();
    let (place, begin) = hidden_by(cursors, key, at)?;
    Some(later(begin, greatest_key(&cursors[..place + 1])))
}
