//! The effect of a key's points.
ghost use Rattle.std.specs.Prelude.{◌≡◌, map, IfOk};
ghost use Rattle.std.specs.Option.{option_to_list};
ghost use Rattle.uc_oper.specs.Operation.{Operation};
ghost use Rattle.uc_oper.specs.declared.effect.Effect.{Effect as EffectOf};
ghost use Rattle.uc_run_entry.specs.Lookup as lookup;
ghost use Rattle.uc_compact.specs.Choice.{PointsFall};

use crate::falling::points_above;
use crate::folder::Folder;
use std::alloc::{AllocError, Global};
use uc_oper::{Effect, Operator};
use uc_run_points::PointRef;

/// The points, the newest first, without those that a newer one overwrites.
fn lasting<'b, 'a>(points: &'b [PointRef<'a>]) -> &'b [PointRef<'a>]
    ensures { (m : Operation) (before : EffectOf) →
        lookup.points_effect m before result.now ≡
        lookup.points_effect m before points.now }
{
    match points.iter().position(|point| point.overwrites()) {
        None => points,
        Some(place) => &points[..place + 1],
    }
}

/// The effect of points of one key, the newest first, after an older effect. An `Err` loses that effect.
fn points_effect<O: Operator, F: Folder<O>>(
    folder: &F,
    alloc: Global,
    before: Effect,
    points: &[PointRef<'_>],
) -> Result<Effect, AllocError>
    requires { F.can_fold folder.now }
    ensures { IfOk result (λ effect. effect ≡ lookup.points_effect O.meaning before points.now) }
{
    folder.fold(alloc, before, lasting(points))
}

/// The effect of a key's points, the newest first, and of the range deletions over it. `newest` is the newest of those
/// deletions, if there is one.
pub(crate) fn effect_above_newest<O: Operator, F: Folder<O>>(
    folder: &F,
    alloc: Global,
    points: &[PointRef<'_>],
    newest: Option<u64>,
) -> Result<Effect, AllocError>
    requires can { F.can_fold folder.now }
    requires fall { PointsFall points.now }
    ensures { IfOk result (λ effect.
        effect ≡ lookup.above_newest O.meaning points.now (option_to_list newest)) }
{
    match newest {
        None => points_effect::<O, F>(folder, alloc, Effect::Keep, points),
        Some(newest) => {
            let newer = &points[..points_above(points, newest)];
            points_effect::<O, F>(folder, alloc, Effect::Set(None), newer)
        }
    }
}
