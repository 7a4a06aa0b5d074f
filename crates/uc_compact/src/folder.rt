//! [`Folder`]: folds the effects of a key's points.
ghost use Rattle.std.specs.Prelude.{◌≡◌, ⊤, map, IfOk};
ghost use Rattle.uc_run_entry.specs.Lookup as lookup;

use std::alloc::{AllocError, Global};
use std::marker::Sync;
use std::thread::{Threads, join};
use uc_oper::{Effect, Operator};
use uc_run_points::PointRef;

/// More points than this are folded in two threads.
const MANY: usize = 5_000;

/// A folder of a key's points into one effect. The result is the same for every folder.
pub trait Folder<O: Operator> {
    /// The condition under which a folder may fold.
    ghost can_fold: { Self → Type 0 };

    /// The effect of points of one key, the newest first, after an older effect. An `Err` loses that effect.
    fn fold(
        &self,
        alloc: Global,
        before: Effect,
        points: &[PointRef<'_>],
    ) -> Result<Effect, AllocError>
        requires { can_fold self.now }
        ensures { IfOk result (λ effect.
            effect ≡ lookup.points_effect O.meaning before points.now) };
}

/// An effect, and then the points, the newest first, in one thread. An `Err` loses the effect.
fn folded_onto<O: Operator>(
    alloc: Global,
    before: Effect,
    points: &[PointRef<'_>],
) -> Result<Effect, AllocError>
    ensures { IfOk result (λ effect. effect ≡ lookup.points_effect O.meaning before points.now) }
{
    let mut effect = before;
    for place in (0..points.len()).rev() {
        effect = points[place].what().after::<O>(alloc, effect)?;
    }
    Ok(effect)
}

/// An effect, and then the points, the newest first. Their older and newer halves are folded side by side. An `Err`
/// loses the effect.
fn folded_by_halves<O: Operator + Sync>(
    rt: &(impl Threads + Sync),
    alloc: Global,
    before: Effect,
    points: &[PointRef<'_>],
) -> Result<Effect, AllocError>
    ensures { IfOk result (λ effect. effect ≡ lookup.points_effect O.meaning before points.now) }
{
    let (newer, older) = points.split_at(points.len() / 2);
    let (older, newer) = join(
        rt,
        move || folded_onto::<O>(alloc, before, older),
        || folded_onto::<O>(alloc, Effect::Keep, newer),
    );
    older?.then::<O>(alloc, newer?)
}

/// An effect, and then the points, the newest first. Many points are folded by halves in two threads, of which one is
/// started for it. An `Err` loses the effect.
pub fn fold_in_threads<O: Operator + Sync>(
    rt: &(impl Threads + Sync),
    alloc: Global,
    before: Effect,
    points: &[PointRef<'_>],
) -> Result<Effect, AllocError>
    ensures { IfOk result (λ effect. effect ≡ lookup.points_effect O.meaning before points.now) }
{
    if points.len() > MANY {
        folded_by_halves::<O>(rt, alloc, before, points)
    } else {
        folded_onto::<O>(alloc, before, points)
    }
}

/// The calling thread alone does all the work.
#[derive(Drop)]
pub struct Alone;

impl<O: Operator> Folder<O> for Alone {
    ghost can_fold = { λ _. ⊤ };

    fn fold(
        &self,
        alloc: Global,
        before: Effect,
        points: &[PointRef<'_>],
    ) -> Result<Effect, AllocError> {
        folded_onto::<O>(alloc, before, points)
    }
}

/// A function does the work, as one that starts threads.
#[derive(Drop)]
pub struct By<F>(pub F);

impl<
    O: Operator,
    F: Fn(Global, Effect, &[PointRef<'_>]) -> Result<Effect, AllocError> + Drop,
> Folder<O> for By<F> {
    ghost can_fold = { λ by. (alloc : _) (before : _) (points : _) →
        F.pre by.0 alloc before points
        × ((result : _) → F.post by.0 alloc before points result →
        IfOk result (λ effect.
        effect ≡ lookup.points_effect O.meaning before points.now)) };

    fn fold(
        &self,
        alloc: Global,
        before: Effect,
        points: &[PointRef<'_>],
    ) -> Result<Effect, AllocError> {
        (self.0)(alloc, before, points)
    }
}
