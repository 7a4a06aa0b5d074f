//! A fold in several threads.
ghost use Rattle.std.specs.Prelude.{◌≡◌, fold, IfOk};

use crate::joins::Joins;
use rayon::prelude::*;
use std::alloc::{AllocError, Global};
use std::marker::Sync;
use std::thread::Threads;

/// Joins all parts from left to right, starting from the unit.
///
/// A long list is cut into pieces that threads fold side by side. Wherever it is cut, an `Ok` is what one thread would
/// make of the whole. If a join fails, the whole fold fails, and the parts are lost.
pub fn fold_all<J: Joins + Sync>(
    rt: &(impl Threads + Sync),
    alloc: Global,
    parts: Vec<J::Part>,
) -> Result<J::Part, AllocError>
    ensures { IfOk result (λ whole. whole ≡ fold J.join J.unit parts.items) }
{
    parts.into_par_iter().map(Ok).reduce(
        rt,
        || Ok(J::unit()),
        |older, newer| J::join(alloc, older?, newer?),
    )
}
