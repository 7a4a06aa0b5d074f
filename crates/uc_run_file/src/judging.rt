//! Whether points and fragments make a run.
ghost use Rattle.std.specs.Prelude.{ℕ, List, IfSome, ◌≡◌, ◌↔◌, ◌<◌, ◌+◌, ◌^◌, None, length, true, Contains, IsTrue, MatchOption};
ghost use Rattle.std.specs.List.{AllByRecursion};
ghost use Rattle.uc_run_entry.specs.Order.{IsFalling, AreInOrder};
ghost use Rattle.uc_run_entry.specs.Run.{IsWithin, IsApart, IsRun};
ghost use Rattle.uc_run_file.specs.Files.{IsNamed};
ghost use Rattle.uc_run_file.specs.Judging.{IsAfter, IsGood, AreGood, IsRange};

use crate::run_fault::RunFault;
use std::cmp::Ordering;
use uc_bytes::MAX_SEQUENCE;
use uc_run::text_order;
use uc_run_entry::{Entry, Fragment, Seqs, covering_fragment, is_run};
use uc_run_points::{PointRef, Points};

/// Whether a point comes after another, if there is one.
fn is_after(before: &Option<PointRef<'_>>, point: &PointRef<'_>) -> bool
    ensures { IsTrue result ↔ IsAfter before.now point.now }
{
    let Some(before) = before else { return true };
    match text_order(before.key(), point.key()) {
        Ordering::Less => true,
        Ordering::Equal => point.seq() < before.seq(),
        Ordering::Greater => false,
    }
}

/// Whether a sequence lies in a range of sequences.
fn is_within(low: u64, high: u64, seq: u64) -> bool
    ensures { IsTrue result ↔ IsWithin low high seq }
{
    low <= seq && seq <= high
}

/// Whether a sequence is among some that fall.
fn has_seq(seqs: &Seqs, seq: u64) -> bool
    requires { IsFalling seqs.now }
    ensures { IsTrue result ↔ Contains seqs.now seq }
{
    match seqs.newest_at_or_below(seq) {
        None => false,
        Some(newest) => newest == seq,
    }
}

/// Whether no fragment that covers a point's key has its sequence.
fn is_apart(fragments: &[Fragment], point: &PointRef<'_>) -> bool
    requires order { AreInOrder fragments.now }
    requires falling { AllByRecursion (λ f. IsFalling f.seqs) fragments.now }
    ensures { IsTrue result ↔ IsApart fragments.now point.now }
{
    match covering_fragment(fragments, point.key()) {
        None => true,
        Some(fragment) => !has_seq(fragment.seqs(), point.seq()),
    }
}

/// The fault of a point with a number, if it has one.
fn point_fault(
    low: u64,
    high: u64,
    fragments: &[Fragment],
    before: &Option<PointRef<'_>>,
    point: &PointRef<'_>,
    number: usize,
) -> Option<RunFault>
    requires order { AreInOrder fragments.now }
    requires falling { AllByRecursion (λ f. IsFalling f.seqs) fragments.now }
    ensures judged { MatchOption result (IsGood low high fragments.now before.now point.now)
        (λ _. IsGood low high fragments.now before.now point.now → ⊥) }
    ensures named { IfSome result (λ fault. (file : List ℕ) → IsNamed file fault) }
{
    if !is_after(before, point) {
        Some(RunFault::Order(number))
    } else if !is_within(low, high, point.seq()) {
        Some(RunFault::Sequence(number))
    } else if !is_apart(fragments, point) {
        Some(RunFault::Shared(number))
    } else {
        None
    }
}

/// The first fault of a point, if there is one.
fn points_fault(low: u64, high: u64, fragments: &[Fragment], points: &Points) -> Option<RunFault>
    requires order { AreInOrder fragments.now }
    requires falling { AllByRecursion (λ f. IsFalling f.seqs) fragments.now }
    ensures judged { MatchOption result (AreGood low high fragments.now None points.now)
        (λ _. AreGood low high fragments.now None points.now → ⊥) }
    ensures named { IfSome result (λ fault. (file : List ℕ) → IsNamed file fault) }
{
    let mut ahead = points.ahead();
    let mut before = None;
    for number in 0..points.len() {
        match ahead.next() {
            None => return None,
            Some(point) => {
                match point_fault(low, high, fragments, &before, &point, number) {
                    Some(fault) => return Some(fault),
                    None => before = Some(point),
                }
            }
        }
    }
    None
}

/// Whether a range of sequences is one of writes.
fn is_range(low: u64, high: u64) -> bool
    ensures { IsTrue result ↔ IsRange low high }
{
    1 <= low && low <= high && high <= MAX_SEQUENCE
}

/// The first fault of points and fragments that don't make a run.
pub(crate) fn run_fault(
    low: u64,
    high: u64,
    points: &Points,
    fragments: &[Fragment],
) -> Option<RunFault>
    ensures judged { MatchOption result (IsRun low high points.now fragments.now)
        (λ _. IsRun low high points.now fragments.now → ⊥) }
    ensures named { IfSome result (λ fault. (file : List ℕ) → IsNamed file fault) }
{
    let none: [Entry; 0] = [];
    if !is_range(low, high) {
        Some(RunFault::Range)
    } else if !is_run(low, high, &none, fragments) {
        Some(RunFault::Fragments)
    } else {
        match points_fault(low, high, fragments, points) {
            Some(fault) => Some(fault),
            None => None,
        }
    }
}
