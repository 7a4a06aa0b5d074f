//! [`Over`]: the sequences of several fragments together.
ghost use Rattle.std.specs.Prelude.{◌≡◌, map};
ghost use Rattle.std.specs.List.{AllByRecursion, slice_get};
ghost use Rattle.uc_run_entry.specs.Order.{IsFalling};
ghost use Rattle.uc_run_entry.specs.Newest as newest;
ghost use Rattle.uc_compact.specs.Together.{together};

use std::marker::Model;
use uc_run_entry::{Seqs, newer};

/// The sequences of several lists together, the newest first and each once. A contract sees that list, which is never
/// built.
///
/// Fragments of several runs over a key may have very many sequences; a compaction asks only for the newest of a
/// stripe.
#[derive(Drop)]
pub struct Over<'a> {
    lists: &'a [&'a Seqs],
}

impl<'a> Model for Over<'a> {
    ghost use Rattle.std.specs.Prelude.{ℕ, List, map};
    ghost use Rattle.std.specs.List.{AllByRecursion};
    ghost use Rattle.uc_run_entry.specs.Order.{IsFalling};
    ghost use Rattle.uc_compact.specs.Together.{together};

    ghost Value = { List ℕ };

    ghost view = { λ o. together (map (λ seqs. seqs.now) o.lists.now) };

    ghost invariant = { λ o. AllByRecursion IsFalling (map (λ seqs. seqs.now) o.lists.now) };
}

/// The newest sequence of all lists at or below a number.
fn newest_of_all(lists: &[&Seqs], at: u64) -> Option<u64>
    requires { AllByRecursion IsFalling (map (λ seqs. seqs.now) lists.now) }
    ensures { result ≡ newest.newest_at_or_below at (together (map (λ seqs. seqs.now) lists.now)) }
{
    let mut newest = None;
    for seqs in lists {
        newest = newer(newest, seqs.newest_at_or_below(at));
    }
    newest
}

/// The newest sequence of all lists.
fn first_of_all(lists: &[&Seqs]) -> Option<u64>
    requires { AllByRecursion IsFalling (map (λ seqs. seqs.now) lists.now) }
    ensures { result ≡ slice_get (together (map (λ seqs. seqs.now) lists.now)) 0 }
{
    let mut newest = None;
    for seqs in lists {
        newest = newer(newest, seqs.newest());
    }
    newest
}

impl<'a> Over<'a> {
    /// The sequences of these lists, each of which falls. It doesn't allocate.
    pub fn new(lists: &'a [&'a Seqs]) -> Over<'a>
        requires { AllByRecursion IsFalling (map (λ seqs. seqs.now) lists.now) }
        ensures { result ≡ together (map (λ seqs. seqs.now) lists.now) }
    {
        Over { lists }
    }

    /// The first of them, if there is one.
    pub fn newest(&self) -> Option<u64>
        ensures { result ≡ slice_get self.now 0 }
    {
        first_of_all(self.lists)
    }

    /// The newest at or below a number, if there is one. It asks each list.
    pub fn newest_at_or_below(&self, at: u64) -> Option<u64>
        ensures { result ≡ newest.newest_at_or_below at self.now }
    {
        newest_of_all(self.lists, at)
    }

    /// The invariant of every value: the sequences fall. Proof step: does nothing when it runs.
    pub fn recall_falling(&self)
        ensures { IsFalling self.now }
    {
        let _ = &self.lists;
    }
}
