//! [`SeqsAhead`]: the sequences of a fragment that are still ahead.
ghost use Rattle.std.specs.Prelude.{◌≡◌, ◌<◌, ◌++◌, [], length, drop, IfOk};
ghost use Rattle.std.specs.List.{slice_index_or, slice_get};
ghost use Rattle.uc_run_entry.specs.Ahead as standing;

use crate::spans::Spans;
use std::alloc::{AllocError, Global};
use std::marker::Model;

/// The sequences of a fragment that are still ahead, the newest first. A contract sees their list.
#[derive(Drop)]
pub struct SeqsAhead<'a> {
    spans: &'a Spans,
    fragment: usize,
    at: Option<u64>,
}

impl<'a> Model for SeqsAhead<'a> {
    ghost use Rattle.std.specs.Prelude.{ℕ, ◌<◌, List, [], length};
    ghost use Rattle.std.specs.List.{slice_index_or};
    ghost use Rattle.uc_run_entry.specs.Ahead.{ahead};

    ghost Value = { List ℕ };

    ghost view = { λ s. ahead s.at (slice_index_or s.spans.now s.fragment []) };

    ghost invariant = { λ s. s.fragment < length s.spans.now };
}

/// After a sequence that was found, the bound at or below which the rest are.
fn after(found: Option<u64>) -> Option<u64>
    ensures { result ≡ standing.after found }
{
    match found {
        None => None,
        Some(seq) => { if seq == 0 { None } else { Some(seq - 1) } }
    }
}

/// The first sequence of a fragment that is ahead, if there is one.
fn first_ahead(spans: &Spans, fragment: usize, at: Option<u64>) -> Option<u64>
    requires { fragment < length spans.now }
    ensures { result ≡ slice_get (standing.ahead at (slice_index_or spans.now fragment [])) 0 }
{
    match at {
        None => None,
        Some(at) => spans.newest_at_or_below(fragment, at),
    }
}

impl<'a> SeqsAhead<'a> {
    /// Before the first sequence of a fragment.
    pub(crate) fn new(spans: &'a Spans, fragment: usize) -> SeqsAhead<'a>
        requires { fragment < length spans.now }
        ensures { result ≡ slice_index_or spans.now fragment [] }
    {
        let at = spans.greatest();
        SeqsAhead {
            spans,
            fragment,
            at,
        }
    }

    /// The next sequence, if there is one.
    pub fn next(&mut self) -> Option<u64>
        ensures next { result ≡ slice_get self.old 0 }
        ensures rest { self.new ≡ drop 1 self.old }
    {
        self.spans.fragments();
        let found = first_ahead(self.spans, self.fragment, self.at);
        self.at = after(found);
        found
    }

    /// The sequences as a vector.
    pub fn to_vec(self, alloc: Global) -> Result<Vec<u64>, AllocError>
        ensures { IfOk result (λ seqs. seqs.items ≡ self.entry) }
    {
        let mut seqs = Vec::new(alloc);
        let mut ahead = self;
        while let Some(seq) = ahead.next() {
            seqs.push(seq)?;
        }
        Ok(seqs)
    }
}
