//! [`Share`]: the sequences of a fragment, among shared spans.
ghost use Rattle.std.specs.Prelude.{◌≡◌, ◌↔◌, ◌<◌, ◌-◌, ◌^◌, [], length, min, IsTrue, IfOk};
ghost use Rattle.std.specs.Arc.{arc_value};
ghost use Rattle.std.specs.List.{slice_index_or};
ghost use Rattle.uc_run_entry.specs.Newest as newest;
ghost use Rattle.uc_run_entry.specs.Spans.{IsFalling};

use crate::ahead::SeqsAhead;
use crate::spans::Spans;
use std::alloc::AllocError;
use std::marker::Model;
use std::sync::Arc;

/// The sequences of one of the fragments of shared spans. A contract sees their list.
#[derive(Drop)]
pub(crate) struct Share {
    spans: Arc<Spans>,
    fragment: usize,
}

impl Model for Share {
    ghost use Rattle.std.specs.Prelude.{ℕ, ◌<◌, List, [], length};
    ghost use Rattle.std.specs.Arc.{arc_value};
    ghost use Rattle.std.specs.List.{slice_index_or};

    ghost Value = { List ℕ };

    ghost view = { λ s. slice_index_or (arc_value s.spans) s.fragment [] };

    ghost invariant = { λ s. s.fragment < length (arc_value s.spans) };
}

impl Share {
    /// The sequences of a fragment of the spans.
    pub(crate) fn new(spans: Arc<Spans>, fragment: usize) -> Share
        requires { fragment < length (arc_value spans) }
        ensures { result ≡ slice_index_or (arc_value spans) fragment [] }
    {
        Share { spans, fragment }
    }

    /// The invariant of every value: the sequences fall. Proof step: does nothing when it runs.
    pub(crate) fn recall_falling(&self)
        ensures { IsFalling self.now }
    {
        self.spans.fragments();
    }

    /// The number of sequences, at most 2^64 - 1.
    pub(crate) fn len(&self) -> u64
        ensures { result ≡ min (length self.now) (2 ^ 64 - 1) }
    {
        self.spans.count(self.fragment)
    }

    /// All of them, the newest first.
    pub(crate) fn ahead(&self) -> SeqsAhead<'_>
        ensures { result ≡ self.now }
    {
        self.spans.seqs(self.fragment)
    }

    /// The newest at or below a number, if there is one.
    pub(crate) fn newest_at_or_below(&self, at: u64) -> Option<u64>
        ensures { result ≡ newest.newest_at_or_below at self.now }
    {
        self.spans.newest_at_or_below(self.fragment, at)
    }

    /// The same sequences, which share the spans.
    pub(crate) fn again(&self) -> Result<Share, AllocError>
        ensures { IfOk result (λ again. again ≡ self.now) }
    {
        Ok(Share {
            spans: self.spans.clone()?,
            fragment: self.fragment,
        })
    }
}
