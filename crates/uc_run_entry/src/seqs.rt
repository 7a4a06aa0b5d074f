//! [`Seqs`]: the sequences of a fragment.
ghost use Rattle.std.specs.Prelude.{◌≡◌, ◌↔◌, ◌<◌, ◌-◌, ◌^◌, ◌==◌, [], ◌∷◌, length, min, IsTrue, IfOk};
ghost use Rattle.std.specs.Arc.{arc_value};
ghost use Rattle.std.specs.List.{slice_get, slice_index_or};
ghost use Rattle.std.proofs.Common.{rules};
ghost use Rattle.std.specs.Cmp.Rules.{comparing};
ghost use Rattle.uc_run_entry.specs.Newest as newest;
ghost use Rattle.uc_run_entry.specs.Seqs.{same_seqs};
ghost use Rattle.uc_run_entry.specs.Spans.{IsFalling};

use crate::alike::{are_ahead, are_alike, are_equal};
use crate::falling::are_falling;
use crate::few::Few;
use crate::lists::Lists;
use crate::newest::newest_at_or_below;
use crate::share::Share;
use crate::spans::Spans;
use std::alloc::{AllocError, Global};
use std::marker::Model;
use std::slice;
use std::sync::Arc;

/// Where the sequences are.
#[derive(Drop)]
enum Kind {
    /// Here: there is one.
    One(u64),
    /// Among shared lists.
    Few(Few),
    /// Among shared spans.
    Shared(Share),
}

/// The sequences of a fragment. A contract sees their list.
///
/// One stands here. Some are one of many lists in one vector. Many are shared: then many fragments share one [`Spans`], and
/// each takes only its place there, however many sequences it has.
#[derive(Drop)]
pub struct Seqs {
    kind: Kind,
}

impl Model for Seqs {
    ghost use Rattle.std.specs.Prelude.{ℕ, List};
    ghost use Rattle.uc_run_entry.specs.Seqs.{seqs_of};

    ghost Value = { List ℕ };

    ghost view = { λ seqs. seqs_of seqs.kind };
}

impl Seqs {
    /// One sequence.
    pub fn one(seq: u64) -> Seqs
        ensures { result ≡ seq ∷ [] }
    {
        Seqs {
            kind: Kind::One(seq),
        }
    }

    /// One of many lists. A list of one isn't shared.
    pub fn listed(lists: &Arc<Lists<u64>>, number: usize) -> Result<Seqs, AllocError>
        requires { number < length (arc_value lists.now) }
        ensures { IfOk result (λ seqs. seqs ≡ slice_index_or (arc_value lists.now) number []) }
    {
        if let [seq] = lists.list(number) {
            return Ok(Seqs::one(*seq));
        }
        Ok(Seqs {
            kind: Kind::Few(Few::new(lists.clone()?, number)),
        })
    }

    /// A list that no other shares.
    pub fn alone(alloc: Global, seqs: &[u64]) -> Result<Seqs, AllocError>
        ensures { IfOk result (λ made. made ≡ seqs.now) }
    {
        let lists = Arc::new(alloc, Lists::of(alloc, &[seqs])?)?;
        Seqs::listed(&lists, 0)
    }

    /// The sequences of a fragment of shared spans. It doesn't allocate.
    pub fn shared(spans: Arc<Spans>, fragment: usize) -> Seqs
        requires { fragment < length (arc_value spans) }
        ensures { result ≡ slice_index_or (arc_value spans) fragment [] }
    {
        Seqs {
            kind: Kind::Shared(Share::new(spans, fragment)),
        }
    }

    /// The number of sequences, at most 2^64 - 1.
    pub fn len(&self) -> u64
        ensures { result ≡ min (length self.now) (2 ^ 64 - 1) }
    {
        match &self.kind {
            Kind::One(_) => 1,
            Kind::Few(list) => list.as_slice().len() as u64,
            Kind::Shared(share) => share.len(),
        }
    }

    /// Whether there are none.
    pub fn is_empty(&self) -> bool
        ensures { result ≡ (length self.now == 0) }
    {
        self.newest().is_none()
    }

    /// The first of them, if there is one.
    pub fn newest(&self) -> Option<u64>
        ensures { result ≡ slice_get self.now 0 }
    {
        match &self.kind {
            Kind::One(seq) => Some(*seq),
            Kind::Few(list) => list.as_slice().first().copied(),
            Kind::Shared(share) => share.ahead().next(),
        }
    }

    /// The newest of falling sequences at or below a number, if there is one.
    ///
    /// If they are shared, it searches a number of lists logarithmic in the number of fragments.
    pub fn newest_at_or_below(&self, at: u64) -> Option<u64>
        requires { IsFalling self.now }
        ensures { result ≡ newest.newest_at_or_below at self.now }
    {
        match &self.kind {
            Kind::One(seq) => newest_at_or_below(slice::from_ref(seq), at),
            Kind::Few(list) => newest_at_or_below(list.as_slice(), at),
            Kind::Shared(share) => share.newest_at_or_below(at),
        }
    }

    /// Whether each is above the next. Shared ones always are.
    pub fn are_falling(&self) -> bool
        ensures { IsTrue result ↔ IsFalling self.now }
    {
        match &self.kind {
            Kind::One(seq) => are_falling(slice::from_ref(seq)),
            Kind::Few(list) => are_falling(list.as_slice()),
            Kind::Shared(share) => {
                share.recall_falling();
                true
            }
        }
    }

    /// The sequences as a vector.
    pub fn to_vec(&self, alloc: Global) -> Result<Vec<u64>, AllocError>
        ensures { IfOk result (λ seqs. seqs.items ≡ self.now) }
    {
        match &self.kind {
            Kind::One(seq) => Ok(slice::from_ref(seq).to_vec(alloc)?),
            Kind::Few(list) => Ok(list.as_slice().to_vec(alloc)?),
            Kind::Shared(share) => share.ahead().to_vec(alloc),
        }
    }

    /// Whether these are the sequences.
    fn are(&self, seqs: &[u64]) -> bool
        ensures { IsTrue result ↔ (self.now ≡ seqs.now) }
    {
        match &self.kind {
            Kind::One(seq) => are_equal(slice::from_ref(seq), seqs),
            Kind::Few(list) => are_equal(list.as_slice(), seqs),
            Kind::Shared(share) => are_ahead(share.ahead(), seqs),
        }
    }

    /// Whether these shared ones are the sequences.
    fn are_shared(&self, share: &Share) -> bool
        ensures { IsTrue result ↔ (self.now ≡ share.now) }
    {
        match &self.kind {
            Kind::One(seq) => are_ahead(share.ahead(), slice::from_ref(seq)),
            Kind::Few(list) => are_ahead(share.ahead(), list.as_slice()),
            Kind::Shared(other) => are_alike(other.ahead(), share.ahead()),
        }
    }

    /// Whether both have the same sequences.
    pub(crate) fn is_same(&self, other: &Seqs) -> bool
        ensures { IsTrue result ↔ (self.now ≡ other.now) }
    {
        match &other.kind {
            Kind::One(seq) => self.are(slice::from_ref(seq)),
            Kind::Few(list) => self.are(list.as_slice()),
            Kind::Shared(share) => self.are_shared(share),
        }
    }
}

impl Clone for Seqs {
    ghost is_clone = { λ seqs copy. copy ≡ seqs };

    /// The same sequences again; shared ones stay shared.
    fn clone(&self) -> Result<Seqs, AllocError>
        ensures { IfOk result (λ copy. copy ≡ self.now) }
    {
        Ok(Seqs {
            kind: match &self.kind {
                Kind::One(seq) => Kind::One(*seq),
                Kind::Few(list) => Kind::Few(list.again()?),
                Kind::Shared(share) => Kind::Shared(share.again()?),
            },
        })
    }
}

impl PartialEq for Seqs {
    ghost eq = { same_seqs };

    ghost laws = { Prim.search (comparing, rules) };

    fn eq(&self, other: &Seqs) -> bool {
        self.is_same(other)
    }
}

impl Eq for Seqs {
    ghost laws = { Prim.search (comparing, rules) };
}
