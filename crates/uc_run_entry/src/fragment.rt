//! [`Fragment`]: a piece of the key space with the range deletions over it.
ghost use Rattle.std.specs.Prelude.{◌≡◌, ◌↔◌, ◌<◌, ◌+◌, length, IsTrue, IfOk};
ghost use Rattle.std.specs.Arc.{arc_value};
ghost use Rattle.std.proofs.Common.{rules};
ghost use Rattle.std.specs.Cmp.Rules.{comparing};
ghost use Rattle.uc_run_entry.specs.Fragment.{fragment_between, same_fragment};
ghost use Rattle.uc_run_entry.specs.Shared.{ends_of};

use crate::Seqs;
use crate::lists::Lists;
use std::alloc::{AllocError, Global};
use std::marker::Model;
use std::sync::Arc;

/// The range deletions over the keys from its begin to below its end: each covers all of these keys (RocksDB's fragmented range
/// tombstones: RocksDB wiki, "DeleteRange"). A contract sees both ends and the sequences of the range deletions, the newest first.
///
/// Fragments share the cut points that they lie between: one takes 40 bytes, and 8 for its end besides the key's bytes.
#[derive(Drop)]
pub struct Fragment {
    cuts: Arc<Lists<u8>>,
    first: usize,
    seqs: Seqs,
}

impl Model for Fragment {
    ghost use Rattle.std.specs.Prelude.{◌<◌, ◌+◌, length};
    ghost use Rattle.std.specs.Arc.{arc_value};
    ghost use Rattle.uc_run_entry.specs.Fragment as seen;
    ghost use Rattle.uc_run_entry.specs.Fragment.{fragment_between};

    ghost Value = { seen.Fragment };

    ghost view = { λ f. fragment_between (arc_value f.cuts) f.first f.seqs };

    ghost invariant = { λ f. f.first + 1 < length (arc_value f.cuts) };
}

impl Fragment {
    /// The keys from a cut point to below the next one, with sequences. It doesn't allocate.
    pub fn new(cuts: Arc<Lists<u8>>, first: usize, seqs: Seqs) -> Fragment
        requires { first + 1 < length (arc_value cuts) }
        ensures { result ≡ fragment_between (arc_value cuts) first seqs }
    {
        Fragment { cuts, first, seqs }
    }

    /// A fragment that shares its ends with no other.
    pub fn alone(
        alloc: Global,
        begin: &[u8],
        end: &[u8],
        seqs: Seqs,
    ) -> Result<Fragment, AllocError>
        ensures { IfOk result (λ fragment. fragment ≡
            record { begin = begin.now; end = end.now; seqs = seqs }) }
    {
        let cuts = Lists::of(alloc, &[begin, end])?;
        Ok(Fragment::new(Arc::new(alloc, cuts)?, 0, seqs))
    }

    /// The least key that is covered.
    pub fn begin(&self) -> &[u8]
        ensures { result.now ≡ self.now.begin }
    {
        self.cuts.list(self.first)
    }

    /// The least key after those that are covered.
    pub fn end(&self) -> &[u8]
        ensures { result.now ≡ self.now.end }
    {
        // Proof step: a number of lists is one that a `usize` holds.
        self.cuts.len();
        self.cuts.list(self.first + 1)
    }

    /// The sequences of the range deletions, the newest first.
    pub fn seqs(&self) -> &Seqs
        ensures { result.now ≡ self.now.seqs }
    {
        &self.seqs
    }

    /// Whether both have the same ends.
    pub(crate) fn has_ends_of(&self, other: &Fragment) -> bool
        ensures { IsTrue result ↔ (ends_of self.now ≡ ends_of other.now) }
    {
        self.begin() == other.begin() && self.end() == other.end()
    }
}

impl Clone for Fragment {
    ghost is_clone = { λ fragment copy. copy ≡ fragment };

    /// A copy, which shares what this one shares.
    fn clone(&self) -> Result<Fragment, AllocError>
        ensures { IfOk result (λ copy. copy ≡ self.now) }
    {
        Ok(Fragment {
            cuts: self.cuts.clone()?,
            first: self.first,
            seqs: self.seqs.clone()?,
        })
    }
}

impl PartialEq for Fragment {
    ghost eq = { same_fragment };

    ghost laws = { Prim.search (comparing, rules) };

    fn eq(&self, other: &Fragment) -> bool {
        self.begin() == other.begin() && self.end() == other.end() && self.seqs == other.seqs
    }
}

impl Eq for Fragment {
    ghost laws = { Prim.search (comparing, rules) };
}
