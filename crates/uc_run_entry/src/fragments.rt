//! [`Fragments`]: the fragments of a run.
ghost use Rattle.std.specs.Prelude.{◌≡◌, ◌↔◌, ◌-◌, IsTrue, IfOk, length, map, option_map};
ghost use Rattle.std.specs.Arc.{arc_value};
ghost use Rattle.uc_run_entry.specs.Shared.{ends_of, AreOfSame};
ghost use Rattle.uc_run_entry.specs.Cutting.{pieces};
ghost use Rattle.uc_run_entry.specs.Spanning as spanning;
ghost use Rattle.uc_run_entry.specs.Spanning.{some_of, with_seqs};

use crate::fragment::Fragment;
use crate::freeing::make_small;
use crate::lists::Lists;
use crate::{Seqs, Spans};
use std::alloc::{AllocError, Global};
use std::marker::Model;
use std::sync::Arc;

/// A fragment with at most this many sequences has them in a list: they take little memory, and are searched faster than
/// spans.
pub(crate) const FEW: u64 = 8;

/// Fragments, and the spans that those with many sequences share. A contract sees the list of the fragments.
pub struct Fragments {
    list: Vec<Fragment>,
    spans: Option<Arc<Spans>>,
}

impl Model for Fragments {
    ghost use Rattle.std.specs.Prelude.{List};
    ghost use Rattle.uc_run_entry.specs.Fragment.{Fragment};
    ghost use Rattle.uc_run_entry.specs.Shared.{AreShared};

    ghost Value = { List Fragment };

    ghost view = { λ f. f.list.items };

    ghost invariant = { AreShared };
}

// A destructor of its own: where a value is dropped, the proof of a caller has one call, and not one for each field.
impl Drop for Fragments {
    fn drop(mut self) {
        make_small(&mut self.list, size_of::<Fragment>());
        let Fragments { list: _, spans: _ } = self;
    }
}

/// Whether fragments have equal ends.
fn same_ends(fragments: &[Fragment], others: &[Fragment]) -> bool
    ensures { IsTrue result ↔ (map ends_of fragments.now ≡ map ends_of others.now) }
{
    fragments.len() == others.len()
        && fragments
            .iter()
            .zip(others)
            .all(|(fragment, other)| fragment.has_ends_of(other))
}

/// Whether both have spans, and their lists are the same.
fn have_same(spans: &Option<Arc<Spans>>, others: &Option<Arc<Spans>>) -> bool
    ensures { IsTrue result → AreOfSame (option_map arc_value spans.now) (option_map arc_value others.now) }
{
    let Some(spans) = spans else { return false };
    let Some(others) = others else { return false };
    spans.is_same(others)
}

/// Whether fragments are equal, one by one.
fn same_one_by_one(fragments: &[Fragment], others: &[Fragment]) -> bool
    ensures { IsTrue result ↔ (fragments.now ≡ others.now) }
{
    fragments == others
}

impl Fragments {
    /// One fragment for each piece between neighbouring cut points whose list has sequences.
    pub fn of_lists(
        alloc: Global,
        cuts: &Arc<Lists<u8>>,
        lists: &Arc<Lists<u64>>,
    ) -> Result<Fragments, AllocError>
        requires { length (arc_value lists.now) ≡ length (arc_value cuts.now) - 1 }
        ensures { IfOk result (λ fragments. fragments ≡
            spanning.covered (with_seqs (pieces (arc_value cuts.now)) (arc_value lists.now))) }
    {
        let mut list = Vec::new(alloc);
        for piece in 0..lists.len() {
            if !lists.list(piece).is_empty() {
                let seqs = Seqs::listed(lists, piece)?;
                list.push(Fragment::new(cuts.clone()?, piece, seqs))?;
            }
        }
        Ok(Fragments::from(list))
    }

    /// Fragments whose sequences are those of the pieces of the spans that have some.
    ///
    /// The spans are kept only if a fragment shares them.
    pub(crate) fn with_spans(list: Vec<Fragment>, spans: Arc<Spans>) -> Fragments
        requires { map (λ f. f.seqs) list.items ≡ some_of (arc_value spans) }
        ensures { result ≡ list.items }
    {
        let is_shared = list.iter().any(|fragment| fragment.seqs().len() > FEW);
        Fragments {
            list,
            spans: if is_shared { Some(spans) } else { None },
        }
    }

    /// The fragments.
    pub fn as_slice(&self) -> &[Fragment]
        ensures { result.now ≡ self.now }
    {
        &self.list
    }

    /// Whether the fragments are equal.
    ///
    /// If both share spans, it compares the fragments' ends and the spans. Otherwise, or if the spans differ, it
    /// compares fragment by fragment, up to the first that differs.
    pub fn same(&self, other: &Fragments) -> bool
        ensures { IsTrue result ↔ (self.now ≡ other.now) }
    {
        if have_same(&self.spans, &other.spans) {
            same_ends(&self.list, &other.list)
        } else {
            same_one_by_one(&self.list, &other.list)
        }
    }
}

impl From<Vec<Fragment>> for Fragments {
    ghost from_gives = { λ list fragments. fragments ≡ list.items };

    /// Takes over the fragments as they are, without allocating.
    fn from(list: Vec<Fragment>) -> Fragments {
        Fragments { list, spans: None }
    }
}
