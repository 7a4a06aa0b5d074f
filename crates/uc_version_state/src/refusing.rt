//! Refusals of an install.
ghost use Rattle.std.specs.Prelude.{◌≡◌, ◌↔◌, [], IsTrue, IfSome, IfNone};
ghost use Rattle.uc_oper.specs.Operation.{Operation};
ghost use Rattle.uc_version_state.specs.Installs.{KeepsKnown, MayInstall, NothingBelow, behind};
ghost use Rattle.uc_version_state.specs.Refusals as refusals;
ghost use Rattle.uc_version_state.specs.Refusals.{AreReplaceable, IsRefused, IsMade, IsInstallRefused, terms_in};

use crate::install::Install;
use crate::placed::Placed;
use crate::refusal::Refusal;
use crate::snapshots::is_among;
use crate::standing::{are_in_place, newest_id, place_of};
use crate::terms::Terms;
use crate::version::Version;

/// Whether no run comes after the ones of these ids: as many runs as there are ids, from the one with the newest id on.
fn are_last(runs: &[Placed], ids: &[u64]) -> bool
    ensures { IsTrue result ↔ (behind ids.now runs.now ≡ []) }
{
    runs.len() - place_of(runs, newest_id(ids)) <= ids.len()
}

/// Whether no run comes after the inputs of a compaction of the oldest run.
fn is_nothing_below(runs: &[Placed], ids: &[u64], terms: &Terms) -> bool
    ensures { IsTrue result ↔ NothingBelow (behind ids.now runs.now) terms.now }
{
    !terms.oldest || are_last(runs, ids)
}

/// Whether a compaction wasn't made for a keep below the greatest sequence of its inputs. It searches by halves.
fn is_unknown(terms: &Terms, keep: u64) -> bool
    ensures { result ≡ refusals.is_unknown terms.now keep }
{
    keep < terms.high && !is_among(terms.keeps, keep)
}

/// The first of some keeps that a compaction wasn't made for.
fn first_unknown(terms: &Terms, keeps: &[u64]) -> Option<u64>
    ensures first { result ≡ refusals.first_unknown terms.now keeps.now }
    ensures none { IfNone result (KeepsKnown keeps.now terms.now) }
{
    for &keep in keeps {
        if is_unknown(terms, keep) {
            return Some(keep);
        }
    }
    None
}

impl Version {
    /// The first reason why the runs with these ids may not be replaced by what was compacted under these terms, or
    /// `None`. It compares no points and doesn't allocate.
    pub fn replace_refusal(&self, ids: &[u64], terms: &Terms) -> Option<Refusal>
        ensures none { IfNone result (AreReplaceable self.now ids.now terms.now) }
        ensures some { IfSome result (λ refusal. IsRefused self.now ids.now terms.now refusal) }
    {
        let runs = self.runs();
        if !is_nothing_below(runs, ids, terms) {
            return Some(Refusal::OlderBehind);
        }
        if let Some(keep) = first_unknown(terms, self.keeps()) {
            return Some(Refusal::UnknownKeep(keep));
        }
        if !are_in_place(runs, ids) {
            return Some(Refusal::NotInPlace);
        }
        if self.next_id() == u64::MAX {
            return Some(Refusal::IdsSpent);
        }
        None
    }

    /// The first reason why an install's runs may not be replaced, or `None`.
    fn terms_refusal(&self, install: &Install) -> Option<Refusal>
        ensures none { IfNone result (AreReplaceable self.now install.now.ids (terms_in install.now)) }
        ensures some { IfSome result (λ refusal. IsRefused self.now install.now.ids (terms_in install.now) refusal) }
    {
        install.recall();
        let high = install.output().high_seq();
        let terms = Terms::new(install.keeps(), install.oldest(), high);
        self.replace_refusal(install.ids(), &terms)
    }

    /// The first reason against the install, or `None`. `None` leaves one thing unchecked: that the output was compacted
    /// from these inputs. It compares no points and doesn't allocate.
    pub fn refusal(&self, install: &Install) -> Option<Refusal>
        ensures none { IfNone result ((m : Operation) → IsMade m self.now install.now → MayInstall m self.now install.now) }
        ensures some { IfSome result (λ refusal. IsInstallRefused self.now install.now refusal) }
    {
        install.recall();
        self.terms_refusal(install)
    }
}
