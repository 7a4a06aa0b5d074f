//! The sequences that a store keeps when it is opened.
ghost use Rattle.std.specs.Prelude.{◌≡◌, ◌∷◌, ◌++◌, [], IfOk};
ghost use Rattle.uc_version_state.specs.Openings.{rising};
ghost use Rattle.uc_version_open.specs.Refusal as refusals;

use std::alloc::{AllocError, Global};
use std::collections::BTreeSet;

/// The first of some keeps that is above the last sequence.
pub(crate) fn first_ahead(keeps: &[u64], last: u64) -> Option<u64>
    ensures { result ≡ refusals.first_ahead last keeps.now }
{
    keeps.iter().copied().find(|keep| last < *keep)
}

/// These sequences and the last one in order, each once.
pub(crate) fn kept(alloc: Global, keeps: &[u64], last: u64) -> Result<Vec<u64>, AllocError>
    ensures { IfOk result (λ kept. kept.items ≡ rising (keeps.now ++ last ∷ [])) }
{
    let mut kept = BTreeSet::new(alloc);
    for keep in keeps {
        kept.insert(*keep)?;
    }
    kept.insert(last)?;
    kept.into_iter().collect(alloc)
}
