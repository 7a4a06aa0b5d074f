//! The label of a write, by which it is found.
ghost use Rattle.std.specs.Prelude.{◌≡◌};
ghost use Rattle.uc_memtable.specs.Labels as labels;

use uc_bytes::{OpKind, OpRef};
use uc_run::key_hash;

/// The label of all range deletions.
pub(crate) const RANGE_LABEL: u64 = 0;

/// The label of a change: the hash of the key that it names.
pub(crate) fn label_of(op: &OpRef<'_>) -> u64
    ensures { result ≡ labels.label_of op.now }
{
    let (kind, first, _) = op.parts();
    match kind {
        OpKind::Put | OpKind::Delete | OpKind::Merge => key_hash(first),
        OpKind::DeleteRange => RANGE_LABEL,
    }
}

/// Whether a change deletes a range.
pub(crate) fn is_range(op: &OpRef<'_>) -> bool
    ensures { result ≡ labels.is_range op.now }
{
    let (kind, _, _) = op.parts();
    match kind {
        OpKind::Put | OpKind::Delete | OpKind::Merge => false,
        OpKind::DeleteRange => true,
    }
}
