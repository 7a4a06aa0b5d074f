//! [`Sight`]: what a lookup sees of a memtable's writes.
ghost use Rattle.std.specs.Prelude.{◌≡◌};
ghost use Rattle.uc_model.specs.Meaning as meaning;

use uc_bytes::{OpKind, OpRef, WriteRef};
use uc_run::{Memtable, SoughtKey, same_text, text_order};

/// The bearing of a write on the older ones of its key.
#[derive(Clone, Copy)]
pub(crate) enum Bearing {
    /// It merges into what they leave.
    Merges,
    /// Whatever they leave, it is gone.
    Overwrites,
}

/// A lookup of a key at a sequence among the first writes of a memtable.
#[derive(Drop)]
pub(crate) struct Sight<'a, 'k> {
    pub(crate) writes: &'a Memtable,
    /// The number of writes that it may see.
    pub(crate) shown: usize,
    pub(crate) key: &'k SoughtKey<'k>,
    pub(crate) at: u64,
}

/// Whether a change touches a key: it names the key, or deletes a range that holds it.
fn touches_key(op: &OpRef<'_>, key: &[u8]) -> bool
    ensures { result ≡ meaning.touches_key key.now op.now }
{
    let (kind, first, second) = op.parts();
    match kind {
        OpKind::Put | OpKind::Delete | OpKind::Merge => same_text(first, key),
        OpKind::DeleteRange => { text_order(first, key).is_le() && text_order(key, second).is_lt() }
    }
}

impl<'a> Sight<'a, '_> {
    ghost use Rattle.uc_memtable.specs.Sights.{seen_by};

    /// The write at a place, if the lookup sees it.
    pub(crate) fn seen(&self, place: usize) -> Option<WriteRef<'a>>
        ensures { result ≡ seen_by self.now place }
    {
        if self.shown <= place {
            return None;
        }
        let write = self.writes.write(place)?;
        if self.at < write.seq() || !touches_key(write.op(), self.key.key()) {
            return None;
        }
        Some(write)
    }
}
