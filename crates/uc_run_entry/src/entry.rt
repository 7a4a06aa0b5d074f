//! [`Entry`]: a point of a run, and [`What`] it says of its key.
ghost use Rattle.std.specs.Prelude.{◌≡◌, IfOk};

use std::alloc::AllocError;
use uc_bytes::Bytes;

/// The change that a point makes to its key.
#[derive(Debug, PartialEq, Eq, Drop)]
pub enum What {
    /// The key has this value.
    Put(Bytes),
    /// The key has no value.
    Delete,
    /// The key's value is combined with this operand (RocksDB wiki, "Merge Operator").
    Merge(Bytes),
}

impl Clone for What {
    ghost is_clone = { λ what copy. copy ≡ what };

    /// A copy.
    fn clone(&self) -> Result<What, AllocError>
        ensures { IfOk result (λ copy. copy ≡ self.now) }
    {
        Ok(match self {
            What::Put(value) => What::Put(value.clone()?),
            What::Delete => What::Delete,
            What::Merge(operand) => What::Merge(operand.clone()?),
        })
    }
}

/// A point of a run: one change of one key.
#[derive(Debug, PartialEq, Eq, Drop)]
pub struct Entry {
    /// The key that it changes.
    pub key: Bytes,
    /// Its place in the order of all writes, from 1 to 2^56 - 1.
    pub seq: u64,
    /// The change to the key.
    pub what: What,
}

impl Clone for Entry {
    ghost is_clone = { λ point copy. copy ≡ point };

    /// A copy.
    fn clone(&self) -> Result<Entry, AllocError>
        ensures { IfOk result (λ copy. copy ≡ self.now) }
    {
        Ok(Entry {
            key: self.key.clone()?,
            seq: self.seq,
            what: self.what.clone()?,
        })
    }
}
