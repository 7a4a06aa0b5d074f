//! [`Op`]: one change to the store.
ghost use Rattle.std.specs.Prelude.{◌≡◌, IfOk};

use crate::bytes::Bytes;
use std::alloc::AllocError;

/// One change to the store, as in RocksDB's `WriteBatch`.
///
/// Keys are ordered by their bytes. A read of a key combines a merge operand with the next older value of the key (RocksDB wiki, "Merge
/// Operator"). A range deletion covers the keys at or above `begin` and below `end` (RocksDB wiki, "DeleteRange"). It covers no key if
/// `begin` isn't below `end`.
#[derive(Debug, PartialEq, Eq, Drop)]
pub enum Op {
    /// Sets a key (first) to a value (second).
    Put(Bytes, Bytes),
    /// Deletes a key.
    Delete(Bytes),
    /// Merges an operand (second) into a key (first).
    Merge(Bytes, Bytes),
    /// Deletes all keys from `begin` (first), inclusive, to `end` (second), exclusive.
    DeleteRange(Bytes, Bytes),
}

impl Clone for Op {
    /// Returns a copy. Fails if allocation fails.
    fn clone(&self) -> Result<Op, AllocError>
        ensures { IfOk result (λ copy. copy ≡ self.now) }
    {
        Ok(match self {
            Op::Put(key, value) => Op::Put(key.clone()?, value.clone()?),
            Op::Delete(key) => Op::Delete(key.clone()?),
            Op::Merge(key, operand) => Op::Merge(key.clone()?, operand.clone()?),
            Op::DeleteRange(begin, end) => Op::DeleteRange(begin.clone()?, end.clone()?),
        })
    }
}
