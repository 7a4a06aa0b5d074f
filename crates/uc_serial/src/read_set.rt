//! [`ReadSet`]: the reads of a transaction, collected one by one.
ghost use Rattle.std.specs.Prelude.{◌≡◌, ◌++◌, ◌∷◌, ◌↔◌, [], IsTrue, OnOk, OnErr, length};
ghost use Rattle.uc_serial.specs.declared.read.Read.TheVariants.{Key, Range};

use crate::read::Read;
use std::alloc::{AllocError, Global};
use std::marker::Model;
use uc_bytes::Bytes;

/// The reads of a transaction, in their order. A contract sees their list.
#[derive(Drop)]
pub struct ReadSet {
    reads: Vec<Read>,
}

impl Model for ReadSet {
    ghost use Rattle.std.specs.Prelude.{List};
    ghost use Rattle.uc_serial.specs.declared.read.Read.{Read as ReadOf};

    ghost Value = { List ReadOf };

    ghost view = { λ s. s.reads.items };
}

impl ReadSet {
    /// No reads. It doesn't allocate.
    pub fn new(alloc: Global) -> ReadSet
        ensures { result ≡ [] }
    {
        ReadSet {
            reads: Vec::new(alloc),
        }
    }

    /// Adds the read of a key. An `Err` adds nothing.
    pub fn push_key(&mut self, alloc: Global, key: &[u8]) -> Result<(), AllocError>
        ensures ok { OnOk result (self.new ≡ self.old ++ Key key.now ∷ []) }
        ensures err { OnErr result (self.new ≡ self.old) }
    {
        let key = Bytes::from_slice(alloc, key)?;
        self.push(Read::Key(key))
    }

    /// Adds the walk over a range of keys, from `low` to below `high`, or to the last one if `high` is `None`. An `Err` adds nothing.
    pub fn push_range(
        &mut self,
        alloc: Global,
        low: &[u8],
        high: Option<Bytes>,
    ) -> Result<(), AllocError>
        ensures ok { OnOk result (self.new ≡ self.old ++ Range low.now high ∷ []) }
        ensures err { OnErr result (self.new ≡ self.old) }
    {
        let low = Bytes::from_slice(alloc, low)?;
        self.push(Read::Range { low, high })
    }

    /// Adds a read. An `Err` adds nothing.
    fn push(&mut self, read: Read) -> Result<(), AllocError>
        ensures ok { OnOk result (self.new ≡ self.old ++ read ∷ []) }
        ensures err { OnErr result (self.new ≡ self.old) }
    {
        match self.reads.push(read) {
            Ok(()) => Ok(()),
            Err(_) => Err(AllocError),
        }
    }

    /// Removes the reads, and keeps the memory that their list had.
    pub fn clear(&mut self)
        ensures { self.new ≡ [] }
    {
        self.reads.clear();
    }

    /// The number of reads.
    pub fn len(&self) -> usize
        ensures { result ≡ length self.now }
    {
        self.reads.len()
    }

    /// Whether there are none.
    pub fn is_empty(&self) -> bool
        ensures { IsTrue result ↔ (self.now ≡ []) }
    {
        self.reads.is_empty()
    }

    /// The reads.
    pub fn as_slice(&self) -> &[Read]
        ensures { result.now ≡ self.now }
    {
        self.reads.as_slice()
    }
}
