//! [`Gathered`]: buffers for the bytes of an input.
ghost use Rattle.std.specs.Prelude.{◌≡◌, ◌++◌, [], ℕ, List, length, OnOk};

use std::alloc::{AllocError, Global};
use uc_batch::Pieces;

/// A buffer for the bytes of an input as they are read: a list in one piece for a program that needs all of it, or [`Pieces`] for
/// one that reads it once.
pub trait Gathered {
    /// The bytes that it has.
    ghost bytes: { Self → List ℕ };

    /// None.
    fn empty(alloc: Global) -> Self
        ensures { bytes result ≡ [] };

    /// The number of bytes.
    fn size(&self) -> usize
        ensures { result ≡ length (bytes self.now) };

    /// Adds bytes after those that are there. After an `Err` some of them may be there.
    fn add(&mut self, alloc: Global, more: &[u8]) -> Result<(), AllocError>
        ensures { OnOk result (bytes self.new ≡ bytes self.old ++ more.now) };
}

impl Gathered for Vec<u8> {
    ghost bytes = { λ v. v.items };

    fn empty(alloc: Global) -> Vec<u8> {
        Vec::new(alloc)
    }

    fn size(&self) -> usize {
        self.as_slice().len()
    }

    fn add(&mut self, _alloc: Global, more: &[u8]) -> Result<(), AllocError> {
        self.extend_from_slice(more)
    }
}

impl Gathered for Pieces {
    ghost bytes = { λ pieces. pieces };

    fn empty(alloc: Global) -> Pieces {
        Pieces::new(alloc)
    }

    fn size(&self) -> usize {
        self.len()
    }

    fn add(&mut self, alloc: Global, more: &[u8]) -> Result<(), AllocError> {
        self.push_bytes(alloc, more)
    }
}
