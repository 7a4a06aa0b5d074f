//! [`Share`]: a version as one reader's pins hold it, and [`Shares`], one for each reader.
ghost use Rattle.std.specs.Prelude.{◌≡◌, IfOk};
ghost use Rattle.std.specs.Arc.{arc_value};

use crossbeam_utils::CachePadded;
use std::alloc::{AllocError, Global};
use std::marker::Model;
use std::sync::Arc;
use uc_version_state::Version;

/// A version as the pins of one reader hold it. They count themselves here and not at the version, so that readers which pin at
/// once don't write the same line of memory (RocksDB keeps a `SuperVersion` for each thread for that reason). Contracts see the
/// version.
#[derive(Drop)]
pub(crate) struct Share {
    version: Arc<CachePadded<Arc<Version>>>,
}

impl Model for Share {
    ghost use Rattle.std.specs.Arc.{arc_value};
    ghost use Rattle.crossbeam_utils.specs.Padded.{padded_value};
    ghost use Rattle.uc_version_state.specs.Versions.{Stored};

    ghost Value = { Stored };

    ghost view = { λ s. arc_value (padded_value (arc_value s.version)) };
}

impl Share {
    /// A share of a version.
    fn new(alloc: Global, version: Arc<Version>) -> Result<Share, AllocError>
        ensures { IfOk result (λ share. share ≡ arc_value version) }
    {
        Ok(Share {
            version: Arc::new(alloc, CachePadded::new(version))?,
        })
    }

    /// Another handle to the same share. Fails only if it has too many owners.
    pub(crate) fn again(&self) -> Result<Share, AllocError>
        ensures { IfOk result (λ share. share ≡ self.now) }
    {
        Ok(Share {
            version: self.version.clone()?,
        })
    }

    /// The version.
    pub(crate) fn version(&self) -> &Version
        ensures { result.now ≡ self.now }
    {
        &self.version
    }
}

/// A version, with a share for each reader. Contracts see the version.
#[derive(Drop)]
pub(crate) struct Shares {
    first: Share,
    others: Vec<Share>,
}

impl Model for Shares {
    ghost use Rattle.std.specs.Prelude.{◌≡◌};
    ghost use Rattle.std.specs.List.{AllByRecursion};
    ghost use Rattle.uc_version_state.specs.Versions.{Stored};

    ghost Value = { Stored };

    ghost view = { λ s. s.first };

    ghost invariant = { λ s. AllByRecursion (λ share. share ≡ s.first) s.others.items };
}

impl Shares {
    /// A version, with a share for each of `readers` readers.
    pub(crate) fn new(
        alloc: Global,
        version: Arc<Version>,
        readers: usize,
    ) -> Result<Shares, AllocError>
        ensures { IfOk result (λ shares. shares ≡ arc_value version) }
    {
        let mut others = Vec::with_capacity(alloc, readers)?;
        for _ in 0..readers {
            others.push(Share::new(alloc, version.clone()?)?)?;
        }
        let first = Share::new(alloc, version)?;
        Ok(Shares { first, others })
    }

    /// The number of readers that have a share of their own.
    pub(crate) fn readers(&self) -> usize {
        self.others.len()
    }

    /// The version.
    pub(crate) fn version(&self) -> &Version
        ensures { result.now ≡ self.now }
    {
        self.first.version()
    }

    /// The share of the reader with this number. Readers beyond those that it was made for have one together.
    pub(crate) fn of(&self, number: usize) -> &Share
        ensures { result.now ≡ self.now }
    {
        self.others.get(number).unwrap_or(&self.first)
    }
}
