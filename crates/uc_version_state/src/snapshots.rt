//! Snapshots: sequences that become keeps, and keeps that are released.
ghost use Rattle.std.specs.Prelude.{◌≡◌, ◌↔◌, Contains, IsTrue, IfOk, OnOk, OnErr};
ghost use Rattle.std.specs.List.Sorted.{IsStrictlySortedBy};
ghost use Rattle.std.specs.Ordering.{nat_cmp};
ghost use Rattle.uc_version_state.specs.Snapshots as snapshots;

use crate::placed::push_shared;
use crate::version::Version;
use std::alloc::{AllocError, Global};

/// Whether a sequence is among keeps, which rise. It searches by halves.
pub(crate) fn is_among(keeps: &[u64], seq: u64) -> bool
    requires { IsStrictlySortedBy nat_cmp keeps.now }
    ensures { IsTrue result ↔ Contains keeps.now seq }
{
    keeps.binary_search(&seq).is_ok()
}

/// Appends a sequence to keeps, which rise, if it isn't among them. An `Err` changes nothing.
fn push_keep(keeps: &mut Vec<u64>, seq: u64) -> Result<(), AllocError>
    requires { IsStrictlySortedBy nat_cmp keeps.old.items }
    ensures ok { OnOk result (keeps.new.items ≡ snapshots.with_keep seq keeps.old.items) }
    ensures err { OnErr result (keeps.new.items ≡ keeps.old.items) }
{
    if !is_among(keeps, seq) {
        keeps.push(seq)?;
    }
    Ok(())
}

/// Takes a sequence out of keeps.
fn take_out(keeps: &mut Vec<u64>, seq: u64)
    ensures { keeps.new.items ≡ snapshots.without_keep seq keeps.old.items }
{
    keeps.retain(|keep| *keep != seq);
}

impl Version {
    /// The version again. It shares the runs.
    pub fn shared(&self, alloc: Global) -> Result<Version, AllocError>
        ensures { IfOk result (λ again. again ≡ self.now) }
    {
        self.recall();
        let mut runs = Vec::with_capacity(alloc, self.runs.len())?;
        push_shared(&mut runs, &self.runs)?;
        let keeps = self.keeps.to_vec(alloc)?;
        Ok(Version::new(runs, keeps, self.last, self.next_id, self.limit()))
    }

    /// The version after its last sequence was kept, as a new one that shares the runs.
    pub fn kept(&self, alloc: Global) -> Result<Version, AllocError>
        ensures { IfOk result (λ version. version ≡ snapshots.kept self.now) }
    {
        let mut next = self.shared(alloc)?;
        next.keep()?;
        Ok(next)
    }

    /// The version after a keep was released, as a new one that shares the runs.
    pub fn released(&self, alloc: Global, seq: u64) -> Result<Version, AllocError>
        ensures { IfOk result (λ version. version ≡ snapshots.released seq self.now) }
    {
        let mut next = self.shared(alloc)?;
        next.release(seq);
        Ok(next)
    }

    /// Whether a sequence is a keep. It searches by halves.
    pub fn is_kept(&self, seq: u64) -> bool
        ensures { IsTrue result ↔ Contains self.now.keeps seq }
    {
        self.recall();
        is_among(self.keeps(), seq)
    }

    /// Makes the last sequence a keep, if it isn't one. An `Err` changes nothing.
    pub fn keep(&mut self) -> Result<(), AllocError>
        ensures ok { OnOk result (self.new ≡ snapshots.kept self.old) }
        ensures err { OnErr result (self.new ≡ self.old) }
    {
        self.recall();
        push_keep(&mut self.keeps, self.last)
    }

    /// Makes a sequence a keep no more.
    pub fn release(&mut self, seq: u64)
        ensures { self.new ≡ snapshots.released seq self.old }
    {
        self.recall();
        take_out(&mut self.keeps, seq);
    }
}
