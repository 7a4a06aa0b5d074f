//! [`Chains`]: labels, and for each the newest place that has it.
ghost use Rattle.std.specs.Prelude.{◌≡◌, ◌<◌, ◌++◌, ◌∷◌, [], length, take, slice_index, OnOk, OnErr};
ghost use Rattle.uc_memtable.specs.Ends.{newest_end};
ghost use Rattle.uc_memtable.specs.Linked.{has_label};

use crate::linking::{bucket_of, link, make_room, newest_labelled, unlink_from};
use std::alloc::{AllocError, Global};
use std::marker::Model;
use uc_run_points::make_small;

/// A list of labels, in which the places of a label are found from the newest on: a hash table whose buckets are chains
/// of falling places. A contract sees it as the labels.
pub(crate) struct Chains {
    /// For each bucket the end of its newest place: the place and 1, or 0 if there is none.
    heads: Vec<usize>,
    labels: Vec<u64>,
    /// For each place the end of the next older place of its bucket.
    before: Vec<usize>,
}

impl Model for Chains {
    ghost use Rattle.std.specs.Prelude.{List, ℕ};
    ghost use Rattle.uc_memtable.specs.HeldLinks.{labels_of, AreLinked};

    ghost Value = { List ℕ };

    ghost view = { labels_of };

    ghost invariant = { AreLinked };
}

impl Drop for Chains {
    fn drop(mut self) {
        make_small(&mut self.heads, size_of::<usize>());
        make_small(&mut self.labels, size_of::<u64>());
        make_small(&mut self.before, size_of::<usize>());
        let Chains {
            heads: _,
            labels: _,
            before: _,
        } = self;
    }
}

impl Chains {
    /// No labels. It doesn't allocate.
    pub(crate) fn new(alloc: Global) -> Chains
        ensures { result ≡ [] }
    {
        Chains {
            heads: Vec::new(alloc),
            labels: Vec::new(alloc),
            before: Vec::new(alloc),
        }
    }

    /// Appends a label, in constant time, amortized. An `Err` changes nothing.
    pub(crate) fn push(&mut self, label: u64) -> Result<(), AllocError>
        ensures ok { OnOk result (self.new ≡ self.old ++ label ∷ []) }
        ensures err { OnErr result (self.new ≡ self.old) }
    {
        // The steps that can fail come first.
        self.labels.reserve(1)?;
        self.before.reserve(1)?;
        make_room(&mut self.heads, &mut self.before, &self.labels)?;
        let place = self.labels.len();
        self.labels.push(label)?;
        self.before.push(0)?;
        link(&mut self.heads, &mut self.before, &self.labels, place);
        Ok(())
    }

    /// Keeps the first labels, and forgets those after them. It takes no memory.
    pub(crate) fn truncate(&mut self, count: usize)
        ensures { self.new ≡ take count self.old }
    {
        if count < self.labels.len() {
            unlink_from(&mut self.heads, &self.before, &self.labels, count);
            self.labels.truncate(count);
            self.before.truncate(count);
        }
    }

    /// The end of the newest place that has the label, or 0 if none has.
    pub(crate) fn newest(&self, label: u64) -> usize
        ensures { result ≡ newest_end (has_label self.now label) (length self.now) }
    {
        if self.heads.is_empty() {
            return 0;
        }
        let head = self.heads[bucket_of(label, self.heads.len())];
        newest_labelled(&self.labels, &self.before, label, head)
    }

    /// The end of the newest place below this one that has the same label, or 0 if none has.
    pub(crate) fn next_older(&self, place: usize) -> usize
        requires { place < length self.now }
        ensures { result ≡ newest_end (has_label self.now (slice_index self.now place)) place }
    {
        newest_labelled(
            &self.labels,
            &self.before,
            self.labels[place],
            self.before[place],
        )
    }
}
