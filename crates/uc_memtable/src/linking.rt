//! Chains of places: how they are linked, taken apart, and walked.
ghost use Rattle.std.specs.Prelude.{◌≡◌, ◌<◌, ◌≤◌, ◌+◌, ℕ, length, slice_index, OnOk};
ghost use Rattle.uc_memtable.specs.Ends.{newest_end};
ghost use Rattle.uc_memtable.specs.Linked as linked;
ghost use Rattle.uc_memtable.specs.Linked.{HaveHeads, AreChained, has_label, lies_in};

use std::alloc::AllocError;

/// The number of buckets that the first label makes.
const LEAST_BUCKETS: usize = 16;

/// The bucket of a label, among a power of two of them.
#[inline]
pub(crate) fn bucket_of(label: u64, buckets: usize) -> usize
    requires { 0 < buckets }
    ensures bucket { result ≡ linked.bucket_of buckets label }
    ensures within { result < buckets }
{
    label as usize & (buckets - 1)
}

/// Makes a place the newest of its bucket. All places below it are linked already.
pub(crate) fn link(heads: &mut [usize], before: &mut [usize], labels: &[u64], place: usize)
    requires some { 0 < length heads.old }
    requires within { place < length labels.now }
    requires aligned { length before.old ≡ length labels.now }
    requires heads { HaveHeads heads.old labels.now place }
    requires chained { AreChained (length heads.old) labels.now before.old place }
    ensures heads { HaveHeads heads.new labels.now (place + 1) }
    ensures chained { AreChained (length heads.old) labels.now before.new (place + 1) }
{
    let bucket = bucket_of(labels[place], heads.len());
    before[place] = heads[bucket];
    heads[bucket] = place + 1;
}

/// Links all places, if no bucket has one yet.
fn link_all(heads: &mut [usize], before: &mut [usize], labels: &[u64])
    requires some { 0 < length heads.old }
    requires aligned { length before.old ≡ length labels.now }
    requires heads { HaveHeads heads.old labels.now 0 }
    ensures heads { HaveHeads heads.new labels.now (length labels.now) }
    ensures chained { AreChained (length heads.old) labels.now before.new (length labels.now) }
{
    for place in 0..labels.len() {
        link(heads, before, labels, place);
    }
}

/// Makes space for one more label, if there is none: twice as many buckets, in which all places are linked anew. An `Err` changes
/// nothing.
pub(crate) fn make_room(
    heads: &mut Vec<usize>,
    before: &mut [usize],
    labels: &[u64],
) -> Result<(), AllocError>
    requires aligned { length before.old ≡ length labels.now }
    requires roomy { length labels.now ≤ length heads.old.items }
    requires heads { HaveHeads heads.old.items labels.now (length labels.now) }
    requires chained { AreChained (length heads.old.items) labels.now before.old (length labels.now) }
    ensures room { OnOk result (length labels.now < length heads.new.items) }
    ensures roomy { length labels.now ≤ length heads.new.items }
    ensures heads { HaveHeads heads.new.items labels.now (length labels.now) }
    ensures chained { AreChained (length heads.new.items) labels.now before.new (length labels.now) }
{
    let buckets = heads.len();
    if labels.len() < buckets {
        return Ok(());
    }
    heads.resize((2 * buckets).max(LEAST_BUCKETS), 0)?;
    heads.fill(0);
    link_all(heads, before, labels);
    Ok(())
}

/// Takes the places from a count on out of their chains, the newest first.
pub(crate) fn unlink_from(heads: &mut [usize], before: &[usize], labels: &[u64], count: usize)
    requires some { 0 < length heads.old }
    requires aligned { length before.now ≡ length labels.now }
    requires within { count ≤ length labels.now }
    requires heads { HaveHeads heads.old labels.now (length labels.now) }
    requires chained { AreChained (length heads.old) labels.now before.now (length labels.now) }
    ensures { HaveHeads heads.new labels.now count }
{
    for place in (count..labels.len()).rev() {
        let bucket = bucket_of(labels[place], heads.len());
        heads[bucket] = before[place];
    }
}

/// The end of the newest place of a label at or below an end in its bucket's chain, or 0 if there is none.
pub(crate) fn newest_labelled(labels: &[u64], before: &[usize], label: u64, from: usize) -> usize
    requires aligned { length before.now ≡ length labels.now }
    requires falling { (place : ℕ) → place < length labels.now → slice_index before.now place ≤ place }
    requires within { from ≤ length labels.now }
    ensures { (buckets : ℕ) → AreChained buckets labels.now before.now (length labels.now) →
        newest_end (lies_in buckets labels.now (linked.bucket_of buckets label)) from ≡ from →
        result ≡ newest_end (has_label labels.now label) from }
{
    let mut end = from;
    while end > 0 && labels[end - 1] != label {
        end = before[end - 1];
    }
    end
}
