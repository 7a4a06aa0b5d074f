//! [`View`]: the contents of a live store at one point in time.
ghost use Rattle.std.specs.Prelude.{◌≡◌, IfOk, length, reverse};
ghost use Rattle.uc_batch.specs.Rising.{IsRising};
ghost use Rattle.uc_model.specs.Meaning.{value_of};
ghost use Rattle.uc_query_read.specs.Answers.{answer_of, first_rows, named_keys};
ghost use Rattle.uc_query_read.specs.declared.query.Query.TheVariants as queries;
ghost use Rattle.uc_rows.specs.Laying.{AreLaid};
ghost use Rattle.uc_live.specs.Sources.{source_of};
ghost use Rattle.uc_live.specs.Views as views;
ghost use Rattle.uc_live.specs.Views.{seen_in};

use crate::last_reads::{
    last_rows, last_sequence, last_value, lay_rows, lay_rows_back, lay_sorted_rows,
    lay_sorted_rows_back, sorted, sorted_rows,
};
use crate::live_store::LiveStore;
use crate::lookup_source::{LookupSource, last_source};
use std::alloc::{AllocError, Global};
use std::marker::{Model, PhantomData};
use std::sync::Arc;
use uc_bytes::Bytes;
use uc_memtable::FlushableMemtables;
use uc_model::later_writes_change_nothing;
use uc_oper::{Operator, ValueRef, owned_value};
use uc_query_read::{Answer, Laid, Query, Rows, answer_one, equal_values_give_equal_answers, get};
use uc_run::Run;
use uc_version::Version;

/// The parts of a view, which it shares.
#[derive(Drop)]
struct ViewParts {
    version: Version,
    gathered: FlushableMemtables,
}

/// The contents of a live store at one point in time. They never change, whatever is written to the store, flushed and compacted,
/// even when the store is dropped. Threads share it: each read only reads.
pub struct View<O: Operator> {
    parts: Arc<ViewParts>,
    /// The run of the writes in memtables, if [`sort`](View::sort) has made it.
    sorted: Option<Arc<Run>>,
    operator: PhantomData<O>,
}

impl<O: Operator> Model for View<O> {
    ghost use Rattle.uc_live.specs.Views.{Seen};
    ghost use Rattle.uc_live.specs.HeldViews.{seen, IsSeen};

    ghost Value = { Seen };

    ghost view = { seen };

    ghost invariant = { IsSeen };
}

// A destructor of its own: where a value is dropped, the proof of a caller has one call, and not one for each field.
impl<O: Operator> Drop for View<O> {
    fn drop(self) {
        let View {
            parts: _,
            sorted: _,
            operator: _,
        } = self;
    }
}

impl<O: Operator> LiveStore<O> {
    /// A view of the present contents. It doesn't show a prepared batch, which stays prepared. Flushes nothing. Copies no run, and
    /// of the memtables only what [`FlushableMemtables::share`] says.
    ///
    /// Fails only if allocation fails, and changes nothing then.
    pub fn view(&mut self, alloc: Global) -> Result<View<O>, AllocError>
        ensures view { IfOk result (λ view. view ≡ seen_in self.old) }
        ensures same { self.new ≡ self.old }
    {
        let version = self.owned.version().shared(alloc)?;
        let gathered = self.active.share(alloc)?;
        let parts = Arc::new(alloc, ViewParts { version, gathered })?;
        Ok(View {
            parts,
            sorted: None,
            operator: PhantomData,
        })
    }
}

impl<O: Operator> View<O> {
    /// Another handle to the view, for another thread. It shares all parts, and allocates nothing. Fails if there are 2^63 handles
    /// already.
    pub fn again(&self) -> Result<View<O>, AllocError>
        ensures { IfOk result (λ again. again ≡ self.now) }
    {
        let sorted = match &self.sorted {
            Some(run) => Some(run.clone()?),
            None => None,
        };
        Ok(View {
            parts: self.parts.clone()?,
            sorted,
            operator: PhantomData,
        })
    }

    /// Sorts the writes in memtables, once, so that the scans of this view and of those that are made of it don't. No read changes.
    pub fn sort(&mut self, alloc: Global) -> Result<(), AllocError>
        ensures { self.new ≡ self.old }
    {
        if self.sorted.is_none() && !self.parts.gathered.is_empty() {
            self.sorted = Some(sorted(alloc, &self.parts.gathered)?);
        }
        Ok(())
    }

    /// The runs and snapshots, without the writes in memtables.
    pub fn version(&self) -> &Version
        ensures { result.now ≡ self.now.version }
    {
        &self.parts.version
    }

    /// The last sequence; 0 if nothing was written.
    pub fn last(&self) -> u64
        ensures { result ≡ views.last self.now }
    {
        last_sequence(&self.parts.version, &self.parts.gathered)
    }

    /// The number of writes in memtables.
    pub fn gathered(&self) -> usize
        ensures { result ≡ length self.now.gathered }
    {
        self.parts.gathered.len()
    }

    /// The invariant of every view: writes in memtables are newer than the runs. Proof step: does nothing when it runs.
    pub fn recall(&self)
        ensures { IsRising self.now.version.last self.now.gathered }
    {
        let _ = &self.parts;
    }

    /// The value that a key has at the last sequence, if it has one, in memory of its own. It is found as
    /// [`get_ref`](View::get_ref) does.
    pub fn get(&self, alloc: Global, key: &[u8]) -> Result<Option<Bytes>, AllocError>
        ensures { IfOk result (λ value.
            value ≡ value_of O.meaning (views.writes_of self.now) key.now (views.last self.now)) }
    {
        let value = self.get_ref(alloc, key)?;
        owned_value(alloc, value)
    }

    /// The value that a key has at the last sequence, if it has one, as [`LiveStore::get_ref`] finds it. One that was put,
    /// and that nothing is merged into, stays where it is.
    pub fn get_ref(&self, alloc: Global, key: &[u8]) -> Result<Option<ValueRef<'_>>, AllocError>
        ensures { IfOk result (λ value.
            value ≡ value_of O.meaning (views.writes_of self.now) key.now (views.last self.now)) }
    {
        last_value::<O>(alloc, &self.parts.version, &self.parts.gathered, key)
    }

    /// Where [`get`](View::get) finds what it answers of a key, as [`LiveStore::source`] says it.
    pub fn source(&self, alloc: Global, key: &[u8]) -> Result<LookupSource, AllocError>
        ensures { IfOk result (λ source. source ≡ source_of self.now key.now) }
    {
        last_source::<O>(alloc, &self.parts.version, &self.parts.gathered, key)
    }

    /// Looks a key up at a sequence. The answer is a value, if the key has one, or `NotProtected` if no snapshot was at
    /// the sequence.
    pub fn get_at(&self, alloc: Global, key: &[u8], at: u64) -> Result<Answer, AllocError>
        ensures { IfOk result (λ answer.
            answer ≡ answer_of O.meaning (views.writes_of self.now) self.now.version.keeps (queries.Get key.now at)) }
    {
        later_writes_change_nothing::<O>();
        equal_values_give_equal_answers::<O>();
        let version = &self.parts.version;
        version.recall();
        get::<O>(alloc, version, key, at)
    }

    /// The first rows, at most `limit`, of the keys from `low` to below `high`, or to the last one if `high` is `None`, at the last
    /// sequence number.
    ///
    /// A scan sorts the writes in memtables, unless they are [sorted](View::sort).
    pub fn scan(
        &self,
        alloc: Global,
        low: &[u8],
        high: &Option<Bytes>,
        limit: u64,
    ) -> Result<Rows, AllocError>
        ensures { IfOk result (λ rows.
            rows ≡ first_rows O.meaning (views.writes_of self.now) (views.last self.now) limit
            (named_keys (views.writes_of self.now) low.now high.now)) }
    {
        let parts = &self.parts;
        match &self.sorted {
            Some(run) => {
                let newer = run.clone()?;
                sorted_rows::<O>(
                    alloc,
                    &parts.version,
                    &parts.gathered,
                    newer,
                    low,
                    high,
                    limit,
                )
            }
            None => last_rows::<O>(alloc, &parts.version, &parts.gathered, low, high, limit),
        }
    }

    /// Copies the rows of a [scan](View::scan) to a buffer, one after the other, as far as they fit.
    pub fn lay_rows(
        &self,
        alloc: Global,
        low: &[u8],
        high: &Option<Bytes>,
        limit: u64,
        room: &mut [u8],
    ) -> Result<Laid, AllocError>
        ensures { IfOk result (AreLaid (first_rows O.meaning (views.writes_of self.now) (views.last self.now) limit
            (named_keys (views.writes_of self.now) low.now high.now)) room.old room.new) }
    {
        let parts = &self.parts;
        let (version, gathered) = (&parts.version, &parts.gathered);
        match &self.sorted {
            Some(run) => {
                let newer = run.clone()?;
                lay_sorted_rows::<O>(alloc, version, gathered, newer, low, high, limit, room)
            }
            None => lay_rows::<O>(alloc, version, gathered, low, high, limit, room),
        }
    }

    /// Copies the last rows, at most `limit`, of the keys from `low` to below `high`, or to the last one if `high` is `None`, at the last
    /// sequence number, to a buffer, one after the other, as far as they fit: the greatest key first. It sorts the writes in memtables as
    /// [`scan`](View::scan) does.
    pub fn lay_rows_back(
        &self,
        alloc: Global,
        low: &[u8],
        high: &Option<Bytes>,
        limit: u64,
        room: &mut [u8],
    ) -> Result<Laid, AllocError>
        ensures { IfOk result (AreLaid (first_rows O.meaning (views.writes_of self.now) (views.last self.now) limit
            (reverse (named_keys (views.writes_of self.now) low.now high.now))) room.old room.new) }
    {
        let parts = &self.parts;
        let (version, gathered) = (&parts.version, &parts.gathered);
        match &self.sorted {
            Some(run) => {
                let newer = run.clone()?;
                lay_sorted_rows_back::<O>(alloc, version, gathered, newer, low, high, limit, room)
            }
            None => lay_rows_back::<O>(alloc, version, gathered, low, high, limit, room),
        }
    }

    /// The answer to a query at a snapshot, or `NotProtected` if no snapshot was at its sequence.
    pub fn answer(&self, alloc: Global, query: &Query) -> Result<Answer, AllocError>
        ensures { IfOk result (λ answer.
            answer ≡ answer_of O.meaning (views.writes_of self.now) self.now.version.keeps query.now) }
    {
        later_writes_change_nothing::<O>();
        equal_values_give_equal_answers::<O>();
        let version = &self.parts.version;
        version.recall();
        answer_one::<O>(alloc, version, query)
    }
}
