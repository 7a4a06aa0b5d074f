//! Batches that are prepared only if what a transaction read in a view is as it was.
ghost use Rattle.std.specs.Prelude.{◌≡◌, ◌↔◌, [], None, IsTrue, IfOk, IfErr};
ghost use Rattle.uc_live.specs.Judging.{Declines, value_before, value_now};
ghost use Rattle.uc_live.specs.Lives as lives;
ghost use Rattle.uc_live.specs.Recording.{IsRecorded};
ghost use Rattle.uc_live.specs.Writing.{IsBatchPrepared};
ghost use Rattle.uc_serial.specs.ReadSets.{IsFirstChanged, IsUnchanged};
ghost use Rattle.uc_serial.specs.declared.read.Read.TheVariants.{Key, Range};

use crate::laws::commits_go_on;
use crate::live_store::LiveStore;
use crate::room_error::RoomError;
use crate::transaction_error::TransactionError;
use crate::view::View;
use crate::write_error::WriteError;
use std::alloc::{AllocError, Global};
use uc_bytes::Bytes;
use uc_oper::{Operator, ValueRef};
use uc_query_read::Rows;
use uc_serial::{Read, rows_say_values};

/// Whether two lookups found the same.
fn is_same_value(value: &Option<ValueRef<'_>>, other: &Option<ValueRef<'_>>) -> bool
    ensures { IsTrue result ↔ (value.now ≡ other.now) }
{
    match (value, other) {
        (Some(value), Some(other)) => value.as_slice() == other.as_slice(),
        (None, None) => true,
        (Some(_), None) | (None, Some(_)) => false,
    }
}

/// Whether two scans found the same.
fn are_same_rows(rows: &Rows, others: &Rows) -> bool
    ensures { IsTrue result ↔ (rows.now ≡ others.now) }
{
    rows == others
}

impl<O: Operator> LiveStore<O> {
    /// Whether a key has the value that a view has.
    fn is_unchanged_key<P: Operator>(
        &self,
        alloc: Global,
        view: &View<P>,
        key: &[u8],
    ) -> Result<bool, AllocError>
        ensures { IfOk result (λ is. IsTrue is ↔
            IsUnchanged (value_before P.meaning view.now) (value_now O.meaning self.now) (Key key.now)) }
    {
        let now = self.get_ref(alloc, key)?;
        let before = view.get_ref(alloc, key)?;
        Ok(is_same_value(&now, &before))
    }

    /// Whether each key of a range has the value that a view has. It walks over the range in both.
    fn is_unchanged_range<P: Operator>(
        &self,
        alloc: Global,
        view: &View<P>,
        low: &[u8],
        high: &Option<Bytes>,
    ) -> Result<bool, AllocError>
        ensures { IfOk result (λ is. IsTrue is ↔
            IsUnchanged (value_before P.meaning view.now) (value_now O.meaning self.now) (Range low.now high.now)) }
    {
        rows_say_values::<O, P>();
        let now = self.scan(alloc, low, high, u64::MAX)?;
        let before = view.scan(alloc, low, high, u64::MAX)?;
        let _few = now.len();
        Ok(are_same_rows(&now, &before))
    }

    /// Whether each key that a read covers has the value that a view has.
    fn is_unchanged<P: Operator>(
        &self,
        alloc: Global,
        view: &View<P>,
        read: &Read,
    ) -> Result<bool, AllocError>
        ensures { IfOk result (λ is. IsTrue is ↔
            IsUnchanged (value_before P.meaning view.now) (value_now O.meaning self.now) read.now) }
    {
        match read {
            Read::Key(key) => self.is_unchanged_key(alloc, view, key.as_slice()),
            Read::Range { low, high } => {
                self.is_unchanged_range(alloc, view, low.as_slice(), high)
            }
        }
    }

    /// The place of the first read of which a key hasn't the value any more that a view has, or `None`. Values are compared: a key that was
    /// written and has its value again is unchanged. A prepared batch isn't seen. It costs the lookups in both, and of a range a scan
    /// in both.
    pub fn first_changed<P: Operator>(
        &self,
        alloc: Global,
        view: &View<P>,
        reads: &[Read],
    ) -> Result<Option<usize>, AllocError>
        ensures { IfOk result (λ place.
            IsFirstChanged (value_before P.meaning view.now) (value_now O.meaning self.now) reads.now place) }
    {
        for (place, read) in reads.iter().enumerate() {
            if !self.is_unchanged(alloc, view, read)? {
                return Ok(Some(place));
            }
        }
        Ok(None)
    }

    /// Prepares the batch of a transaction, and returns its record, as [`prepare_recorded`](LiveStore::prepare_recorded) does, if each
    /// of its reads, which were made in a view, is unchanged. Then the transaction reads as right before its own writes, whatever was
    /// written since it began.
    ///
    /// Fails with the place of the first read that is changed, and nothing changes then. Else it fails as `prepare_recorded` does.
    pub fn prepare_if<P: Operator>(
        &mut self,
        alloc: Global,
        view: &View<P>,
        reads: &[Read],
        length: u64,
        batch: &[u8],
    ) -> Result<Vec<u8>, TransactionError>
        ensures unchanged { IfOk result (λ _.
            IsFirstChanged (value_before P.meaning view.now) (value_now O.meaning self.old) reads.now None) }
        ensures prepared { IfOk result (λ _. IsBatchPrepared O.meaning batch.now self.old self.new) }
        ensures recorded { IfOk result (λ bytes. IsRecorded (lives.last self.old) length batch.now bytes.items) }
        ensures err { IfErr result (λ error.
            Declines O.meaning (value_before P.meaning view.now) reads.now batch.now self.old self.new error) }
    {
        commits_go_on::<O>();
        let Ok(changed) = self.first_changed(alloc, view, reads) else {
            self.give_up();
            return Err(TransactionError::Write(WriteError::NoRoom(RoomError::Memory)));
        };
        if let Some(place) = changed {
            return Err(TransactionError::Conflict(place));
        }
        let record = self.prepare_recorded(alloc, length, batch)?;
        Ok(record)
    }
}
