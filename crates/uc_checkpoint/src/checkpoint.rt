//! [`Checkpoint`]: the rows of a view as a write-ahead log, piece by piece.
ghost use Rattle.std.specs.Prelude.{◌≡◌, ◌≤◌, ◌<◌, ◌+◌, ◌^◌, ◌++◌, ◌∷◌, ℕ, [], IfOk, IfErr, MatchOption, OnOk, length, take, option_map};
ghost use Rattle.uc_batch.specs.Gathering.{FitTogether, numbered_text};
ghost use Rattle.uc_checkpoint.specs.Checkpoints.{LaysInto, LaysOut, RefusesPiece, all_rows, piece_size, put_of, puts_of, rows_behind, rows_left};
ghost use Rattle.uc_checkpoint.specs.HeldCheckpoints.{IsNext, IsPage, Parts, RefusesRows, Splits};
ghost use Rattle.uc_checkpoint.specs.declared.checkpoint.TheConstants.{MOST_ROWS};

use crate::checkpoint_error::CheckpointError;
use std::alloc::{AllocError, Global};
use std::marker::Model;
use uc_batch::{PushError, WriteBatch};
use uc_bytes::{Bytes, MAX_SEQUENCE, OpRef};
use uc_live::View;
use uc_logrec::payload_bytes;
use uc_oper::Operator;
use uc_query_read::{Rows, scan_rows_are_determined, scan_rows_are_first};

/// The most rows of a piece.
const MOST_ROWS: u64 = 1 << 16;

/// A piece has at most 65,536 rows, and at least one of those that are left.
pub fn pieces_have_a_most()
    ensures most { (most : ℕ) → 1 ≤ most → most ≤ 65536 → piece_size most ≡ most }
    ensures none { piece_size 0 ≡ 1 }
    ensures more { (most : ℕ) → 65536 ≤ most → piece_size most ≡ 65536 }
{}

/// A view whose rows are laid out as a write-ahead log that puts them, piece by piece.
pub struct Checkpoint<O: Operator> {
    view: View<O>,
    /// Each row below it is laid out, and no other. None once all are.
    next: Option<Bytes>,
    /// The number of rows laid out: the sequence of the last one.
    rows: u64,
}

impl<O: Operator> Model for Checkpoint<O> {
    ghost use Rattle.uc_checkpoint.specs.Checkpoints.{Progress};
    ghost use Rattle.uc_checkpoint.specs.HeldCheckpoints.{progress, IsProgress};

    ghost Value = { Progress };

    ghost view = { progress };

    ghost invariant = { IsProgress O.meaning };
}

// A destructor of its own: where a value is dropped, the proof of a caller has one call, and not one for each field.
impl<O: Operator> Drop for Checkpoint<O> {
    fn drop(self) {
        let Checkpoint {
            view: _,
            next: _,
            rows: _,
        } = self;
    }
}

/// Rows, the first of which are those of a piece, and the key of the row after these, if there is one.
#[derive(Drop)]
struct Page {
    rows: Rows,
    /// The number of the piece's rows.
    count: usize,
    next: Option<Bytes>,
}

/// The bytes that a log gets for the next rows, and where the checkpoint continues after them.
#[derive(Drop)]
struct Piece {
    text: Vec<u8>,
    next: Option<Bytes>,
    rows: u64,
}

/// Adds the put of a row to a batch.
fn push_row(batch: &mut WriteBatch, key: &[u8], value: &[u8]) -> Result<(), CheckpointError>
    requires { length batch.old < MOST_ROWS }
    ensures ok { OnOk result (batch.new ≡ batch.old ++ put_of (key.now, value.now) ∷ []) }
    ensures err { IfErr result (λ error. RefusesRows ((key.now, value.now) ∷ []) error) }
{
    match batch.push(&OpRef::put(key, value)) {
        Ok(()) => Ok(()),
        Err(PushError::TooLong) => Err(CheckpointError::TooLong),
        Err(PushError::Full) => unreachable!(),
        Err(PushError::Memory) => Err(CheckpointError::Memory),
    }
}

/// The batch that puts the first rows.
fn batch_of(alloc: Global, rows: &Rows, count: usize) -> Result<WriteBatch, CheckpointError>
    requires { count ≤ MOST_ROWS }
    ensures ok { IfOk result (λ batch. batch ≡ puts_of (take count rows.now)) }
    ensures err { IfErr result (λ error. RefusesRows (take count rows.now) error) }
{
    let mut batch = WriteBatch::new(alloc)?;
    for (key, value) in rows.iter() {
        if batch.len() as usize >= count {
            break;
        }
        push_row(&mut batch, key, value)?;
    }
    Ok(batch)
}

/// The rows, split after the first `most`.
fn split(alloc: Global, rows: Rows, most: u64) -> Result<Page, AllocError>
    requires { length rows ≤ most + 1 }
    ensures splits { IfOk result (λ page. Splits most rows (take page.count page.rows) page.next) }
    ensures count { IfOk result (λ page. page.count ≡ length (take page.count page.rows)) }
{
    let count = (rows.len() as u64).min(most) as usize;
    let next = match rows.get(count) {
        Some((key, _)) => Some(Bytes::from_slice(alloc, key)?),
        None => None,
    };
    Ok(Page { rows, count, next })
}

/// The bytes of a batch, with a sequence.
fn numbered(alloc: Global, batch: &WriteBatch, seq: u64) -> Result<Vec<u8>, AllocError>
    ensures text { IfOk result (λ bytes. bytes.items ≡ numbered_text seq batch.now) }
    ensures fit { FitTogether batch.now }
{
    let bytes = batch.as_bytes();
    let mut numbered = Vec::with_capacity(alloc, bytes.len())?;
    numbered.extend_from_slice(&seq.to_le_bytes())?;
    numbered.extend_from_slice(&bytes[8..])?;
    Ok(numbered)
}

impl<O: Operator> Checkpoint<O> {
    /// A checkpoint of a view, of which nothing is laid out yet. It sorts the writes that no run of the view has, once. An `Err` loses the
    /// view.
    pub fn of(alloc: Global, view: View<O>) -> Result<Checkpoint<O>, AllocError>
        ensures { IfOk result (λ checkpoint. checkpoint ≡ record { seen = view; rows = 0 }) }
    {
        let mut view = view;
        view.sort(alloc)?;
        Ok(Checkpoint {
            view,
            next: Some(Bytes::from(Vec::new(alloc))),
            rows: 0,
        })
    }

    /// The number of rows laid out.
    pub fn rows(&self) -> u64
        ensures { result ≡ self.now.rows }
    {
        self.rows
    }

    /// The next rows, as many as a piece has.
    fn page(&self, alloc: Global, most: u64) -> Result<Page, AllocError>
        ensures page { IfOk result (λ page. IsPage (all_rows O.meaning self.now.seen) self.now.rows (piece_size most)
            (take page.count page.rows) page.next) }
        ensures count { IfOk result (λ page. page.count ≡ length (take page.count page.rows)) }
    {
        scan_rows_are_first::<O>();
        scan_rows_are_determined::<O>();
        let Some(next) = &self.next else {
            return Ok(Page {
                rows: Rows::new(alloc),
                count: 0,
                next: None,
            });
        };
        let most = most.clamp(1, MOST_ROWS);
        let rows = self.view.scan(alloc, next.as_slice(), &None, most + 1)?;
        split(alloc, rows, most)
    }

    /// The piece that comes next, if a row is left.
    fn piece(
        &self,
        alloc: Global,
        log_length: u64,
        most: u64,
    ) -> Result<Option<Piece>, CheckpointError>
        ensures ok { IfOk result (λ piece. MatchOption piece (rows_left O.meaning self.now ≡ [])
            (λ p. IsNext O.meaning log_length most self.now p.text.items p.next p.rows)) }
        ensures err { IfErr result (RefusesPiece O.meaning self.now) }
    {
        let page = self.page(alloc, most)?;
        if page.count == 0 {
            return Ok(None);
        }
        let batch = batch_of(alloc, &page.rows, page.count)?;
        let count = page.count as u64;
        if count > MAX_SEQUENCE - self.rows {
            return Err(CheckpointError::SequencesSpent);
        }
        let bytes = numbered(alloc, &batch, self.rows + 1)?;
        let text = payload_bytes(alloc, log_length, &bytes)?;
        let Page {
            rows: _,
            count: _,
            next,
        } = page;
        let rows = self.rows + count;
        Ok(Some(Piece { text, next, rows }))
    }

    /// Continues after a piece.
    fn go_on(&mut self, next: Option<Bytes>, rows: u64)
        requires parts { Parts next rows (all_rows O.meaning self.old.seen) }
        requires within { rows ≤ length (all_rows O.meaning self.old.seen) }
        requires below { rows < 2 ^ 56 }
        ensures { self.new ≡ record self.old { rows = rows } }
    {
        self.next = next;
        self.rows = rows;
    }

    /// Encodes the next rows: returns the bytes that a log of `log_length` bytes gets for them. They are a batch, whose sequence
    /// numbers follow those of the rows before. There are `most` rows and at most 65,536, but one if `most` is 0; fewer only if no
    /// more are left. It is `None` if no row is left. An `Err` changes nothing.
    pub fn next(
        &mut self,
        alloc: Global,
        log_length: u64,
        most: u64,
    ) -> Result<Option<Vec<u8>>, CheckpointError>
        ensures ok { IfOk result (λ piece.
            LaysOut O.meaning log_length (option_map (λ bytes. bytes.items) piece) self.old self.new) }
        ensures many { OnOk result (self.new.rows ≡ rows_behind O.meaning most self.old) }
        ensures err { IfErr result (λ error. RefusesPiece O.meaning self.old error × (self.new ≡ self.old)) }
    {
        let Some(piece) = self.piece(alloc, log_length, most)? else {
            return Ok(None);
        };
        let Piece { text, next, rows } = piece;
        self.go_on(next, rows);
        Ok(Some(text))
    }

    /// Encodes the next rows into the buffer, as [`next`](Checkpoint::next) does, and returns the size of the piece. If it doesn't
    /// fit, nothing changes, and no row is passed over. An `Err` changes nothing.
    pub fn next_into(
        &mut self,
        alloc: Global,
        log_length: u64,
        most: u64,
        room: &mut [u8],
    ) -> Result<Option<usize>, CheckpointError>
        ensures ok { IfOk result (λ size.
            LaysInto O.meaning log_length most size room.old room.new self.old self.new) }
        ensures err { IfErr result (λ error.
            RefusesPiece O.meaning self.old error × (room.new ≡ room.old) × (self.new ≡ self.old)) }
    {
        let Some(piece) = self.piece(alloc, log_length, most)? else {
            return Ok(None);
        };
        let Piece { text, next, rows } = piece;
        let size = text.len();
        if size <= room.len() {
            room[..size].copy_from_slice(&text);
            self.go_on(next, rows);
        }
        Ok(Some(size))
    }
}
