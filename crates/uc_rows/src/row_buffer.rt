//! [`RowBuffer`]: keys with their values, one after the other.
ghost use Rattle.std.specs.Prelude.{◌≡◌, ◌<◌, ◌^◌, ◌↔◌, ◌++◌, ◌∷◌, [], length, map, take, IfOk, IsTrue, OnOk, OnErr};
ghost use Rattle.uc_rows.specs.Fitting.{AreFitting};
ghost use Rattle.uc_rows.specs.RowBytes.{rows_bytes};
ghost use Rattle.uc_rows.specs.Rising.{same_rows};

use crate::row_iter::RowIter;
use crate::spelling::push_row;
use std::alloc::{AllocError, Global};
use std::marker::Model;

/// Keys with their values, one after the other in one buffer. A contract sees the list of pairs.
#[derive(Debug, Drop)]
pub struct RowBuffer {
    bytes: Vec<u8>,
    count: usize,
}

impl Model for RowBuffer {
    ghost use Rattle.std.specs.Prelude.{List, ℕ};
    ghost use Rattle.uc_rows.specs.Held.{rows_of, AreHeld};

    ghost Value = { List (List ℕ × List ℕ) };

    ghost view = { rows_of };

    ghost invariant = { AreHeld };
}

/// The bytes of the two lengths in a row.
const LENGTHS: usize = 16;

/// The number of first rows that fit a buffer, and the size of these.
fn count_fitting(rows: RowIter<'_>, room: usize) -> (usize, usize)
    requires count { length rows < 2 ^ 63 }
    requires room { room < 2 ^ 63 }
    ensures fitting { AreFitting rows.entry room result.0 }
    ensures size { result.1 ≡ length (rows_bytes (take result.0 rows.entry)) }
{
    let (mut count, mut size) = (0, 0);
    for (key, value) in rows {
        let row = key
            .len()
            .saturating_add(value.len())
            .saturating_add(LENGTHS);
        if row > room - size {
            break;
        }
        count += 1;
        size += row;
    }
    (count, size)
}

impl RowBuffer {
    /// No rows. It doesn't allocate.
    pub fn new(alloc: Global) -> RowBuffer
        ensures { result ≡ [] }
    {
        RowBuffer {
            bytes: Vec::new(alloc),
            count: 0,
        }
    }

    /// No rows, and memory for this many bytes of them.
    pub fn with_capacity(alloc: Global, bytes: usize) -> Result<RowBuffer, AllocError>
        ensures { IfOk result (λ rows. rows ≡ []) }
    {
        Ok(RowBuffer {
            bytes: Vec::with_capacity(alloc, bytes)?,
            count: 0,
        })
    }

    /// Copies of these keys and values.
    pub fn of(alloc: Global, pairs: &[(&[u8], &[u8])]) -> Result<RowBuffer, AllocError>
        ensures { IfOk result (λ rows. rows ≡ map (λ p. (p.0.now, p.1.now)) pairs.now) }
    {
        let mut rows = RowBuffer::new(alloc);
        for (key, value) in pairs {
            rows.push(key, value)?;
        }
        Ok(rows)
    }

    /// The number of rows.
    #[inline]
    pub fn len(&self) -> usize
        ensures count { result ≡ length self.now }
        ensures bound { result < 2 ^ 63 }
    {
        self.count
    }

    /// Whether there are none.
    #[inline]
    pub fn is_empty(&self) -> bool
        ensures { IsTrue result ↔ (self.now ≡ []) }
    {
        self.len() == 0
    }

    /// Pushes a row: copies of its key and its value. An `Err` pushes nothing.
    pub fn push(&mut self, key: &[u8], value: &[u8]) -> Result<(), AllocError>
        ensures pushed { OnOk result (self.new ≡ self.old ++ (key.now, value.now) ∷ []) }
        ensures as_it_was { OnErr result (self.new ≡ self.old) }
    {
        push_row(&mut self.bytes, key, value)?;
        self.count += 1;
        Ok(())
    }

    /// The rows, for a walk.
    #[inline]
    pub fn iter(&self) -> RowIter<'_>
        ensures { result ≡ self.now }
    {
        RowIter::new(&self.bytes, self.count)
    }

    /// The bytes of the first rows, as many as fit a buffer of this size, and how many rows these are. It costs a step for each, unless
    /// all fit.
    pub fn fitting(&self, room: usize) -> (&[u8], usize)
        ensures bytes { result.0.now ≡ rows_bytes (take result.1 self.now) }
        ensures fitting { AreFitting self.now room result.1 }
    {
        let (bytes, count) = (self.as_bytes(), self.len());
        if bytes.len() <= room {
            return (bytes, count);
        }
        let (count, size) = count_fitting(self.iter(), room);
        (&bytes[..size], count)
    }

    /// The rows as bytes: of each the length of its key in 8 bytes, low byte first, the key, the length of its value likewise,
    /// and the value.
    #[inline]
    pub fn as_bytes(&self) -> &[u8]
        ensures { result.now ≡ rows_bytes self.now }
    {
        &self.bytes
    }

    /// Whether the rows are equal. Bytes are compared, and no row is looked at.
    pub(crate) fn same(&self, other: &RowBuffer) -> bool
        ensures { result ≡ same_rows self.now other.now }
    {
        self.count == other.count && self.bytes == other.bytes
    }
}
