//! [`RowIter`]: the rows that are still ahead of a walk.
ghost use Rattle.std.specs.Prelude.{◌≡◌, length, drop};
ghost use Rattle.std.specs.Iterator.{YieldsFirstBy, item_count};
ghost use Rattle.uc_rows.specs.RowBytes.{rows_from};

use crate::spelling::read_row;
use std::marker::Model;

/// An iterator over rows, in their order, which returns each row's borrowed key and value. A contract sees the list of the rows
/// that are ahead.
#[derive(Drop)]
pub struct RowIter<'a> {
    /// The bytes from the next row on.
    bytes: &'a [u8],
    count: usize,
}

impl<'a> Model for RowIter<'a> {
    ghost use Rattle.std.specs.Prelude.{List, ℕ};
    ghost use Rattle.uc_rows.specs.RowBytes.{rows_from};

    ghost Value = { List (List ℕ × List ℕ) };

    ghost view = { λ r. rows_from r.count r.bytes.now };
}

impl<'a> RowIter<'a> {
    /// This many rows, whose bytes begin here.
    #[inline]
    pub(crate) fn new(bytes: &'a [u8], count: usize) -> RowIter<'a>
        ensures { result ≡ rows_from count bytes.now }
    {
        RowIter { bytes, count }
    }

    /// The number of rows ahead.
    #[inline]
    pub fn len(&self) -> usize
        ensures { result ≡ length self.now }
    {
        self.count
    }

    /// Passes over this many rows, or all if there are fewer.
    #[inline]
    pub fn pass(&mut self, count: usize)
        ensures { self.new ≡ drop count self.old }
    {
        for _ in 0..count {
            self.next();
        }
    }
}

impl<'a> Iterator for RowIter<'a> {
    type Item = (&'a [u8], &'a [u8]);

    ghost next_gives = { YieldsFirstBy (λ row. (row.0.now, row.1.now)) (λ rows. rows) };

    ghost remaining = { item_count (λ rows. rows) };

    #[inline]
    fn next(&mut self) -> Option<(&'a [u8], &'a [u8])> {
        if self.count == 0 {
            return None;
        }
        let (row, rest) = read_row(self.bytes);
        self.bytes = rest;
        self.count -= 1;
        Some(row)
    }
}
