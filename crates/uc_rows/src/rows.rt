//! [`Rows`]: what a scan shows.
ghost use Rattle.std.specs.Prelude.{◌≡◌, ◌↔◌, ◌<◌, ◌^◌, [], ◌∷◌, length, take, option_map, IsTrue, IsSome, IfSome};
ghost use Rattle.std.specs.List.{slice_get};
ghost use Rattle.std.proofs.Common.{rules};
ghost use Rattle.std.specs.Cmp.Rules.{comparing};
ghost use Rattle.uc_rows.specs.RowBytes.{rows_bytes};
ghost use Rattle.uc_rows.specs.Fitting.{AreFitting};
ghost use Rattle.uc_rows.specs.Rising.{KeysRise, same_rows};

use crate::row_buffer::RowBuffer;
use crate::row_iter::RowIter;
use std::alloc::Global;
use std::marker::Model;

/// Keys and their values, in byte order of the keys, each key once. A contract sees them as a list of pairs.
#[derive(Debug, Drop)]
pub struct Rows {
    rows: RowBuffer,
}

impl Model for Rows {
    ghost use Rattle.std.specs.Prelude.{List, ℕ};
    ghost use Rattle.uc_rows.specs.Rising.{KeysRise};

    ghost Value = { List (List ℕ × List ℕ) };

    ghost view = { λ r. r.rows };

    ghost invariant = { λ r. KeysRise r.rows };
}

/// Whether the keys of rows rise, and are above a key.
fn keys_rise_above(first: &[u8], rows: RowIter<'_>) -> bool
    ensures { IsTrue result ↔ KeysRise ((first.now, []) ∷ rows.entry) }
{
    let mut last = first;
    for (key, _) in rows {
        if !last.cmp(key).is_lt() {
            return false;
        }
        last = key;
    }
    true
}

/// Whether each key is below the next.
fn keys_rise(rows: &RowBuffer) -> bool
    ensures { IsTrue result ↔ KeysRise rows.now }
{
    let mut ahead = rows.iter();
    match ahead.next() {
        None => true,
        Some((first, _)) => keys_rise_above(first, ahead),
    }
}

impl Rows {
    /// No rows. It doesn't allocate.
    pub fn new(alloc: Global) -> Rows
        ensures { result ≡ [] }
    {
        Rows {
            rows: RowBuffer::new(alloc),
        }
    }

    /// Rows, if their keys rise. Otherwise `None`, and they are lost.
    pub fn of(rows: RowBuffer) -> Option<Rows>
        ensures rising { IsSome result ↔ KeysRise rows }
        ensures rows { IfSome result (λ r. r ≡ rows) }
    {
        if keys_rise(&rows) {
            Some(Rows { rows })
        } else {
            None
        }
    }

    /// Rows whose keys are known to rise.
    pub fn known(rows: RowBuffer) -> Rows
        requires { KeysRise rows }
        ensures { result ≡ rows }
    {
        Rows { rows }
    }

    /// The number of rows.
    #[inline]
    pub fn len(&self) -> usize
        ensures count { result ≡ length self.now }
        ensures bound { result < 2 ^ 63 }
    {
        self.rows.len()
    }

    /// Whether there are none.
    #[inline]
    pub fn is_empty(&self) -> bool
        ensures { IsTrue result ↔ (self.now ≡ []) }
    {
        self.rows.is_empty()
    }

    /// The key and the value of the row at a place, if there is one. It costs a step for each row before it.
    pub fn get(&self, place: usize) -> Option<(&[u8], &[u8])>
        ensures { option_map (λ row. (row.0.now, row.1.now)) result ≡ slice_get self.now place }
    {
        let mut ahead = self.iter();
        ahead.pass(place);
        ahead.next()
    }

    /// The rows, for a walk: of each its key and its value.
    #[inline]
    pub fn iter(&self) -> RowIter<'_>
        ensures rows { result ≡ self.now }
        ensures rising { KeysRise self.now }
    {
        self.rows.iter()
    }

    /// The rows as a buffer, which says nothing of the keys' order.
    #[inline]
    pub fn as_buffer(&self) -> &RowBuffer
        ensures { result.now ≡ self.now }
    {
        &self.rows
    }

    /// The bytes of the first rows, as many as fit a buffer of this size, and how many rows these are. It costs a step for each, unless
    /// all fit.
    pub fn fitting(&self, room: usize) -> (&[u8], usize)
        ensures bytes { result.0.now ≡ rows_bytes (take result.1 self.now) }
        ensures fitting { AreFitting self.now room result.1 }
    {
        self.rows.fitting(room)
    }

    /// The rows as bytes: of each the length of its key in 8 bytes, low byte first, the key, the length of its value likewise,
    /// and the value.
    #[inline]
    pub fn as_bytes(&self) -> &[u8]
        ensures { result.now ≡ rows_bytes self.now }
    {
        self.rows.as_bytes()
    }
}

impl PartialEq for Rows {
    ghost eq = { same_rows };

    ghost laws = { Prim.search (comparing, rules) };

    fn eq(&self, other: &Rows) -> bool {
        self.rows.same(&other.rows)
    }
}

impl Eq for Rows {
    ghost laws = { Prim.search (comparing, rules) };
}
