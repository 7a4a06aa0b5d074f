//! [`Laid`]: the number of rows that were copied into a buffer, and of those that didn't fit it.
ghost use Rattle.std.specs.Prelude.{◌≡◌, ◌≤◌, ◌+◌, ◌++◌, ◌∷◌, ℕ, List, [], length, IfSome, OnOk};
ghost use Rattle.uc_rows.specs.Laying.{AreLaid, laid_at};
ghost use Rattle.uc_rows.specs.RowBytes.{Row, row_bytes, text_bytes};

use std::alloc::AllocError;

/// Size in bytes of an encoded length.
const LENGTH: usize = 8;

/// The rows of a scan so far, of which the first ones are in a buffer. Once one doesn't fit, those that follow are counted alone.
#[derive(Clone, Copy, Debug)]
pub struct Laid {
    /// Number of rows.
    pub rows: u64,
    /// Number of the first rows that fit the buffer.
    pub fitting: u64,
    /// Size in bytes of all rows.
    pub size: usize,
}

/// The size of rows with one more; none if it is no number.
#[inline]
fn size_with(size: usize, key: &[u8], value: &[u8]) -> Option<usize>
    ensures { IfSome result (λ sum. sum ≡ size + (16 + length key.now + length value.now)) }
{
    size.checked_add(2 * LENGTH)?
        .checked_add(key.len())?
        .checked_add(value.len())
}

/// Copies bytes to an offset of a buffer.
#[inline]
fn lay_part(room: &mut [u8], at: usize, part: &[u8])
    requires { at + length part.now ≤ length room.old }
    ensures { room.new ≡ laid_at at part.now room.old }
{
    let end = at + part.len();
    room[at..end].copy_from_slice(part);
}

/// Copies a byte string to an offset of a buffer, after its length, as 8 bytes with the low byte first.
#[inline]
fn lay_text(room: &mut [u8], at: usize, text: &[u8])
    requires { at + (8 + length text.now) ≤ length room.old }
    ensures { room.new ≡ laid_at at (text_bytes text.now) room.old }
{
    lay_part(room, at, &(text.len() as u64).to_le_bytes());
    lay_part(room, at + LENGTH, text);
}

/// Copies a row to an offset of a buffer.
#[inline]
fn lay(room: &mut [u8], at: usize, key: &[u8], value: &[u8])
    requires { at + (16 + length key.now + length value.now) ≤ length room.old }
    ensures { room.new ≡ laid_at at (row_bytes (key.now, value.now)) room.old }
{
    lay_text(room, at, key);
    lay_text(room, at + (LENGTH + key.len()), value);
}

impl Laid {
    /// No rows.
    #[inline]
    pub fn new() -> Laid
        ensures { (room : List ℕ) → AreLaid [] room room result }
    {
        Laid {
            rows: 0,
            fitting: 0,
            size: 0,
        }
    }

    /// Adds a row, and copies it to the buffer after those before it, if it fits and they did. Fails if the number of rows or their size is
    /// no number.
    #[inline]
    pub fn add(&mut self, room: &mut [u8], key: &[u8], value: &[u8]) -> Result<(), AllocError>
        ensures { OnOk result ((rows : List Row) (first : List ℕ) → AreLaid rows first room.old self.old →
            AreLaid (rows ++ (key.now, value.now) ∷ []) first room.new self.new) }
    {
        let Some(size) = size_with(self.size, key, value) else {
            return Err(AllocError);
        };
        let Some(rows) = self.rows.checked_add(1) else {
            return Err(AllocError);
        };
        if self.fitting == self.rows && size <= room.len() {
            lay(room, self.size, key, value);
            self.fitting = rows;
        }
        self.rows = rows;
        self.size = size;
        Ok(())
    }
}
