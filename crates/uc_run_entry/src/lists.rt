//! [`Lists`]: lists in one vector.
ghost use Rattle.std.specs.Prelude.{◌≡◌, ◌<◌, ◌≤◌, ◌+◌, ◌-◌, ◌^◌, ◌++◌, [], ◌∷◌, length, map, take, drop, slice_index, IfOk, OnOk, OnErr};
ghost use Rattle.std.specs.List.{slice_index_or};

use crate::freeing::make_small;
use std::alloc::{AllocError, Global};
use std::marker::Model;

/// Lists in one vector, with the offsets at which they begin: for example the keys of cut points, or sequence numbers. A contract
/// sees the lists.
///
/// A list takes 8 bytes besides its items.
pub struct Lists<T> {
    starts: Vec<usize>,
    items: Vec<T>,
}

/// The items from a start to the next one.
fn part<'a, T>(starts: &[usize], items: &'a [T], number: usize) -> &'a [T]
    requires within { number + 1 < length starts.now }
    requires order { slice_index starts.now number ≤ slice_index starts.now (number + 1) }
    requires bound { slice_index starts.now (number + 1) ≤ length items.now }
    ensures { result.now ≡
        take (slice_index starts.now (number + 1) - slice_index starts.now number) (drop (slice_index starts.now number)
        items.now) }
{
    let from = starts[number];
    let end = starts[number + 1];
    &items[from..end]
}

impl<T> Model for Lists<T> {
    ghost use Rattle.std.specs.Prelude.{List, length};
    ghost use Rattle.uc_run_entry.specs.Lists.{cut, AreStarts};

    ghost Value = { List (List T) };

    ghost view = { λ lists. cut lists.starts.items lists.items.items };

    ghost invariant = { λ lists. AreStarts lists.starts.items (length lists.items.items) };
}

impl<T: Drop> Drop for Lists<T> {
    fn drop(mut self) {
        make_small(&mut self.starts, size_of::<usize>());
        // Items are numbers, or bytes, for which this is too much, and does no harm.
        make_small(&mut self.items, size_of::<u64>());
        let Lists {
            starts: _,
            items: _,
        } = self;
    }
}

impl<T> Lists<T> {
    /// No lists.
    pub fn new(alloc: Global) -> Result<Lists<T>, AllocError>
        ensures { IfOk result (λ lists. lists ≡ []) }
    {
        let mut starts = Vec::new(alloc);
        starts.push(0)?;
        let items = Vec::new(alloc);
        Ok(Lists { starts, items })
    }

    /// The list with a number.
    pub fn list(&self, number: usize) -> &[T]
        requires { number < length self.now }
        ensures list { result.now ≡ slice_index_or self.now number [] }
        ensures few { length self.now < 2 ^ 64 }
    {
        part(&self.starts, &self.items, number)
    }

    /// The number of lists.
    pub fn len(&self) -> usize
        ensures { result ≡ length self.now }
    {
        self.starts.len().saturating_sub(1)
    }
}

impl<T: Copy> Lists<T> {
    /// Pushes a list. An `Err` leaves the lists as they were.
    pub fn push(&mut self, list: &[T]) -> Result<(), AllocError>
        ensures pushed { OnOk result (self.new ≡ self.old ++ list.now ∷ []) }
        ensures as_it_was { OnErr result (self.new ≡ self.old) }
    {
        let end = self.items.len();
        self.items.extend_from_slice(list)?;
        if self.starts.push(self.items.len()).is_err() {
            self.items.truncate(end);
            return Err(AllocError);
        }
        Ok(())
    }

    /// Copies of some lists.
    pub fn of(alloc: Global, lists: &[&[T]]) -> Result<Lists<T>, AllocError>
        ensures { IfOk result (λ made. made ≡ map (λ list. list.now) lists.now) }
    {
        let mut made = Lists::new(alloc)?;
        for list in lists {
            made.push(list)?;
        }
        Ok(made)
    }
}
