//! [`NumberBlocks`]: numbers, with the least of each block of them.
ghost use Rattle.std.specs.Prelude.{◌≡◌, ◌≢◌, ◌+◌, ◌*◌, ◌<◌, ◌≤◌, [], slice_index_or, length, min, IfOk};
ghost use Rattle.std.specs.List.{AllWithin, HoldsAt, slice_set};
ghost use Rattle.uc_run.specs.NumberBlocks.{AreLeasts, IsLeastNumber, block_numbers, numbers_in, blocks_of};

use std::alloc::{AllocError, Global};
use std::cmp;
use std::marker::Model;

/// The number of numbers in each block; the last may have fewer.
const BLOCK_NUMBERS: usize = 16;

/// Numbers in one vector, and the least of each block in another: a search reads only blocks that may have its number. A contract
/// sees it as the list of the numbers.
#[derive(Drop)]
pub(crate) struct NumberBlocks {
    numbers: Vec<u64>,
    leasts: Vec<u64>,
}

impl Model for NumberBlocks {
    ghost use Rattle.std.specs.Prelude.{List, ℕ};
    ghost use Rattle.uc_run.specs.NumberBlocks.{AreLeasts};

    ghost Value = { List ℕ };

    ghost view = { λ b. b.numbers.items };

    ghost invariant = { λ b. AreLeasts b.numbers.items b.leasts.items };
}

/// The least of some numbers, or 2^64 - 1 if there are none.
fn least_number(numbers: &[u64]) -> u64
    ensures { IsLeastNumber numbers.now result }
{
    let mut least = u64::MAX;
    for number in numbers {
        least = least.min(*number);
    }
    least
}

/// Where a block ends.
#[inline]
fn block_end(numbers: &[u64], block: usize) -> usize
    requires { block < blocks_of numbers.now }
    ensures { result ≡ min (length numbers.now) (block_numbers * block + block_numbers) }
{
    cmp::min(numbers.len(), block * BLOCK_NUMBERS + BLOCK_NUMBERS)
}

/// The numbers of a block.
#[inline]
fn block_at(numbers: &[u64], block: usize) -> &[u64]
    requires { block < blocks_of numbers.now }
    ensures { result.now ≡ numbers_in numbers.now block }
{
    &numbers[block * BLOCK_NUMBERS..block_end(numbers, block)]
}

/// The least number of each block.
fn leasts_of(alloc: Global, numbers: &[u64]) -> Result<Vec<u64>, AllocError>
    ensures { IfOk result (λ leasts. AreLeasts numbers.now leasts.items) }
{
    let count = numbers.len().div_ceil(BLOCK_NUMBERS);
    let mut leasts = Vec::with_capacity(alloc, count)?;
    for block in 0..count {
        leasts.push(least_number(block_at(numbers, block)))?;
    }
    Ok(leasts)
}

/// The first place from one on that has a number, or how many numbers there are if none has. It costs a look at each
/// block, and into those whose least isn't above the number.
fn next_numbered(numbers: &[u64], leasts: &[u64], from: usize, number: u64) -> usize
    requires leasts { AreLeasts numbers.now leasts.now }
    requires within { from ≤ length numbers.now }
    ensures bound { (from ≤ result) × (result ≤ length numbers.now) }
    ensures before { AllWithin (λ other. other ≢ number) numbers.now from result }
    ensures there { result < length numbers.now → HoldsAt (λ other. other ≡ number) numbers.now result }
{
    let mut place = from;
    while place < numbers.len() {
        let block = place / BLOCK_NUMBERS;
        if number < leasts[block] {
            place = block_end(numbers, block);
        } else if numbers[place] == number {
            return place;
        } else {
            place += 1;
        }
    }
    place
}

impl NumberBlocks {
    /// These numbers.
    pub(crate) fn of(alloc: Global, numbers: Vec<u64>) -> Result<NumberBlocks, AllocError>
        ensures { IfOk result (λ blocks. blocks ≡ numbers.items) }
    {
        let leasts = leasts_of(alloc, &numbers)?;
        Ok(NumberBlocks { numbers, leasts })
    }

    /// The number at a place.
    #[inline]
    pub(crate) fn at(&self, place: usize) -> u64
        requires { place < length self.now }
        ensures { result ≡ slice_index_or self.now place result }
    {
        self.numbers[place]
    }

    /// The least number, or 2^64 - 1 if there are none. It costs a step for each block.
    pub(crate) fn least(&self) -> u64
        ensures { IsLeastNumber self.now result }
    {
        least_number(&self.leasts)
    }

    /// The first place from one on that has a number, or how many numbers there are if none has.
    pub(crate) fn next(&self, from: usize, number: u64) -> usize
        requires { from ≤ length self.now }
        ensures bound { (from ≤ result) × (result ≤ length self.now) }
        ensures before { AllWithin (λ other. other ≢ number) self.now from result }
        ensures there { result < length self.now → HoldsAt (λ other. other ≡ number) self.now result }
    {
        next_numbered(&self.numbers, &self.leasts, from, number)
    }

    /// Puts a number in place of another. It costs a look at its block.
    #[inline]
    pub(crate) fn set(&mut self, place: usize, number: u64)
        requires { place < length self.old }
        ensures { self.new ≡ slice_set self.old place number }
    {
        self.numbers[place] = number;
        let block = place / BLOCK_NUMBERS;
        self.leasts[block] = least_number(block_at(&self.numbers, block));
    }

    /// Forgets all numbers.
    pub(crate) fn clear(&mut self)
        ensures { self.new ≡ [] }
    {
        self.numbers.clear();
        self.leasts.clear();
    }
}
