//! Numbers one after the other: the sequences of a fragment.
ghost use Rattle.std.specs.Prelude.{◌≡◌, ℕ, ◌^◌, ◌<◌, ◌++◌, List, length, OnOk, IfOk, MatchOption};
ghost use Rattle.std.specs.List.{AllByRecursion};
ghost use Rattle.uc_run_file.specs.Spelling.{numbers_text};

use std::alloc::AllocError;
use uc_run_points::{push_number, spelled_number};

/// Pushes numbers. An `Err` may leave some of their bytes pushed.
pub(crate) fn push_numbers(bytes: &mut Vec<u8>, numbers: &[u64]) -> Result<(), AllocError>
    ensures { OnOk result (bytes.new.items ≡ bytes.old.items ++ numbers_text numbers.now) }
{
    for number in numbers {
        push_number(bytes, *number)?;
    }
    Ok(())
}

/// Reads this many numbers, which replace those that are there, and returns the bytes after them. None if they aren't spelled there.
pub(crate) fn read_numbers<'a>(
    numbers: &mut Vec<u64>,
    count: u64,
    bytes: &'a [u8],
) -> Result<Option<&'a [u8]>, AllocError>
    ensures read { IfOk result (λ found. MatchOption found
        ((others : List ℕ) (rest : List ℕ) → length others ≡ count → AllByRecursion (λ n. n < 2 ^ 64) others →
        bytes.now ≡ numbers_text others ++ rest → ⊥)
        (λ rest. (length numbers.new.items ≡ count) × AllByRecursion (λ n. n < 2 ^ 64) numbers.new.items ×
        (bytes.now ≡ numbers_text numbers.new.items ++ rest.now))) }
{
    numbers.clear();
    let mut rest = bytes;
    for _ in 0..count {
        match spelled_number(rest) {
            None => return Ok(None),
            Some((number, after)) => {
                numbers.push(number)?;
                rest = after;
            }
        }
    }
    Ok(Some(rest))
}
