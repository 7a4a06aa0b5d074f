//! [`Tail`]: the last bytes of concatenated operands.
ghost use Rattle.uc_oper.specs.Tails as tails;
ghost use Rattle.std.specs.Prelude.{◌≡◌, ◌≤◌, length, drop, IfOk};

use crate::operator::Operator;
use std::alloc::{AllocError, Global};

/// Concatenates byte strings and keeps the last `N` bytes, as a log of bounded length does. A value that was put stays whole until
/// it is merged with an operand.
///
/// Joining two byte strings copies at most `N` bytes.
pub enum Tail<const N: usize> {}

/// The last `count` bytes, or all if there are fewer.
fn last_bytes(text: &[u8], count: usize) -> &[u8]
    ensures { result.now ≡ tails.last_bytes count text.now }
{
    &text[text.len().saturating_sub(count)..]
}

/// The last bytes of an older byte string and a newer one, in new memory.
fn last_of_both(
    alloc: Global,
    count: usize,
    older: &[u8],
    newer: &[u8],
) -> Result<Vec<u8>, AllocError>
    ensures { IfOk result (λ text. text.items ≡ tails.last_of_both count older.now newer.now) }
{
    let newer = last_bytes(newer, count);
    let older = last_bytes(older, count - newer.len());
    let mut text = Vec::with_capacity(alloc, older.len() + newer.len())?;
    text.extend_from_slice(older)?;
    text.extend_from_slice(newer)?;
    Ok(text)
}

/// The bytes without the first `count`, in the same memory.
fn without_front(mut text: Vec<u8>, count: usize) -> Vec<u8>
    requires { count ≤ length text.items }
    ensures { result.items ≡ drop count text.items }
{
    let len = text.len();
    text.copy_within(count..len, 0);
    text.truncate(len - count);
    text
}

/// The last bytes of an older byte string and a newer one, in the memory of the older one. If that is longer than the result, its
/// memory is freed.
fn keep_last(
    alloc: Global,
    count: usize,
    older: Vec<u8>,
    newer: &[u8],
) -> Result<Vec<u8>, AllocError>
    ensures { IfOk result (λ text. text.items ≡ tails.last_of_both count older.items newer.now) }
{
    if count < older.len() {
        return last_of_both(alloc, count, older.as_slice(), newer);
    }
    let newer = last_bytes(newer, count);
    let cut = older.len().saturating_sub(count - newer.len());
    let mut text = without_front(older, cut);
    text.extend_from_slice(newer)?;
    Ok(text)
}

impl<const N: usize> Operator for Tail<N> {
    ghost meaning = { tails.tail N };

    ghost lawful = { tails.tail_lawful N };

    fn first(alloc: Global, operand: &[u8]) -> Result<Vec<u8>, AllocError> {
        Vec::from_slice(alloc, last_bytes(operand, N))
    }

    fn join(alloc: Global, base: &[u8], operand: &[u8]) -> Result<Vec<u8>, AllocError> {
        last_of_both(alloc, N, base, operand)
    }

    fn pair(alloc: Global, older: &[u8], newer: &[u8]) -> Result<Vec<u8>, AllocError> {
        last_of_both(alloc, N, older, newer)
    }

    /// Moves the rest of the value to its front. It allocates only if the value is longer than `N` bytes, or has no capacity for
    /// the operand.
    fn join_onto(alloc: Global, base: Vec<u8>, operand: &[u8]) -> Result<Vec<u8>, AllocError> {
        keep_last(alloc, N, base, operand)
    }

    /// Moves the rest of the older operand to its front. It allocates only if that is longer than `N` bytes, or has no capacity for
    /// the newer one.
    fn pair_onto(alloc: Global, older: Vec<u8>, newer: &[u8]) -> Result<Vec<u8>, AllocError> {
        keep_last(alloc, N, older, newer)
    }
}
