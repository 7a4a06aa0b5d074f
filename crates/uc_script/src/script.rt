//! [`Script`]: what a script asks, and [`Preamble`]: its part up to `open`.
use crate::call::Call;
use uc_bytes::{Items, Op};

/// Changes that a script writes.
pub type Ops = Items<Op>;

/// The numbers of a script's `keep` lines.
pub type Keeps = Items<u64>;

/// The calls of a script after its `open`.
pub type Calls = Items<Call>;

/// The meaning of a script: the lines before its `open`, and those after it.
#[derive(Drop)]
pub struct Script {
    /// The changes before `open`, in order. The first has the sequence 1, the next 2, and so on.
    pub ops: Ops,
    /// The numbers of the `keep` lines in order.
    pub keeps: Keeps,
    /// The calls after `open`, in order.
    pub calls: Calls,
}

/// The part of a script up to its `open`. A [`CallReader`](crate::CallReader) over the bytes after it returns its
/// calls.
#[derive(Drop)]
pub struct Preamble {
    /// The changes before `open`, in order. The first has the sequence 1, the next 2, and so on.
    pub ops: Ops,
    /// The numbers of the `keep` lines in order.
    pub keeps: Keeps,
    /// The size of the lines up to `open` in bytes, that line with its LF included. The calls begin at this offset.
    pub size: usize,
}
