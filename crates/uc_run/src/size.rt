//! The size of a write, in bytes as the owner of a memtable counts them.
ghost use Rattle.std.specs.Prelude.{◌≡◌, ◌+◌, ◌-◌, ◌^◌, min};
ghost use Rattle.std.specs.Ordering.{is_lt};
ghost use Rattle.uc_bytes.specs.Bytes.{bytes_cmp};
ghost use Rattle.uc_bytes.specs.declared.op.Op.TheVariants as changes;
ghost use Rattle.uc_bytes.specs.Borrowed.{op_of};
ghost use Rattle.uc_run.specs.Size as size;

use uc_bytes::{OpKind, OpRef};

/// The sum of two lengths and 8; at most 2^64 - 1.
fn sum_of(first: usize, second: usize) -> u64
    ensures { result ≡ min (first + second + 8) (2 ^ 64 - 1) }
{
    (first as u64)
        .saturating_add(second as u64)
        .saturating_add(8)
}

/// Whether a range has keys.
fn has_keys(begin: &[u8], end: &[u8]) -> bool
    ensures { result ≡ is_lt (bytes_cmp begin.now end.now) }
{
    begin.cmp(end).is_lt()
}

/// The lengths of a range's ends, and 8; at most 2^64 - 1; 0 if it has no keys.
fn range_size(begin: &[u8], end: &[u8]) -> u64
    ensures { result ≡ min (size.op_size (changes.DeleteRange begin.now end.now)) (2 ^ 64 - 1) }
{
    if has_keys(begin, end) {
        sum_of(begin.len(), end.len())
    } else {
        0
    }
}

/// The size of the change of a kind with this key and value.
fn parts_size(kind: OpKind, first: &[u8], second: &[u8]) -> u64
    ensures { result ≡ min (size.op_size (op_of kind first.now second.now)) (2 ^ 64 - 1) }
{
    match kind {
        OpKind::Put | OpKind::Merge => sum_of(first.len(), second.len()),
        OpKind::Delete => sum_of(first.len(), 0),
        OpKind::DeleteRange => range_size(first, second),
    }
}

/// The lengths of a change's key and value, and 8; at most 2^64 - 1; 0 for a range without keys.
pub fn op_size(op: &OpRef<'_>) -> u64
    ensures { result ≡ min (size.op_size op.now) (2 ^ 64 - 1) }
{
    let (kind, first, second) = op.parts();
    parts_size(kind, first, second)
}
