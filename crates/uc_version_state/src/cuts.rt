//! [`memtable_count`]: how many memtables writes fill.
ghost use Rattle.std.specs.Prelude.{◌≡◌, length};
ghost use Rattle.uc_version_state.specs.Flushes.{memtables};

use uc_bytes::{OpRef, Write};
use uc_run::op_size;

/// The number of memtables that these writes fill, if each is flushed from `limit` bytes on. It doesn't allocate.
pub fn memtable_count(limit: u64, writes: &[Write]) -> usize
    ensures { result ≡ length (memtables limit writes.now) }
{
    let mut full = 0usize;
    let mut size = 0u64;
    let mut is_empty = true;
    for write in writes {
        size = size.saturating_add(op_size(&OpRef::of(&write.op)));
        is_empty = size >= limit;
        if is_empty {
            full += 1;
            size = 0;
        }
    }
    if is_empty { full } else { full + 1 }
}
