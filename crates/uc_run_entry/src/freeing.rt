//! [`make_small`]: what becomes of a large vector before it is freed.

/// From how many bytes on glibc gives a block a memory map of its own (mallopt(3), `M_MMAP_THRESHOLD`), as long as it freed no
/// such block.
const LEAST_MAPPED: usize = 128 * 1024;

/// Forgets all items of a large vector but the first, and makes its block small where it lies, before it is freed. Each item
/// has this many bytes. A vector below the size that glibc maps stays as it is.
///
/// glibc maps a large block of memory, and unmaps it when it is freed. But then it takes the block's size for the least that it
/// maps (mallopt(3), `M_MMAP_THRESHOLD`), and later vectors below that size leave holes in its heap. A block of one item
/// doesn't change it.
#[inline]
pub fn make_small<T: Drop>(items: &mut Vec<T>, item_size: usize) {
    if items.capacity().saturating_mul(item_size) >= LEAST_MAPPED {
        items.truncate(1);
        items.shrink_to(1);
    }
}
